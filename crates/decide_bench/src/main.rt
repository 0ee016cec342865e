//! Decides formulas, and prints the verdicts and how long they take, or the formulas as SMT-LIB.
//! `bench/decide` runs it.
//!
//! - `problem`: `Problem`, a formula and its signature.
//! - `problems`: the formulas by their names.
//! - `finds`: sets that are nested in each other.
//! - `rows`: functions in rows.
//! - `chain`: a relation under three quantifiers.
//! - `pairs`: pairs of all terms that there may be.
//! - `ranks`: numbers that differ.
//! - `smtlib`: a formula as SMT-LIB.
#![tactic(auto)]

mod chain;
mod finds;
mod pairs;
mod problem;
mod problems;
mod ranks;
mod rows;
mod smtlib;

use crate::problem::Problem;
use crate::problems::{Shape, make_problem, problems};
use crate::smtlib::text_of;
use decide_verdict::Verdict;
use std::alloc::AllocError;
use std::rt::Env;
use std::time::Instant;
use std::{env, io};

/// What the words ask for.
#[derive(Drop)]
struct Wanted {
    /// The formula, or each of them.
    name: Option<String>,
    is_text: bool,
}

fn main(rt: HostRuntime) -> io::Result<()> {
    let wanted = wanted_by_words(&rt)?;
    answer_wanted(&rt, &wanted)
}

/// Answers the formula that is asked for, or each where none is.
fn answer_wanted(rt: &HostRuntime, wanted: &Wanted) -> io::Result<()> {
    for (name, shape) in problems() {
        if wanted.name.as_ref().is_none_or(|own| own.as_str() == name) {
            answer(rt, name, shape, wanted.is_text)?;
        }
    }
    Ok(())
}

/// The first word is the name of a formula, and another says that its text is wanted.
fn wanted_by_words(rt: &(impl Env + AllocGlobal)) -> io::Result<Wanted> {
    let mut words = env::args(rt)?.skip(1);
    let name = words.next();
    let is_text = words.next().is_some();
    Ok(Wanted { name, is_text })
}

/// Decides a formula, or prints its text.
fn answer(rt: &HostRuntime, name: &str, shape: Shape, is_text: bool) -> io::Result<()> {
    let problem = make_problem(rt.alloc(), shape)?;
    if is_text {
        let text = text_of(rt.alloc(), &problem)?;
        print!(rt; "{text}")
    } else {
        time(rt, name, problem)
    }
}

/// Prints the verdict on a formula, and how long it takes.
fn time(rt: &HostRuntime, name: &str, problem: Problem) -> io::Result<()> {
    let Problem {
        signature,
        mut forms,
        formula,
    } = problem;
    let start = Instant::now(rt)?;
    let verdict = forms.verdict_on(rt.alloc(), &signature, formula)?;
    let time = start.elapsed(rt)?.as_micros();
    say(rt, name, &verdict)?;
    eprintln!(rt; "{name}: {time} microseconds")
}

/// Prints a verdict.
fn say(rt: &HostRuntime, name: &str, verdict: &Verdict) -> io::Result<()> {
    match verdict {
        Verdict::Safe => println!(rt; "{name}: safe"),
        Verdict::Found(..) => println!(rt; "{name}: found"),
        Verdict::Unknown(..) => println!(rt; "{name}: unknown"),
        Verdict::TooLarge(terms, nodes) => println!(rt;
            "{name}: too large, {terms} terms, {nodes} nodes"
        ),
    }
}
