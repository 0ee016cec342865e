//! Decides clauses that are given in the DIMACS CNF format, and prints how long that takes.
//! `bench/solver` runs it. Its tests run the solver over two theories at once.
//!
//! - `dimacs`: the text of a formula, read.
//! - `formula`: `Formula`, from the numbers of such a text.
//! - `refusal`: `Refusal`, why a text is no formula.
#![tactic(auto)]

ghost use Rattle.std.specs.Prelude.{◌≡◌, map, IfOk, None};
ghost use Rattle.solve_bench.specs.Formula.{IsFormula};

mod dimacs;
mod formula;
mod refusal;
#[cfg(test)]
mod tests;

use crate::dimacs::read;
use crate::formula::Formula;
use crate::refusal::Refusal;
use solve_equality::Equality;
use solve_solver::{Answer, Solver};
use std::alloc::{AllocError, Global};
use std::io;
use std::io::{BufReader, ErrorKind};
use std::process::ExitCode;
use std::time::Instant;

fn main(rt: HostRuntime) -> io::Result<ExitCode> {
    let alloc = rt.alloc();
    let text = io::read_to_string(alloc, BufReader::new(alloc, rt.reader())?)?;
    match read(alloc, text.as_str()) {
        Ok(formula) => {
            let mut solver = solver_for(alloc, &formula)?;
            print_answer(&rt, &mut solver)?;
            Ok(ExitCode::SUCCESS)
        }
        Err(Refusal::OutOfMemory) => Err(ErrorKind::OutOfMemory.into()),
        Err(refusal) => {
            println!(rt; "not DIMACS: {refusal}")?;
            Ok(ExitCode::FAILURE)
        }
    }
}

/// A solver for the clauses, without atoms.
fn solver_for(alloc: Global, formula: &Formula) -> Result<Solver<Equality>, AllocError>
    requires { IsFormula formula.now }
    ensures vars { IfOk result (λ s. s.vars ≡ formula.now.vars) }
    ensures clauses { IfOk result (λ s. s.clauses
        ≡ map (λ clause. clause.items) formula.now.clauses.items) }
    ensures unset { IfOk result (λ s. s.assignment ≡ None) }
{
    let vars = formula.vars as usize;
    let theory = Equality::new(alloc, 1, &[], vars)?;
    let atoms = vec![in alloc; None; vars]?;
    Solver::new(
        alloc,
        formula.vars,
        formula.clauses.as_slice(),
        atoms,
        theory,
    )
}

/// Prints the answer of the solver, and how long it takes.
fn print_answer(rt: &HostRuntime, solver: &mut Solver<Equality>) -> io::Result<()> {
    let start = Instant::now(rt)?;
    let answer = solver.search();
    let time = start.elapsed(rt)?.as_micros();
    match answer {
        Answer::Sat => println!(rt; "s SATISFIABLE")?,
        Answer::Unsat => println!(rt; "s UNSATISFIABLE")?,
    }
    eprintln!(rt; "{time} microseconds")
}
