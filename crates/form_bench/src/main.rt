//! Makes formulas and their normal forms, and prints how long that takes. `bench/formulas` runs
//! it. Its tests compare truth and normal forms with a plain reading.
//!
//! - `chains`: formulas as deep as they are long.
#![tactic(auto)]

ghost use Rattle.std.specs.Prelude.{◌≡◌, ◌≤◌, ◌*◌, length};
ghost use Rattle.form_formula.specs.Nodes.{IsFormula};

mod chains;
#[cfg(test)]
mod tests;

use crate::chains::{negated_chain, shared_chain};
use form_formula::{Arena, nnf};
use std::io;
use std::time::Instant;

/// How many links the chain of shared parts has: each is made by three calls.
const SHARED_LINKS: u32 = 333_333;

/// How many links the chain under negations has: each is four nodes.
const NEGATED_LINKS: u32 = 250_000;

fn main(rt: HostRuntime) -> io::Result<()> {
    time_makers(&rt)?;
    time_normal_form(&rt)
}

/// Prints how long a million calls of makers take.
fn time_makers(rt: &HostRuntime) -> io::Result<()> {
    let mut arena = Arena::new(rt.alloc())?;
    let start = Instant::now(rt)?;
    shared_chain(&mut arena, SHARED_LINKS)?;
    let time = start.elapsed(rt)?.as_micros();
    println!(rt; "makers: {} nodes from {} links", arena.len(), SHARED_LINKS)?;
    eprintln!(rt; "makers: {time} microseconds")
}

/// Prints how long the normal form of a million nodes takes.
fn time_normal_form(rt: &HostRuntime) -> io::Result<()> {
    let mut arena = Arena::new(rt.alloc())?;
    let chain = negated_chain(&mut arena, NEGATED_LINKS)?;
    let nodes = arena.len();
    let start = Instant::now(rt)?;
    nnf(&mut arena, chain)?;
    let time = start.elapsed(rt)?.as_micros();
    println!(rt; "normal form: {nodes} nodes, then {}", arena.len())?;
    eprintln!(rt; "normal form: {time} microseconds")
}
