//! Asks theories as the clause solver asks them, and prints how long they take. `bench/theories`
//! runs it.
//!
//! - `drive`: `drive`, which asserts literals, asks for conflicts and takes literals back.
//! - `random`: numbers that look random.
//! - `terms`: equalities and differences of terms, in a sequence that looks random.
//! - `variables`: bounds on differences of numbers, in a sequence that looks random.
#![tactic(auto)]

mod drive;
mod random;
mod terms;
mod variables;

use crate::drive::drive;
use crate::terms::{TERMS, equalities};
use crate::variables::{ORDER_VARIABLES, differences};
use solve_equality::Equality;
use solve_order::Order;
use solve_theory::{LitBuf, Theory};
use std::io;
use std::time::Instant;

const LITERALS: usize = 100_000;

fn main(rt: HostRuntime) -> io::Result<()> {
    time_equality(&rt)?;
    time_order(&rt)
}

/// Prints how long `Equality` takes.
fn time_equality(rt: &HostRuntime) -> io::Result<()> {
    let literals = equalities(rt.alloc(), LITERALS)?;
    let mut theory = Equality::new(rt.alloc(), TERMS, &[], LITERALS)?;
    let mut core = LitBuf::new(rt.alloc(), LITERALS)?;
    let start = Instant::now(rt)?;
    let conflicts = drive(&mut theory, literals.as_slice(), &mut core);
    let time = start.elapsed(rt)?.as_micros();
    println!(rt; "equality: {LITERALS} assertions and undos, {TERMS} terms")?;
    eprintln!(rt; "equality: {time} microseconds, {conflicts} conflicts")
}

/// Prints how long `Order` takes.
fn time_order(rt: &HostRuntime) -> io::Result<()> {
    let literals = differences(rt.alloc(), LITERALS)?;
    let mut theory = Order::new(rt.alloc(), ORDER_VARIABLES, LITERALS)?;
    let mut core = LitBuf::new(rt.alloc(), LITERALS)?;
    let start = Instant::now(rt)?;
    let conflicts = drive(&mut theory, literals.as_slice(), &mut core);
    let time = start.elapsed(rt)?.as_micros();
    println!(rt; "order: {LITERALS} assertions and undos, {ORDER_VARIABLES} variables")?;
    eprintln!(rt; "order: {time} microseconds, {conflicts} conflicts")
}
