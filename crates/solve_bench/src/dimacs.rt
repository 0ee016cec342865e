//! The text of a formula, read.

ghost use Rattle.std.specs.Prelude.{◌≡◌, ◌≤◌, length, IfOk, OnOk, vec_len};
ghost use Rattle.solve_bench.specs.Formula.{IsFormula};

use crate::formula::{Formula, MOST_NUMBERS, MOST_VARIABLES, formula_of};
use crate::refusal::Refusal;
use std::alloc::{AllocError, Global};

/// What stands before the clauses.
#[derive(Clone, Copy)]
struct Header {
    vars: u32,
    clauses: usize,
}

/// The formula of a text in the DIMACS CNF format: lines that begin with `c`, which are comments,
/// the line `p cnf VARIABLES CLAUSES`, and the clauses, over lines in any way, each of which is its
/// literals and then 0. A literal is a variable counted from 1, negative where it is to be false.
///
/// `Refusal` says what else there may be.
pub fn read(alloc: Global, text: &str) -> Result<Formula, Refusal>
    ensures { IfOk result IsFormula }
{
    let (header, numbers) = numbers_of(alloc, text)?;
    let formula = formula_of(alloc, header.vars, numbers.as_slice())?;
    if formula.clauses.len() != header.clauses {
        return Err(Refusal::OtherCount);
    }
    Ok(formula)
}

/// The header, and the numbers after it.
fn numbers_of(alloc: Global, text: &str) -> Result<(Header, Vec<i32>), Refusal>
    ensures few_vars { IfOk result (λ r. r.0.vars ≤ MOST_VARIABLES) }
    ensures few_numbers { IfOk result (λ r. vec_len r.1 ≤ MOST_NUMBERS) }
{
    let mut header = None;
    let mut numbers = Vec::new(alloc);
    for line in text.lines() {
        if line.starts_with('c') || line.trim().is_empty() {
            continue;
        }
        match header {
            None => header = Some(header_of(line)?),
            Some(_) => push_numbers(line, &mut numbers)?,
        }
    }
    let header = header.ok_or(Refusal::NoHeader)?;
    Ok((header, numbers))
}

/// The header of its line.
fn header_of(line: &str) -> Result<Header, Refusal>
    ensures { IfOk result (λ h. h.vars ≤ MOST_VARIABLES) }
{
    let mut words = line.split_ascii_whitespace();
    if words.next() != Some("p") || words.next() != Some("cnf") {
        return Err(Refusal::NoHeader);
    }
    let vars = words.next().ok_or(Refusal::NoHeader)?;
    let clauses = words.next().ok_or(Refusal::NoHeader)?;
    let vars = vars.parse::<u32>().map_err(|_| Refusal::NoHeader)?;
    let clauses = clauses.parse::<usize>().map_err(|_| Refusal::NoHeader)?;
    if words.next().is_some() {
        return Err(Refusal::NoHeader);
    }
    if vars > MOST_VARIABLES {
        return Err(Refusal::TooManyVariables);
    }
    Ok(Header { vars, clauses })
}

/// Puts the numbers of a line after the others.
fn push_numbers(line: &str, numbers: &mut Vec<i32>) -> Result<(), Refusal>
    requires { vec_len numbers.old ≤ MOST_NUMBERS }
    ensures { OnOk result (vec_len numbers.new ≤ MOST_NUMBERS) }
{
    for word in line.split_ascii_whitespace() {
        let number = word.parse::<i32>().map_err(|_| Refusal::NoNumber)?;
        if numbers.len() >= MOST_NUMBERS {
            return Err(Refusal::TooManyNumbers);
        }
        numbers.push(number)?;
    }
    Ok(())
}

#[cfg(test)]
mod tests;
