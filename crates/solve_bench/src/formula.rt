//! A formula from the numbers of its text.

ghost use Rattle.std.specs.Prelude.{◌≡◌, ◌<◌, ◌≤◌, ◌+◌, ◌++◌, ◌∷◌, [], map, length, All, IfOk, OnOk, IfErr, IfSome, IsSome, vec_len};
ghost use Rattle.solve_solver.specs.declared.literal.PLit.{PLit};
ghost use Rattle.solve_solver.specs.Clauses.{IsWithin};
ghost use Rattle.solve_bench.specs.Causes.{IsCause, IsCauseAt};
ghost use Rattle.solve_bench.specs.Spelling.{number_of, spelled, spelled_with};

use crate::refusal::Refusal;
use solve_solver::PLit;
use std::alloc::Global;
use std::mem;

/// How many variables a formula has at most.
pub const MOST_VARIABLES: u32 = 1_000_000;

/// How many literals and ends of clauses a formula has at most.
pub const MOST_NUMBERS: usize = 10_000_000;

/// Clauses over variables below a number.
#[derive(Drop)]
pub struct Formula {
    pub vars: u32,
    pub clauses: Vec<Vec<PLit>>,
}

/// The formula that the numbers spell: each clause is its literals, as variables counted from 1 and
/// negative where they are to be false, and then 0.
///
/// `UnknownVariable` where a variable is above `vars`, and `NoEnd` where the last number is not 0.
pub fn formula_of(alloc: Global, vars: u32, numbers: &[i32]) -> Result<Formula, Refusal>
    ensures vars { IfOk result (λ f. f.vars ≡ vars) }
    ensures within { IfOk result (λ f. All (λ clause. IsWithin vars clause.items) f.clauses.items) }
    ensures few { IfOk result (λ f. vec_len f.clauses ≤ length numbers.now) }
    ensures spelled { IfOk result (λ f. spelled (map (λ clause. clause.items) f.clauses.items)
        ≡ numbers.now) }
    ensures causes { IfErr result (IsCause vars numbers.now) }
{
    let mut clauses = Vec::new(alloc);
    let mut open_clause = Vec::new(alloc);
    for number in numbers {
        take_number(alloc, vars, *number, &mut clauses, &mut open_clause)?;
    }
    if !open_clause.is_empty() {
        return Err(Refusal::NoEnd);
    }
    Ok(Formula { vars, clauses })
}

/// Takes one number more: a literal of the clause that is not ended, or 0, which ends it.
fn take_number(
    alloc: Global,
    vars: u32,
    number: i32,
    clauses: &mut Vec<Vec<PLit>>,
    open_clause: &mut Vec<PLit>,
) -> Result<(), Refusal>
    requires within { All (λ clause. IsWithin vars clause.items) clauses.old.items }
    requires open_within { IsWithin vars open_clause.old.items }
    ensures within { OnOk result (All (λ clause. IsWithin vars clause.items) clauses.new.items) }
    ensures open_within { OnOk result (IsWithin vars open_clause.new.items) }
    ensures few { OnOk result (vec_len clauses.new ≤ vec_len clauses.old + 1) }
    ensures spelled { OnOk result (spelled_with (map
        (λ clause. clause.items) clauses.new.items) open_clause.new.items
        ≡ spelled_with (map (λ clause. clause.items) clauses.old.items) open_clause.old.items
        ++ number ∷ []) }
    ensures causes { IfErr result (IsCauseAt vars number) }
{
    if number == 0 {
        let clause = mem::replace(open_clause, Vec::new(alloc));
        clauses.push(clause)?;
        return Ok(());
    }
    let literal = literal_of(vars, number).ok_or(Refusal::UnknownVariable)?;
    open_clause.push(literal)?;
    Ok(())
}

/// The literal of a number, if its variable is below `vars`.
fn literal_of(vars: u32, number: i32) -> Option<PLit>
    ensures within { IfSome result (λ l. l.var < vars) }
    ensures spelled { IfSome result (λ l. number_of l ≡ number) }
    ensures there { (l : PLit) → l.var < vars → number_of l ≡ number → IsSome result }
{
    let magnitude = number.unsigned_abs();
    if magnitude == 0 || magnitude > vars {
        return None;
    }
    Some(PLit {
        var: magnitude - 1,
        plus: number > 0,
    })
}
