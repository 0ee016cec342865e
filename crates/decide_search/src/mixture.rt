//! The search over equality and differences.

ghost use Rattle.std.specs.Prelude.{◌≡◌, ◌≢◌, ◌<◌, ◌^◌, List, Bool, None, All, AllPairs, length, map};
ghost use Rattle.std.specs.Prelude.{[], IfOk, IfSome, IsSome};
ghost use Rattle.std.specs.List.{range_with_len};
ghost use Rattle.solve_theory.specs.Models.{IsModelOf};
ghost use Rattle.solve_solver.specs.Assignment.{theory_literals, value_at};
ghost use Rattle.solve_solver.specs.SolverView.{IsLawfulFor};
ghost use Rattle.solve_solver.specs.Clauses.{IsWithin};
ghost use Rattle.solve_solver.specs.declared.limits.TheConstants.{TOO_MANY};
ghost use Rattle.decide_search.specs.Mixed.{AreTaken, AreValues, IsMixed, IsMixture, IsModelled};

use solve_equality::{Equality, EqualityLit};
use solve_order::{Diff, Order};
use solve_solver::{Answer, Atoms, Clauses, PLit, Solver};
use solve_theory::{Pair, PairLit, Theory};
use sqlite_items::Items;
use std::alloc::{AllocError, Global};

/// What a search finds: a value for each variable, a class for each term, and a number for each
/// variable of differences.
#[derive(Drop)]
pub struct Mixture {
    pub values: Vec<bool>,
    pub classes: Items<u32>,
    pub numbers: Items<i64>,
}

/// The value of each variable under the assignment of a solver.
fn values_of<T: Theory>(
    alloc: Global,
    solver: &Solver<T>,
    vars: u32,
) -> Result<Vec<bool>, AllocError>
    requires vars { solver.now.vars ≡ vars }
    requires solved { IsSome solver.now.assignment }
    ensures { IfOk result (λ values. IfSome solver.now.assignment (λ assignment.
        values.items ≡ map (value_at assignment) (range_with_len 0 vars))) }
{
    let mut values = Vec::new(alloc);
    for var in 0..vars {
        values.push(solver.value_of(PLit { var, plus: true }))?;
    }
    Ok(values)
}

/// What a solver finds: the value of each variable and a model, or that there is none.
fn answer<T: Theory>(
    alloc: Global,
    vars: u32,
    solver: &mut Solver<T>,
) -> Result<Option<(Vec<bool>, T::Model)>, AllocError>
    requires { solver.old.vars ≡ vars }
    ensures none { IfOk result (λ found. found ≡ None → (assignment : List Bool) → IsLawfulFor
        T.models T.meets solver.old assignment → ⊥) }
    ensures some { IfOk result (λ found. IfSome found (λ both. AreValues vars solver.old.clauses
        both.0.items)) }
    ensures lawful { IfOk result (λ found. IfSome found (λ both. IsLawfulFor T.models T.meets
        solver.old both.0.items)) }
    ensures modelled { IfOk result (λ found. IfSome found (λ both. IsModelOf (T.models
        solver.old.theory) T.meets (theory_literals both.0.items solver.old.atoms) both.1)) }
{
    match solver.search() {
        Answer::Unsat => Ok(None),
        Answer::Sat => {
            let values = values_of(alloc, solver, vars)?;
            let model = solver.theory().model()?;
            Ok(Some((values, model)))
        }
    }
}

/// Lets a solver try these values first.
fn prefer<T: Theory>(solver: &mut Solver<T>, first: &[PLit])
    requires { IsWithin solver.old.vars first.now }
    ensures { solver.new ≡ solver.old }
{
    for literal in first {
        solver.prefer(*literal);
    }
}

/// What a solver finds that is not used any more, which tries these values first.
fn last_answer<T: Theory + Drop>(
    alloc: Global,
    vars: u32,
    solver: Solver<T>,
    first: &[PLit],
) -> Result<Option<(Vec<bool>, T::Model)>, AllocError>
    requires vars { solver.vars ≡ vars }
    requires within { IsWithin vars first.now }
    ensures none { IfOk result (λ found. found ≡ None → (assignment : List Bool) → IsLawfulFor
        T.models T.meets solver assignment → ⊥) }
    ensures some { IfOk result (λ found. IfSome found (λ both. AreValues vars solver.clauses
        both.0.items)) }
    ensures lawful { IfOk result (λ found. IfSome found (λ both. IsLawfulFor T.models T.meets
        solver both.0.items)) }
    ensures modelled { IfOk result (λ found. IfSome found (λ both. IsModelOf (T.models
        solver.theory) T.meets (theory_literals both.0.items solver.atoms) both.1)) }
{
    let mut solver = solver;
    prefer(&mut solver, first);
    answer(alloc, vars, &mut solver)
}

/// The decision procedures, with nothing asserted.
fn procedures(
    alloc: Global,
    terms: usize,
    fixed: &[u32],
    numbers: usize,
    capacity: usize,
) -> Result<Pair<Equality, Order>, AllocError>
    requires few_terms { terms < 2 ^ 32 }
    requires few_numbers { numbers < 2 ^ 32 }
    requires few_literals { capacity < 2 ^ 32 }
    requires some { 0 < numbers }
    requires fixed_in { All (λ f. f < terms) fixed.now }
    requires fixed_once { AllPairs (λ f g. f ≢ g) fixed.now }
    ensures { IfOk result (λ p. p ≡ record {
      left = record { literals = []; capacity = capacity; terms = terms; fixed = fixed.now };
      right = record { variables = numbers; capacity = capacity; literals = [] };
      sides = [];
      capacity = capacity;
    }) }
{
    let equality = Equality::new(alloc, terms, fixed, capacity)?;
    let order = Order::new(alloc, numbers, capacity)?;
    Pair::new(alloc, equality, order, capacity)
}

// The parameters are the solver's problem, and the terms and numbers that both procedures are over.
/// Searches for an assignment that meets each clause and whose equalities and differences have a
/// model; None exactly where there is none. These values are tried first, but for variables that
/// are equalities or differences.
///
/// The terms are numbers below `terms`, of which those in `fixed` are pairwise different, and those
/// of differences numbers below `numbers`, of which 0 is zero. `atoms` has one entry for each of
/// the variables. Of these and of the clauses there are fewer than `TOO_MANY` of solve_solver.
pub fn search_mixed(
    alloc: Global,
    vars: u32,
    clauses: Clauses,
    atoms: Atoms<PairLit<EqualityLit, Diff>>,
    first: &[PLit],
    terms: usize,
    fixed: &[u32],
    numbers: usize,
) -> Result<Option<Mixture>, AllocError>
    requires few_vars { vars < TOO_MANY }
    requires few_clauses { length clauses.list < TOO_MANY }
    requires few_terms { terms < 2 ^ 32 }
    requires few_numbers { numbers < 2 ^ 32 }
    requires some { 0 < numbers }
    requires fixed_in { All (λ f. f < terms) fixed.now }
    requires fixed_once { AllPairs (λ f g. f ≢ g) fixed.now }
    requires one_each { length atoms ≡ vars }
    requires taken { AreTaken terms numbers atoms }
    requires within { All (IsWithin vars) clauses.list }
    requires first_in { IsWithin vars first.now }
    ensures none { IfOk result (λ found. found ≡ None → (assignment : List Bool) → IsMixed terms
        fixed.now numbers vars clauses.list atoms assignment → ⊥) }
    ensures some { IfOk result (λ found. IfSome found (IsMixture vars clauses.list)) }
    ensures mixed { IfOk result (λ found. IfSome found (λ m. IsMixed terms fixed.now numbers vars
        clauses.list atoms m.values.items)) }
    ensures modelled { IfOk result (λ found. IfSome found (IsModelled terms fixed.now numbers
        atoms)) }
{
    let theory = procedures(alloc, terms, fixed, numbers, vars as usize)?;
    let solver = Solver::with_clauses(alloc, vars, clauses, atoms, theory)?;
    match last_answer(alloc, vars, solver, first)? {
        None => Ok(None),
        Some((values, (classes, numbers))) => Ok(Some(Mixture {
            values,
            classes,
            numbers,
        })),
    }
}
