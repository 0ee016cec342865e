//! Small cases, each named by what it shows.

ghost use Rattle.std.specs.Prelude.{◌≡◌, ◌<◌, ◌+◌, [], length, map, All, IfOk, OnOk};
ghost use Rattle.solve_solver.specs.Clauses.{IsWithin};
ghost use Rattle.solve_solver.specs.declared.limits.TheConstants.{TOO_MANY};

use solve_equality::{Equality, EqualityLit};
use solve_solver::{Answer, PLit, Prop, Solver};
use solve_theory::Theory;
use std::alloc::{AllocError, Global};
use std::process::Abort;
use std::test::Fail;

// The first two variables and their opposites, as literals.
const FIRST: PLit = PLit { var: 0, plus: true };

const NOT_FIRST: PLit = PLit {
    var: 0,
    plus: false,
};

const THIRD: PLit = PLit { var: 2, plus: true };

const NOT_THIRD: PLit = PLit {
    var: 2,
    plus: false,
};

const SECOND: PLit = PLit { var: 1, plus: true };

const NOT_SECOND: PLit = PLit {
    var: 1,
    plus: false,
};

/// A solver for clauses over variables that are no atoms.
fn plain_solver(
    rt: &impl Abort,
    alloc: Global,
    vars: u32,
    clauses: &[Vec<PLit>],
) -> Result<Solver<Equality>, AllocError>
    requires vars { vars < 1000 }
    requires within { All (λ c. IsWithin vars c.items) clauses.now }
    ensures vars { IfOk result (λ s. s.vars ≡ vars) }
    ensures clauses { IfOk result (λ s. s.clauses ≡ map (λ c. c.items) clauses.now) }
{
    assert!(rt; clauses.len() < 1000);
    let atoms = vec![in alloc; None; vars as usize]?;
    let theory = Equality::new(alloc, 1, &[], vars as usize)?;
    Solver::new(alloc, vars, clauses, atoms, theory)
}

/// A solver of no clauses over a plain variable and the equality of two terms that are fixed.
fn fixed_solver(alloc: Global) -> Result<Solver<Equality>, AllocError>
    ensures vars { IfOk result (λ s. s.vars ≡ 2) }
    ensures clauses { IfOk result (λ s. s.clauses ≡ []) }
{
    let atom = Some((EqualityLit::Same(0, 1), EqualityLit::Differ(0, 1)));
    let atoms = [None, atom].to_vec(alloc)?;
    let theory = Equality::new(alloc, 2, &[0, 1], 2)?;
    Solver::new(alloc, 2, &[], atoms, theory)
}

/// What the solver answers. The solver is dropped by a call, since a drop where a scope ends is
/// proved anew for each vector in it.
fn answer(mut solver: Solver<Equality>) -> Answer {
    let answer = solver.search();
    drop(solver);
    answer
}

/// Adds each clause.
fn add_each<T: Theory>(solver: &mut Solver<T>, clauses: &[&[PLit]]) -> Result<(), AllocError>
    requires within { All (λ c. IsWithin solver.old.vars c.now) clauses.now }
    requires few { length solver.old.clauses + length clauses.now < TOO_MANY }
    ensures vars { solver.new.vars ≡ solver.old.vars }
    ensures count { OnOk result (length solver.new.clauses
        ≡ length solver.old.clauses + length clauses.now) }
{
    for clause in clauses {
        solver.add_clause(clause)?;
    }
    Ok(())
}

/// What the solver answers once it has some more clauses. It is given away before the first `?`,
/// which would drop it where it stands.
fn answer_with(mut solver: Solver<Equality>, clauses: &[&[PLit]]) -> Result<Answer, AllocError>
    requires within { All (λ c. IsWithin solver.vars c.now) clauses.now }
    requires few { length solver.clauses + length clauses.now < TOO_MANY }
{
    let added = add_each(&mut solver, clauses);
    let answer = answer(solver);
    added?;
    Ok(answer)
}

/// The value of a literal where the solver finds an assignment.
fn value_found<T: Theory>(solver: &mut Solver<T>, literal: PLit) -> Option<bool>
    requires { literal.var < solver.old.vars }
    ensures vars { solver.new.vars ≡ solver.old.vars }
    ensures clauses { solver.new.clauses ≡ solver.old.clauses }
{
    match solver.search() {
        Answer::Sat => Some(solver.value_of(literal)),
        Answer::Unsat => None,
    }
}

/// Adds some clauses and then the empty one, and gives the value of a literal between.
fn value_before_the_empty_clause<T: Theory>(
    solver: &mut Solver<T>,
    clauses: &[&[PLit]],
    literal: PLit,
) -> Result<Option<bool>, AllocError>
    requires within { All (λ c. IsWithin solver.old.vars c.now) clauses.now }
    requires few { length solver.old.clauses + length clauses.now < 1000 }
    requires variable { literal.var < solver.old.vars }
{
    add_each(solver, clauses)?;
    let value = value_found(solver, literal);
    solver.add_clause(&[])?;
    Ok(value)
}

#[test]
fn no_clauses_are_met(rt: HostRuntime) -> Result<(), Fail> {
    let solver = plain_solver(&rt, rt.alloc(), 0, &[])?;
    assert_eq!(rt; answer(solver), Answer::Sat);
    Ok(())
}

#[test]
fn a_literal_and_its_opposite_are_not_met(rt: HostRuntime) -> Result<(), Fail> {
    let clauses: [&[PLit]; 2] = [&[FIRST], &[NOT_FIRST]];
    let solver = plain_solver(&rt, rt.alloc(), 1, &[])?;
    let answer = answer_with(solver, clauses.as_slice())?;
    assert_eq!(rt; answer, Answer::Unsat);
    Ok(())
}

#[test]
fn an_atom_of_terms_that_are_fixed_is_false(rt: HostRuntime) -> Result<(), Fail> {
    let clauses: [&[PLit]; 2] = [&[FIRST, SECOND], &[NOT_FIRST, SECOND]];
    let solver = fixed_solver(rt.alloc())?;
    let answer = answer_with(solver, clauses.as_slice())?;
    assert_eq!(rt; answer, Answer::Unsat);
    Ok(())
}

#[test]
fn the_empty_clause_is_not_met_after_an_assignment_was(rt: HostRuntime) -> Result<(), Fail> {
    let clauses: [&[PLit]; 2] = [&[FIRST, NOT_SECOND], &[NOT_FIRST]];
    let mut solver = plain_solver(&rt, rt.alloc(), 2, &[])?;
    let value = value_before_the_empty_clause(&mut solver, clauses.as_slice(), NOT_SECOND);
    let answer = answer(solver);
    assert_eq!(rt; value?, Some(true));
    assert_eq!(rt; answer, Answer::Unsat);
    Ok(())
}

/// Assumes a literal that is not set, and sets what follows.
fn propagated<T: Theory>(solver: &mut Solver<T>, literal: PLit) -> Prop
    requires { literal.var < solver.old.vars }
    ensures { solver.new.vars ≡ solver.old.vars }
{
    if solver.set_value(literal.var).is_none() {
        solver.assume(literal);
    }
    solver.propagate()
}

/// Where propagation ends once the first variable is assumed to be false, and the values of the
/// first three then.
fn values_propagated(
    mut solver: Solver<Equality>,
    clauses: &[&[PLit]],
) -> Result<(Prop, [Option<bool>; 3]), AllocError>
    requires vars { solver.vars ≡ 3 }
    requires within { All (λ c. IsWithin solver.vars c.now) clauses.now }
    requires few { length solver.clauses + length clauses.now < 1000 }
{
    let added = add_each(&mut solver, clauses);
    let end = propagated(&mut solver, NOT_FIRST);
    let values = [
        solver.set_value(0),
        solver.set_value(1),
        solver.set_value(2),
    ];
    drop(solver);
    added?;
    Ok((end, values))
}

#[test]
fn what_follows_from_an_assumption_is_set(rt: HostRuntime) -> Result<(), Fail> {
    let clauses: [&[PLit]; 2] = [&[FIRST, SECOND], &[NOT_SECOND, THIRD]];
    let solver = plain_solver(&rt, rt.alloc(), 3, &[])?;
    let (end, values) = values_propagated(solver, clauses.as_slice())?;
    assert_eq!(rt; end, Prop::Quiet);
    assert_eq!(rt; values, [Some(false), Some(true), Some(true)]);
    Ok(())
}

#[test]
fn a_clause_that_no_value_can_meet_is_named(rt: HostRuntime) -> Result<(), Fail> {
    let clauses: [&[PLit]; 3] = [&[FIRST, SECOND], &[NOT_SECOND, THIRD], &[NOT_THIRD, FIRST]];
    let solver = plain_solver(&rt, rt.alloc(), 3, &[])?;
    let (end, values) = values_propagated(solver, clauses.as_slice())?;
    let expected = match end {
        Prop::Clash(0) => [Some(false), Some(false), Some(false)],
        Prop::Clash(1) => [Some(false), Some(true), Some(false)],
        _ => [Some(false), Some(true), Some(true)],
    };
    assert!(rt; end != Prop::Quiet);
    assert_eq!(rt; values, expected);
    Ok(())
}
