//! Solvers over both theories, and what they answer.

ghost use Rattle.std.specs.Prelude.{◌≡◌, ◌<◌, ◌≤◌, ◌+◌, length, All, IfOk, OnOk, IsTrue};
ghost use Rattle.solve_equality.specs.Equality.{takes_literal};
ghost use Rattle.solve_theory.specs.Pair.{takes_own};
ghost use Rattle.solve_order.specs.Difference.{is_literal};
ghost use Rattle.solve_solver.specs.Clauses.{IsWithin};
ghost use Rattle.solve_solver.specs.ContextView.{IsTaken};

use solve_equality::{Equality, EqualityLit};
use solve_order::{Diff, Order};
use solve_solver::{Answer, PLit, Solver};
use solve_theory::{Pair, PairLit, Theory};
use std::alloc::{AllocError, Global};
use std::process::Abort;

/// Equality of terms beside differences of numbers.
pub type Mixed = Pair<Equality, Order>;

/// A literal of either.
pub type MixedLit = PairLit<EqualityLit, Diff>;

/// The value of each variable, and a model.
pub type Found = (Vec<bool>, <Mixed as Theory>::Model);

/// The atom `x - y <= c` over three numbers, of which number 0 is zero.
#[derive(Drop)]
pub struct Difference {
    pub x: u32,
    pub y: u32,
    pub c: i32,
    ghost x_within: { x < 3 },
    ghost y_within: { y < 3 },
}

impl Difference {
    /// Its literals: `x - y <= c`, and `y - x <= -c - 1`.
    pub fn atom(&self) -> (MixedLit, MixedLit)
        ensures when_true { IsTrue (takes_own (takes_literal 3) (is_literal 3) result.0) }
        ensures when_false { IsTrue (takes_own (takes_literal 3) (is_literal 3) result.1) }
    {
        let c = i128::from(self.c);
        let holds = Diff {
            x: self.x,
            y: self.y,
            c,
        };
        let fails = Diff {
            x: self.y,
            y: self.x,
            c: -c - 1,
        };
        (PairLit::Right(holds), PairLit::Right(fails))
    }
}

/// The literals of the equality of two of three terms.
fn equality_atom(left: u32, right: u32) -> (MixedLit, MixedLit)
    requires left { left < 3 }
    requires right { right < 3 }
    ensures when_true { IsTrue (takes_own (takes_literal 3) (is_literal 3) result.0) }
    ensures when_false { IsTrue (takes_own (takes_literal 3) (is_literal 3) result.1) }
{
    let same = EqualityLit::Same(left, right);
    let differ = EqualityLit::Differ(left, right);
    (PairLit::Left(same), PairLit::Left(differ))
}

/// The atoms of plain variables: none.
fn no_atoms(alloc: Global, count: u32) -> Result<Vec<Option<(MixedLit, MixedLit)>>, AllocError>
    ensures one_each { IfOk result (λ atoms. length atoms.items ≡ count) }
    ensures taken { IfOk result (λ atoms. All (IsTaken (takes_own (takes_literal 3)
        (is_literal 3))) atoms.items) }
{
    vec![in alloc; None; count as usize]
}

/// Puts one atom more after the others.
fn push_atom(
    atoms: &mut Vec<Option<(MixedLit, MixedLit)>>,
    atom: (MixedLit, MixedLit),
) -> Result<(), AllocError>
    requires taken { All (IsTaken (takes_own (takes_literal 3) (is_literal 3))) atoms.old.items }
    requires when_true { IsTrue (takes_own (takes_literal 3) (is_literal 3) atom.0) }
    requires when_false { IsTrue (takes_own (takes_literal 3) (is_literal 3) atom.1) }
    ensures one_more { OnOk result (length atoms.new.items ≡ length atoms.old.items + 1) }
    ensures taken { OnOk result (All (IsTaken (takes_own (takes_literal 3)
        (is_literal 3))) atoms.new.items) }
{
    atoms.push(Some(atom))?;
    Ok(())
}

/// The atoms of plain variables, of the equalities of three terms, and of the differences.
fn atoms(
    alloc: Global,
    plain: u32,
    differences: &[Difference],
) -> Result<Vec<Option<(MixedLit, MixedLit)>>, AllocError>
    ensures one_each { IfOk result (λ atoms. length atoms.items
        ≡ plain + 3 + length differences.now) }
    ensures taken { IfOk result (λ atoms. All (IsTaken (takes_own (takes_literal 3)
        (is_literal 3))) atoms.items) }
{
    let mut atoms = no_atoms(alloc, plain)?;
    push_atom(&mut atoms, equality_atom(0, 1))?;
    push_atom(&mut atoms, equality_atom(1, 2))?;
    push_atom(&mut atoms, equality_atom(0, 2))?;
    for difference in differences {
        push_atom(&mut atoms, difference.atom())?;
    }
    Ok(atoms)
}

/// A solver for clauses over plain variables, the equalities of three terms, and the differences.
pub fn mixed_solver(
    rt: &impl Abort,
    alloc: Global,
    plain: u32,
    differences: &[Difference],
    clauses: &[Vec<PLit>],
) -> Result<Solver<Mixed>, AllocError>
    requires plain { plain < 100 }
    requires differences { length differences.now < 100 }
    requires within { All (λ c. IsWithin (plain + 3 + length differences.now) c.items) clauses.now }
    ensures vars { IfOk result (λ s. s.vars ≡ plain + 3 + length differences.now) }
{
    assert!(rt; clauses.len() < 1000);
    let vars = plain + 3 + differences.len() as u32;
    let terms = Equality::new(alloc, 3, &[], vars as usize)?;
    let numbers = Order::new(alloc, 3, vars as usize)?;
    let theory = Pair::new(alloc, terms, numbers, vars as usize)?;
    let atoms = atoms(alloc, plain, differences)?;
    Solver::new(alloc, vars, clauses, atoms, theory)
}

/// What a solver finds: the value of each variable and a model, or that there is none.
fn answer<T: Theory>(
    alloc: Global,
    vars: u32,
    solver: &mut Solver<T>,
) -> Result<Option<(Vec<bool>, T::Model)>, AllocError>
    requires { solver.old.vars ≡ vars }
{
    match solver.search() {
        Answer::Unsat => Ok(None),
        Answer::Sat => {
            let mut values = Vec::new(alloc);
            for var in 0..vars {
                values.push(solver.value_of(PLit { var, plus: true }))?;
            }
            let model = solver.theory().model()?;
            Ok(Some((values, model)))
        }
    }
}

/// A clause of literals written as variables counted from 1, negative where they are to be false.
fn clause_of(
    rt: &impl Abort,
    alloc: Global,
    vars: u32,
    signed: &[i32],
) -> Result<Vec<PLit>, AllocError>
    ensures { IfOk result (λ c. IsWithin vars c.items) }
{
    let mut clause = Vec::new(alloc);
    for number in signed {
        let number = *number;
        let plus = number > 0;
        let magnitude = number.unsigned_abs();
        assert!(rt; magnitude > 0);
        let var = magnitude - 1;
        assert!(rt; var < vars);
        clause.push(PLit { var, plus })?;
    }
    Ok(clause)
}

/// Such clauses.
pub fn clauses_of(
    rt: &impl Abort,
    alloc: Global,
    vars: u32,
    signed: &[&[i32]],
) -> Result<Vec<Vec<PLit>>, AllocError>
    ensures { IfOk result (λ cs. All (λ c. IsWithin vars c.items) cs.items) }
{
    let mut clauses = Vec::new(alloc);
    for numbers in signed {
        clauses.push(clause_of(rt, alloc, vars, numbers)?)?;
    }
    Ok(clauses)
}

/// The same of a solver that is done with. It is dropped by a call, since a drop where a scope
/// ends, or at a `?`, is proved anew for each vector in it.
pub fn last_answer(
    alloc: Global,
    vars: u32,
    mut solver: Solver<Mixed>,
) -> Result<Option<Found>, AllocError>
    requires { solver.vars ≡ vars }
{
    let found = answer(alloc, vars, &mut solver);
    drop(solver);
    found
}
