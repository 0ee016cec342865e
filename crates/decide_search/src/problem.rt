//! Clauses for the solver.

ghost use Rattle.std.specs.Prelude.{◌≡◌, ◌++◌, IfOk, OnOk, map};
ghost use Rattle.decide_search.specs.Problem.{plit_of};

use ground_gates::Literal;
use solve_solver::{Clauses, PLit};
use std::alloc::{AllocError, Global};

/// A clause for the solver.
fn plits_of(alloc: Global, clause: &[Literal]) -> Result<Vec<PLit>, AllocError>
    ensures { IfOk result (λ plits. plits.items ≡ map plit_of clause.now) }
{
    let mut plits = Vec::with_capacity(alloc, clause.len())?;
    for literal in clause {
        plits.push(PLit {
            var: literal.var,
            plus: literal.plus,
        })?;
    }
    Ok(plits)
}

/// Puts clauses at the end of those for the solver.
pub(crate) fn push_clauses(
    alloc: Global,
    clauses: &[Vec<Literal>],
    all: &mut Clauses,
) -> Result<(), AllocError>
    ensures { OnOk result (all.new.list ≡ all.old.list ++ map (map plit_of) (map (λ c. c.items)
        clauses.now)) }
{
    for clause in clauses {
        let plits = plits_of(alloc, clause.as_slice())?;
        all.push(plits.as_slice())?;
    }
    Ok(())
}

/// Puts copies of clauses at the end.
pub(crate) fn push_copies(clauses: &[Vec<PLit>], all: &mut Clauses) -> Result<(), AllocError>
    ensures { OnOk result (all.new.list ≡ all.old.list ++ map (λ c. c.items) clauses.now) }
{
    for clause in clauses {
        all.push(clause.as_slice())?;
    }
    Ok(())
}
