//! Two small sets of clauses, and a lawful part for each.
ghost use Rattle.std.specs.Prelude.{◌<◌, IsTrue};
ghost use Rattle.certify_clauses.specs.Listed.{is_taken};

use certify_clauses::{Atom, ListedClauses, Literal};
use solve_equality::EqualityLit;
use solve_order::Diff;
use solve_theory::PairLit;
use std::alloc::{AllocError, Global};

/// Each clause of two literals over two variables.
pub(crate) const PLAIN: [&str; 8] = [
    "duty 1", "split 0", "split 1", "clause 3", "clause 2", "split 1", "clause 1", "clause 0",
];

/// Three terms of which the first is the second and that is the third, and that the first is the
/// third or two numbers are each below the other.
pub(crate) const MIXED: [&str; 12] = [
    "duty 7", "split 0", "split 1", "split 2", "split 3", "split 4", "theory", "clause 3",
    "clause 2", "theory", "clause 1", "clause 0",
];

/// A clause: its variables, each with whether it is to be true.
fn clause(alloc: Global, literals: &[(u32, bool)]) -> Result<Vec<Literal>, AllocError> {
    let mut clause = Vec::new(alloc);
    for (var, plus) in literals {
        clause.push(Literal {
            var: *var,
            plus: *plus,
        })?;
    }
    Ok(clause)
}

fn plain_clauses(alloc: Global) -> Result<Vec<Vec<Literal>>, AllocError> {
    let mut clauses = Vec::new(alloc);
    clauses.push(clause(alloc, &[(0, true), (1, true)])?)?;
    clauses.push(clause(alloc, &[(0, true), (1, false)])?)?;
    clauses.push(clause(alloc, &[(0, false), (1, true)])?)?;
    clauses.push(clause(alloc, &[(0, false), (1, false)])?)?;
    Ok(clauses)
}

pub(crate) fn plain(alloc: Global) -> Result<ListedClauses, AllocError> {
    let atoms = vec![in alloc; None, None]?;
    Ok(ListedClauses {
        clauses: plain_clauses(alloc)?,
        atoms,
        terms: 0,
        fixed: Vec::new(alloc),
        numbers: 1,
    })
}

fn mixed_clauses(alloc: Global) -> Result<Vec<Vec<Literal>>, AllocError> {
    let mut clauses = Vec::new(alloc);
    clauses.push(clause(alloc, &[(0, true)])?)?;
    clauses.push(clause(alloc, &[(1, true)])?)?;
    clauses.push(clause(alloc, &[(2, false), (3, true)])?)?;
    clauses.push(clause(alloc, &[(2, false), (4, true)])?)?;
    Ok(clauses)
}

/// Two terms are the same.
fn same(left: u32, right: u32) -> Option<(Atom, Atom)>
    requires left_in { left < 3 }
    requires right_in { right < 3 }
    ensures { IsTrue (is_taken 3 3 result) }
{
    Some((
        PairLit::Left(EqualityLit::Same(left, right)),
        PairLit::Left(EqualityLit::Differ(left, right)),
    ))
}

/// A number is below another one.
fn below(x: u32, y: u32) -> Option<(Atom, Atom)>
    requires left_in { x < 3 }
    requires right_in { y < 3 }
    ensures { IsTrue (is_taken 3 3 result) }
{
    Some((
        PairLit::Right(Diff { x, y, c: -1 }),
        PairLit::Right(Diff { x: y, y: x, c: 0 }),
    ))
}

pub(crate) fn mixed(alloc: Global) -> Result<ListedClauses, AllocError> {
    let atoms = vec![in alloc;
        same(0, 1),
        same(1, 2),
        same(0, 2),
        below(1, 2),
        below(2, 1),
    ]?;
    Ok(ListedClauses {
        clauses: mixed_clauses(alloc)?,
        atoms,
        terms: 3,
        fixed: Vec::new(alloc),
        numbers: 3,
    })
}
