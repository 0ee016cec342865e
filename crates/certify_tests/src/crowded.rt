//! More things than places: clauses that nothing meets, and a lawful part for them.

use certify_clauses::{ListedClauses, Literal};
use certify_recheck::Line;
use certify_recheck::Line::{Clause, Duty, Split};
use std::alloc::{AllocError, Global};

/// Four things and three places. Variable `3 t + p` says that thing t is at place p.
pub(crate) const VARS: u32 = 12;

/// Each thing has a place, and no place has two things. A clause is of literals: `v + 1` where
/// variable v is to be true, and `-(v + 1)` where it is to be false.
pub(crate) const CLAUSES: [&[i32]; 22] = [
    &[1, 2, 3],
    &[4, 5, 6],
    &[7, 8, 9],
    &[10, 11, 12],
    &[-1, -4],
    &[-1, -7],
    &[-4, -7],
    &[-1, -10],
    &[-4, -10],
    &[-7, -10],
    &[-2, -5],
    &[-2, -8],
    &[-5, -8],
    &[-2, -11],
    &[-5, -11],
    &[-8, -11],
    &[-3, -6],
    &[-3, -9],
    &[-6, -9],
    &[-3, -12],
    &[-6, -12],
    &[-9, -12],
];

/// A lawful part.
pub(crate) const PART: [Line; 86] = [
    Duty(1),
    Split(0),
    Split(3),
    Clause(4),
    Split(6),
    Clause(5),
    Split(9),
    Clause(7),
    Split(4),
    Split(7),
    Clause(12),
    Split(8),
    Split(10),
    Clause(14),
    Split(11),
    Clause(21),
    Clause(3),
    Clause(2),
    Split(5),
    Split(8),
    Clause(18),
    Split(7),
    Split(10),
    Clause(15),
    Split(11),
    Clause(20),
    Clause(3),
    Clause(2),
    Clause(1),
    Split(1),
    Split(4),
    Clause(10),
    Split(7),
    Clause(11),
    Split(10),
    Clause(13),
    Split(3),
    Split(6),
    Clause(6),
    Split(8),
    Split(9),
    Clause(8),
    Split(11),
    Clause(21),
    Clause(3),
    Clause(2),
    Split(5),
    Split(8),
    Clause(18),
    Split(6),
    Split(9),
    Clause(9),
    Split(11),
    Clause(20),
    Clause(3),
    Clause(2),
    Clause(1),
    Split(2),
    Split(5),
    Clause(16),
    Split(8),
    Clause(17),
    Split(11),
    Clause(19),
    Split(3),
    Split(6),
    Clause(6),
    Split(7),
    Split(9),
    Clause(8),
    Split(10),
    Clause(15),
    Clause(3),
    Clause(2),
    Split(4),
    Split(7),
    Clause(12),
    Split(6),
    Split(9),
    Clause(9),
    Split(10),
    Clause(14),
    Clause(3),
    Clause(2),
    Clause(1),
    Clause(0),
];

/// The literal as one of certificates.
fn literal_of(number: i32) -> Literal {
    Literal {
        var: number.unsigned_abs().saturating_sub(1),
        plus: number > 0,
    }
}

/// The clause as one of certificates.
fn clause_of(alloc: Global, numbers: &[i32]) -> Result<Vec<Literal>, AllocError> {
    let mut clause = Vec::new(alloc);
    for number in numbers {
        clause.push(literal_of(*number))?;
    }
    Ok(clause)
}

pub(crate) fn crowded(alloc: Global) -> Result<ListedClauses, AllocError> {
    let mut clauses = Vec::new(alloc);
    for numbers in CLAUSES.iter() {
        clauses.push(clause_of(alloc, numbers)?)?;
    }
    Ok(ListedClauses {
        clauses,
        atoms: vec![in alloc; None; VARS as usize]?,
        terms: 0,
        fixed: Vec::new(alloc),
        numbers: 1,
    })
}
