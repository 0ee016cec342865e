//! Clauses and atoms in memory.

ghost use Rattle.std.specs.Prelude.{◌≡◌, ◌≤◌, ◌<◌, ◌+◌, ◌^◌, ◌++◌, IfOk, OnOk, length, map};
ghost use Rattle.std.specs.List.{range_with_len};
ghost use Rattle.certify_clauses.specs.Listed.{AreTaken};
ghost use Rattle.certify_problem.specs.Problems.{literal_of};
ghost use Rattle.certify_problem.specs.Listing.{IsPadded};

use certify_clauses::{Atom, ListedClauses, Literal};
use ground_gates::Literal as GateLiteral;
use std::alloc::{AllocError, Global};

/// A clause of a certificate.
fn literals_of(alloc: Global, clause: &[GateLiteral]) -> Result<Vec<Literal>, AllocError>
    ensures { IfOk result (λ literals. literals.items ≡ map literal_of clause.now) }
{
    let mut literals = Vec::with_capacity(alloc, clause.len())?;
    for literal in clause {
        literals.push(Literal {
            var: literal.var,
            plus: literal.plus,
        })?;
    }
    Ok(literals)
}

/// Puts clauses at the end of those of a certificate.
fn push_clauses(
    alloc: Global,
    clauses: &[Vec<GateLiteral>],
    all: &mut Vec<Vec<Literal>>,
) -> Result<(), AllocError>
    ensures { OnOk result (map (λ c. c.items) all.new.items ≡ map (λ c. c.items) all.old.items
        ++ map (map literal_of) (map (λ c. c.items) clauses.now)) }
{
    for clause in clauses {
        let literals = literals_of(alloc, clause.as_slice())?;
        all.push(literals)?;
    }
    Ok(())
}

/// The clauses of a certificate: these, and then those of gates.
pub(crate) fn all_clauses(
    alloc: Global,
    clauses: &[Vec<GateLiteral>],
    gates: &[Vec<GateLiteral>],
) -> Result<Vec<Vec<Literal>>, AllocError>
    ensures { IfOk result (λ all. map (λ c. c.items) all.items ≡ map (map literal_of)
        (map (λ c. c.items) clauses.now ++ map (λ c. c.items) gates.now)) }
{
    let mut all = Vec::new(alloc);
    push_clauses(alloc, clauses, &mut all)?;
    push_clauses(alloc, gates, &mut all)?;
    Ok(all)
}

/// Puts variables that say nothing behind others, so that there are so many.
pub(crate) fn pad(count: u32, atoms: &mut Vec<Option<(Atom, Atom)>>) -> Result<(), AllocError>
    requires { length atoms.old.items ≤ count }
    ensures { OnOk result (IsPadded count atoms.old.items atoms.new.items) }
{
    while atoms.len() < count as usize {
        atoms.push(None)?;
    }
    Ok(())
}

/// The numbers from one on, so many. Four thousand million count as memory that is not there.
pub(crate) fn numbers_from(
    alloc: Global,
    first: usize,
    count: usize,
) -> Result<Vec<u32>, AllocError>
    ensures are { IfOk result (λ numbers. numbers.items ≡ range_with_len first count) }
    ensures few { OnOk result (first + count < 2 ^ 32) }
{
    let Some(end) = first.checked_add(count) else {
        return Err(AllocError);
    };
    if end > u32::MAX as usize {
        return Err(AllocError);
    }
    let mut numbers = Vec::with_capacity(alloc, count)?;
    for place in 0..count {
        numbers.push((first + place) as u32)?;
    }
    Ok(numbers)
}

/// Clauses of a certificate, over so many ground terms and texts.
pub(crate) fn listed(
    alloc: Global,
    clauses: Vec<Vec<Literal>>,
    atoms: Vec<Option<(Atom, Atom)>>,
    terms: usize,
    texts: usize,
) -> Result<ListedClauses, AllocError>
    requires few { length atoms.items < 2 ^ 32 }
    requires taken { AreTaken (terms + texts) (terms + 1) atoms.items }
    ensures clauses { IfOk result (λ c. c.clauses.items ≡ clauses.items) }
    ensures atoms { IfOk result (λ c. c.atoms.items ≡ atoms.items) }
    ensures terms { IfOk result (λ c. c.terms ≡ terms + texts) }
    ensures fixed { IfOk result (λ c. c.fixed.items ≡ range_with_len terms texts) }
    ensures numbers { IfOk result (λ c. c.numbers ≡ terms + 1) }
{
    let fixed = numbers_from(alloc, terms, texts)?;
    if terms + texts == u32::MAX as usize {
        return Err(AllocError);
    }
    Ok(ListedClauses {
        clauses,
        atoms,
        terms: terms + texts,
        fixed,
        numbers: terms + 1,
    })
}
