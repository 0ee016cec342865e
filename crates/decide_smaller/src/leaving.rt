//! Elements are left out as long as the formula stays true.

ghost use Rattle.std.specs.Prelude.{◌≡◌, IfOk, IfSome};
ghost use Rattle.form_formula.specs.Nodes.{IsFormula, formula_of};
ghost use Rattle.form_terms.specs.Satisfying.{SatisfiesWith};

use crate::fitting::{fits, size_of};
use crate::picking::picks_on;
use crate::without::Gone;
use crate::work::{cells_of, steps_of};
use form_formula::{Arena, Signature, Structure};
use sqlite_items::Items;
use std::alloc::{AllocError, Global};

/// How many steps and copies all evaluations may take together.
const MOST_WORK: u64 = 2_000_000;

/// How often each element is tried: one may be needed until another is left out.
const ROUNDS: u32 = 3;

/// A structure, and the elements of a formula's first variables.
type Witness = (Structure, Items<u32>);

/// The structure with elements for the formula, if it is one over the signature and the formula is
/// true on it.
fn try_structure(
    alloc: Global,
    signature: &Signature,
    arena: &Arena,
    id: u32,
    structure: Structure,
) -> Result<Option<Witness>, AllocError>
    requires { IsFormula arena.now id }
    ensures { IfOk result (λ found. IfSome found (λ s.
        SatisfiesWith signature.now (formula_of arena.now id) s.0 s.1)) }
{
    if !fits(&structure, signature) {
        return Ok(None);
    }
    match picks_on(alloc, &structure, arena, id)? {
        Some(picks) => Ok(Some((structure, picks))),
        None => Ok(None),
    }
}

// Six beside the allocator: a formula, what was found, the sort, and how much may be tried.
/// Leaves out elements of a sort, as often as that may be tried.
fn smaller_sort(
    alloc: Global,
    signature: &Signature,
    arena: &Arena,
    id: u32,
    found: Witness,
    sort: u32,
    tries: &mut u64,
) -> Result<Witness, AllocError>
    requires formula { IsFormula arena.now id }
    requires found { SatisfiesWith signature.now (formula_of arena.now id) found.0 found.1 }
    ensures { IfOk result (λ s. SatisfiesWith signature.now (formula_of arena.now id) s.0 s.1) }
{
    let mut best = found;
    let mut element = size_of(&best.0, sort);
    while element > 0 && *tries > 0 {
        element -= 1;
        *tries -= 1;
        let gone = Gone { sort, element };
        let less = gone.structure(alloc, signature, &best.0)?;
        if let Some(better) = try_structure(alloc, signature, arena, id, less)? {
            best = better;
        }
    }
    Ok(best)
}

/// Leaves out elements of each sort once.
fn smaller_sorts(
    alloc: Global,
    signature: &Signature,
    arena: &Arena,
    id: u32,
    found: Witness,
    tries: &mut u64,
) -> Result<Witness, AllocError>
    requires formula { IsFormula arena.now id }
    requires found { SatisfiesWith signature.now (formula_of arena.now id) found.0 found.1 }
    ensures { IfOk result (λ s. SatisfiesWith signature.now (formula_of arena.now id) s.0 s.1) }
{
    let mut best = found;
    for sort in 0..signature.sorts {
        best = smaller_sort(alloc, signature, arena, id, best, sort, &mut *tries)?;
    }
    Ok(best)
}

/// A structure with fewer elements on which the formula is true, and elements for the `exists` that
/// it begins with: of each sort, from the last, an element is left out if the formula stays true
/// without it. What had it has the first element of its sort, or nothing if that may be. Where
/// that would take long, fewer elements are tried, or none.
pub fn smaller(
    alloc: Global,
    signature: &Signature,
    arena: &Arena,
    id: u32,
    structure: Structure,
    picks: Items<u32>,
) -> Result<(Structure, Items<u32>), AllocError>
    requires formula { IsFormula arena.now id }
    requires found { SatisfiesWith signature.now (formula_of arena.now id) structure picks }
    ensures { IfOk result (λ s. SatisfiesWith signature.now (formula_of arena.now id) s.0 s.1) }
{
    let steps = steps_of(alloc, &structure, arena, id)?;
    let cost = steps.saturating_add(cells_of(&structure)).saturating_add(1);
    let mut tries = MOST_WORK / cost;
    let mut best = (structure, picks);
    for _ in 0..ROUNDS {
        best = smaller_sorts(alloc, signature, arena, id, best, &mut tries)?;
    }
    Ok(best)
}
