//! All rounds of applying.

ghost use Rattle.std.specs.Prelude.{IfOk};
ghost use Rattle.ground_terms.specs.Applying.{round_terms};
ghost use Rattle.ground_terms.specs.Standing.{terms_at, AreOnes, AreTermsAt};

use crate::TermArena;
use crate::part::Part;
use crate::round::next_round;
use form_formula::Signature;
use std::alloc::{AllocError, Global};

/// What is applied, and to which terms at first.
#[derive(Clone, Copy)]
pub(crate) struct Start<'a> {
    pub(crate) parts: &'a [Part],
    /// The functions that are applied.
    pub(crate) functions: &'a [u32],
    /// The first terms whose outermost function is none of these.
    pub(crate) plain: &'a [u32],
}

/// The terms after so many rounds of applying. Where a round gives what it began with, no later one
/// gives more.
pub(crate) fn all_rounds(
    alloc: Global,
    signature: &Signature,
    terms: &mut TermArena,
    start: Start<'_>,
    first: Vec<u32>,
    rounds: u32,
) -> Result<Vec<u32>, AllocError>
    requires plain { AreOnes terms.old start.plain.now }
    requires first { AreOnes terms.old first.items }
    ensures { IfOk result (λ last. AreTermsAt terms.new last.items (round_terms signature.now
        start.entry.functions.now start.entry.parts.now (terms_at terms.old start.entry.plain.now)
        (terms_at terms.old first.items) rounds)) }
{
    let mut current = first;
    'rounds: for round in 0..rounds {
        let next = next_round(
            alloc,
            signature,
            terms,
            start.parts,
            start.functions,
            start.plain,
            current.as_slice(),
        )?;
        if next == current {
            return Ok(current);
        }
        current = next;
    }
    Ok(current)
}
