//! The structure of what was found.

ghost use Rattle.std.specs.Prelude.{◌≡◌, ◌<◌, ◌++◌, All, IfOk, length};
ghost use Rattle.decide_models.specs.Columns.{structure_from};

use crate::found::Found;
use crate::places::{default_list, short, size_list};
use crate::relations::relations;
use crate::rows::rows;
use crate::values::Source;
use form_formula::{Signature, Structure};
use ground_problem::Words;
use ground_terms::TermArena;
use sqlite_items::Items;
use std::alloc::{AllocError, Global};

/// All terms of which something is told: those that name elements first.
fn told_terms(alloc: Global, words: &Words) -> Result<Vec<u32>, AllocError>
    ensures { IfOk result (λ told. told.items ≡ words.now.named.items ++ words.now.others.items) }
{
    let mut told = Vec::from_slice(alloc, words.named.as_slice())?;
    told.extend_from_slice(words.others.as_slice())?;
    Ok(told)
}

// Six beside the allocator: what was found of which terms, and the two lists made of it.
/// The structure of what was found, where the terms of each sort have these numbers and name these
/// elements.
pub(crate) fn structure_from(
    alloc: Global,
    signature: &Signature,
    terms: &TermArena,
    found: &Found,
    words: &Words,
    all: &Items<Items<u32>>,
    elements: &Items<Option<u32>>,
) -> Result<Structure, AllocError>
    requires { All (λ id. id < length terms.now) (words.now.named.items ++ words.now.others.items) }
    ensures { IfOk result (λ structure. structure ≡ structure_from signature.now terms.now found.now
        words.now all.now elements.now) }
{
    let told = told_terms(alloc, words)?;
    let defaults = default_list(alloc, signature, terms, elements)?;
    let source = Source {
        found,
        all,
        defaults: &defaults,
    };
    let sizes = size_list(alloc, signature, found, all)?;
    let funs = rows(alloc, signature, terms, source, told.as_slice())?;
    let count = short(signature.sets.len())?;
    let sets = relations(alloc, found, elements, words.pairs.as_slice(), count)?;
    Ok(Structure { sizes, funs, sets })
}
