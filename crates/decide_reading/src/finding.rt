//! What was found, for a structure.

ghost use Rattle.std.specs.Prelude.{◌≡◌, IfOk, length, map, slice_get, unwrap_or};
ghost use Rattle.std.specs.List.{range_with_len};
ghost use Rattle.decide_reading.specs.Columns.{AreFound, entry_by, related_by};

use crate::check::{flag_at, is_related};
use crate::columns::Columns;
use crate::pairs::Pairs;
use decide_models::Found;
use form_formula::SVal;
use ground_problem::PairNode;
use ground_terms::TermArena;
use sqlite_items::Items;
use std::alloc::{AllocError, Global};

/// An equal value, in memory of its own.
fn copy_of(alloc: Global, value: &SVal) -> Result<SVal, AllocError>
    ensures { IfOk result (λ copy. copy ≡ value.now) }
{
    match value {
        SVal::Rec(x) => Ok(SVal::Rec(*x)),
        SVal::Flag(flag) => Ok(SVal::Flag(*flag)),
        SVal::Num(n) => Ok(SVal::Num(*n)),
        SVal::Str(text) => {
            let text = text.copy(alloc)?;
            Ok(SVal::Str(text))
        }
    }
}

/// What a term has where it is there.
fn entry_by(alloc: Global, columns: &Columns, id: u32) -> Result<Option<SVal>, AllocError>
    ensures { IfOk result (λ entry. entry ≡ entry_by columns.now id) }
{
    if !flag_at(&columns.there, id as usize) {
        return Ok(None);
    }
    match columns.values.get(id as usize) {
        Some(value) => {
            let copy = copy_of(alloc, value)?;
            Ok(Some(copy))
        }
        None => Ok(Some(SVal::Flag(false))),
    }
}

/// What each term has where it is there.
#[tactic(auto, using(crate::proofs::Steps::map_range_more))]
fn values_by(
    alloc: Global,
    terms: &TermArena,
    columns: &Columns,
) -> Result<Items<Option<SVal>>, AllocError>
    ensures { IfOk result (λ values. values ≡ map (entry_by columns.now) (range_with_len 0 (length
        terms.now))) }
{
    let mut values = Items::new(alloc);
    for id in 0..terms.len() as u32 {
        let entry = entry_by(alloc, columns, id)?;
        values.push(entry)?;
    }
    Ok(values)
}

/// Whether the set relation of each pair of a list holds.
fn related_by(
    alloc: Global,
    pairs: &Pairs,
    list: &[PairNode],
    columns: &Columns,
) -> Result<Items<bool>, AllocError>
    requires { list.now ≡ pairs.now }
    ensures { IfOk result (λ related. related ≡ related_by pairs.now columns.now) }
{
    let mut related = Items::new(alloc);
    for pair in list {
        related.push(is_related(&columns.related, pairs, *pair))?;
    }
    Ok(related)
}

/// What was found of terms, pairs and sorts, for a structure.
pub fn found_by(
    alloc: Global,
    terms: &TermArena,
    pairs: &Pairs,
    columns: &Columns,
) -> Result<Found, AllocError>
    ensures { IfOk result (AreFound terms.now pairs.now columns.now) }
{
    let related = related_by(alloc, pairs, pairs.as_slice(), columns)?;
    let empty = Items::from_slice(alloc, columns.empty.as_slice())?;
    let values = values_by(alloc, terms, columns)?;
    Ok(Found {
        values,
        related,
        empty,
    })
}
