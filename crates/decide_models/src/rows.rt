//! The values of functions.

ghost use Rattle.std.specs.Prelude.{◌≡◌, ◌<◌, All, IfOk, length, map};
ghost use Rattle.std.specs.List.{enumerate_from};
ghost use Rattle.decide_models.specs.Columns.{row_at, row_by, size_of_sort, tellers_at};

use crate::places::{short, size_of_sort};
use crate::tellers::tellers_at;
use crate::values::{Source, row_at};
use form_formula::{FunSig, SVal, Signature};
use ground_terms::TermArena;
use sqlite_items::Items;
use std::alloc::{AllocError, Global};

/// What a function has at each element of its source.
fn row_of(
    alloc: Global,
    terms: &TermArena,
    source: Source<'_>,
    told: &[u32],
    h: u32,
    sig: FunSig,
) -> Result<Items<Option<SVal>>, AllocError>
    requires { All (λ id. id < length terms.now) told.now }
    ensures { IfOk result (λ row. row ≡ row_by terms.now source.entry.found.now told.now
        source.entry.all.now source.entry.defaults.now (h, sig)) }
{
    let tellers = tellers_at(alloc, terms, source.found, told, h)?;
    let size = size_of_sort(source.found, source.all, sig.from)?;
    row_at(alloc, source, sig, tellers.as_slice(), size)
}

/// What each function has at each element of its source.
pub(crate) fn rows(
    alloc: Global,
    signature: &Signature,
    terms: &TermArena,
    source: Source<'_>,
    told: &[u32],
) -> Result<Items<Items<Option<SVal>>>, AllocError>
    requires { All (λ id. id < length terms.now) told.now }
    ensures { IfOk result (λ rows. rows ≡ map (row_by terms.now source.entry.found.now told.now
        source.entry.all.now source.entry.defaults.now) (enumerate_from 0 signature.now.funs)) }
{
    let mut rows = Items::new(alloc);
    for (place, sig) in signature.funs.as_slice().iter().enumerate() {
        let row = row_of(alloc, terms, source, told, short(place)?, *sig)?;
        rows.push(row)?;
    }
    Ok(rows)
}
