//! What functions have at elements.

ghost use Rattle.std.specs.Prelude.{◌≡◌, ◌==◌, None, IfOk, slice_get, unwrap_or};
ghost use Rattle.std.specs.List.{find};
ghost use Rattle.std.specs.Option.{option_map};
ghost use Rattle.decide_models.specs.Columns.{blank_value, classes_of, entry_at, moved_value, row_at};

use crate::found::Found;
use crate::places::{classes_of, place_in};
use crate::tellers::Teller;
use form_formula::{FunSig, Range, SVal};
use sqlite_items::Items;
use std::alloc::{AllocError, Global};
use text_ast::Txt;

/// What functions have, by what was found, the numbers of the elements of each sort, and the
/// defaults of the sorts.
#[derive(Clone, Copy)]
pub(crate) struct Source<'a> {
    pub(crate) found: &'a Found,
    pub(crate) all: &'a Items<Items<u32>>,
    pub(crate) defaults: &'a Items<u32>,
}

/// An element gets its place, and another value stays.
fn moved_value(
    alloc: Global,
    all: &Items<Items<u32>>,
    range: Range,
    value: &SVal,
) -> Result<SVal, AllocError>
    ensures { IfOk result (λ moved. moved ≡ moved_value all.now range value.now) }
{
    match value {
        SVal::Rec(class) => match range {
            Range::Rec(sort) => {
                let place = place_in(all, sort, *class)?;
                Ok(SVal::Rec(place))
            }
            Range::Flag | Range::Num | Range::Str => Ok(SVal::Rec(*class)),
        },
        SVal::Flag(flag) => Ok(SVal::Flag(*flag)),
        SVal::Num(number) => Ok(SVal::Num(*number)),
        SVal::Str(text) => {
            let text = text.copy(alloc)?;
            Ok(SVal::Str(text))
        }
    }
}

/// The default of a sort.
fn default_of(defaults: &Items<u32>, sort: u32) -> u32
    ensures { result ≡ unwrap_or (slice_get defaults.now sort) 0 }
{
    match defaults.get(sort as usize) {
        Some(element) => *element,
        None => 0,
    }
}

/// What a total function has where nothing is told.
fn blank_value(alloc: Global, defaults: &Items<u32>, range: Range) -> SVal
    ensures { result ≡ blank_value defaults.now range }
{
    match range {
        Range::Rec(sort) => SVal::Rec(default_of(defaults, sort)),
        Range::Flag => SVal::Flag(false),
        Range::Num => SVal::Num(0),
        Range::Str => SVal::Str(Txt::of(Vec::new(alloc))),
    }
}

/// The first of the terms that tell of a function at an element of this number.
fn teller_at(tellers: &[Teller], class: u32) -> Option<u32>
    ensures { result ≡ option_map (λ t. t.term) (find (λ t. t.class == class) tellers.now) }
{
    for teller in tellers {
        if teller.class == class {
            return Some(teller.term);
        }
    }
    None
}

/// The number of an element, or 0 where it has none.
fn class_of_element(all: &Items<Items<u32>>, sort: u32, element: u32) -> u32
    ensures { result ≡ unwrap_or (slice_get (classes_of all.now sort) element) 0 }
{
    match classes_of(all, sort).get(element as usize) {
        Some(class) => *class,
        None => 0,
    }
}

/// What a function has that a term tells.
fn told_by(
    alloc: Global,
    source: Source<'_>,
    range: Range,
    term: u32,
) -> Result<Option<SVal>, AllocError>
    ensures { IfOk result (λ value. value ≡ option_map (moved_value source.entry.all.now range)
        (unwrap_or (slice_get source.entry.found.now.values term) None)) }
{
    match source.found.values.get(term as usize) {
        Some(Some(value)) => {
            let moved = moved_value(alloc, source.all, range, value)?;
            Ok(Some(moved))
        }
        Some(None) | None => Ok(None),
    }
}

/// What a function has at an element.
fn entry_at(
    alloc: Global,
    source: Source<'_>,
    sig: FunSig,
    tellers: &[Teller],
    element: u32,
) -> Result<Option<SVal>, AllocError>
    ensures { IfOk result (λ value. value ≡ entry_at source.entry.found.now.values
        source.entry.all.now source.entry.defaults.now sig tellers.now element) }
{
    let class = class_of_element(source.all, sig.from, element);
    match teller_at(tellers, class) {
        Some(term) => told_by(alloc, source, sig.to, term),
        None if sig.partial => Ok(None),
        None => Ok(Some(blank_value(alloc, source.defaults, sig.to))),
    }
}

/// What a function has at each element of its source.
#[tactic(auto, using(crate::proofs::Steps::map_range_more))]
pub(crate) fn row_at(
    alloc: Global,
    source: Source<'_>,
    sig: FunSig,
    tellers: &[Teller],
    size: u32,
) -> Result<Items<Option<SVal>>, AllocError>
    ensures { IfOk result (λ row. row ≡ row_at source.entry.found.now.values
        source.entry.all.now source.entry.defaults.now sig tellers.now size) }
{
    let mut row = Items::new(alloc);
    for element in 0..size {
        let value = entry_at(alloc, source, sig, tellers, element)?;
        row.push(value)?;
    }
    Ok(row)
}
