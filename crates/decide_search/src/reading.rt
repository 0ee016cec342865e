//! What was found, read from what the solver found.

ghost use Rattle.std.specs.Prelude.{◌≡◌, IfOk, length};
ghost use Rattle.form_tables.specs.Consistent.{IsOfRange};
ghost use Rattle.decide_search.specs.Ranged.{AreRanged, AreRangedValues, IsRanged};

use crate::Mixture;
use crate::sides::Reader;
use crate::spares::Spares;
use crate::unnamed::with_unnamed;
use decide_reading::{Columns, Pairs, range_at};
use form_formula::{Range, SVal};
use ground_problem::FactNode;
use sqlite_items::Items;
use std::alloc::{AllocError, Global};

/// Truth values of terms, pairs and sorts.
#[derive(Drop)]
struct Flags {
    there: Vec<bool>,
    raised: Vec<bool>,
    related: Vec<bool>,
    empty: Vec<bool>,
}

/// Sets a truth value, if there is a place for it.
fn set(flags: &mut Vec<bool>, place: usize, value: bool) {
    if place < flags.len() {
        flags[place] = value;
    }
}

impl Flags {
    /// Sets the value of a fact.
    fn set(&mut self, pairs: &Pairs, fact: FactNode, value: bool) {
        match fact {
            FactNode::There(id) => set(&mut self.there, id as usize, value),
            FactNode::Raised(id) => set(&mut self.raised, id as usize, value),
            FactNode::Related(pair) => {
                if let Some(place) = pairs.place_of(pair) {
                    set(&mut self.related, place, value);
                }
            }
            FactNode::Empty(sort) => set(&mut self.empty, sort as usize, value),
            FactNode::Same(..) | FactNode::Below(..) => {}
        }
    }
}

/// The truth values that facts have.
fn flags_of(
    alloc: Global,
    reader: Reader<'_>,
    pairs: &Pairs,
    facts: &[FactNode],
    values: &[bool],
) -> Result<Flags, AllocError> {
    let mut flags = Flags {
        there: vec![in alloc; false; reader.terms.len()]?,
        raised: vec![in alloc; false; reader.terms.len()]?,
        related: vec![in alloc; false; pairs.as_slice().len()]?,
        empty: vec![in alloc; true; reader.signature.sorts as usize]?,
    };
    for (fact, value) in facts.iter().zip(values.iter()) {
        flags.set(pairs, *fact, *value);
    }
    Ok(flags)
}

/// The numbers from a place on.
fn from_place(numbers: &[u32], place: usize) -> &[u32] {
    if place <= numbers.len() {
        &numbers[place..]
    } else {
        &[]
    }
}

/// What values are read from.
#[derive(Clone, Copy)]
struct Source<'a> {
    reader: Reader<'a>,
    mixture: &'a Mixture,
    classes: &'a [u32],
    raised: &'a [bool],
}

/// The number of a term, if that has a number.
fn number_of(mixture: &Mixture, id: u32) -> i64 {
    let place = (id as usize).saturating_add(1);
    mixture.numbers.get(place).copied().unwrap_or(0)
}

/// The text of a term, if that has a text.
fn text_of(
    alloc: Global,
    source: Source<'_>,
    spares: &mut Spares,
    class: u32,
) -> Result<SVal, AllocError>
    ensures { IfOk result (IsOfRange Range.Str) }
{
    let own = from_place(source.classes, source.reader.terms.len());
    let text = spares.text_of(alloc, source.reader.texts, own, class)?;
    let _bytes = text.bytes();
    Ok(SVal::Str(text))
}

/// What a term of a range has if it is there.
fn value_in(
    alloc: Global,
    source: Source<'_>,
    spares: &mut Spares,
    range: Range,
    id: u32,
) -> Result<SVal, AllocError>
    ensures { IfOk result (IsOfRange range) }
{
    let place = id as usize;
    let class = source.classes.get(place).copied().unwrap_or(0);
    match range {
        Range::Rec(_) => Ok(SVal::Rec(class)),
        Range::Num => {
            let number: i64 = number_of(source.mixture, id);
            Ok(SVal::Num(number))
        }
        Range::Str => text_of(alloc, source, spares, class),
        Range::Flag => {
            let flag = source.raised.get(place).copied().unwrap_or(false);
            Ok(SVal::Flag(flag))
        }
    }
}

/// What a term has if it is there.
fn value_of(
    alloc: Global,
    source: Source<'_>,
    spares: &mut Spares,
    id: u32,
) -> Result<SVal, AllocError>
    ensures { IfOk result (IsRanged source.entry.reader.signature.now
        source.entry.reader.terms.now id) }
{
    match range_at(source.reader.signature, source.reader.terms, id) {
        Some(range) => value_in(alloc, source, spares, range, id),
        None => Ok(SVal::Flag(false)),
    }
}

/// What each term has if it is there.
fn values_of(alloc: Global, source: Source<'_>) -> Result<Items<SVal>, AllocError>
    ensures { IfOk result (AreRangedValues source.entry.reader.signature.now
        source.entry.reader.terms.now (length source.entry.reader.terms.now)) }
{
    let mut spares = Spares::new(alloc);
    let mut values = Items::new(alloc);
    for id in 0..source.reader.terms.len() as u32 {
        let value = value_of(alloc, source, &mut spares, id)?;
        values.push(value)?;
    }
    Ok(values)
}

/// The columns of these truth values and values.
fn columns_by(flags: Flags, values: Items<SVal>) -> Columns
    ensures { result.values ≡ values }
{
    let Flags {
        there,
        raised: _,
        related,
        empty,
    } = flags;
    Columns {
        there: Items::from_vec(there),
        values,
        related: Items::from_vec(related),
        empty: Items::from_vec(empty),
    }
}

/// The columns of what the solver found, with these classes of terms. A sort that no fact speaks of
/// is empty.
pub(crate) fn columns_of(
    alloc: Global,
    reader: Reader<'_>,
    pairs: &Pairs,
    facts: &[FactNode],
    mixture: &Mixture,
    classes: &[u32],
) -> Result<Columns, AllocError>
    ensures { IfOk result (AreRanged reader.entry.signature.now reader.entry.terms.now) }
{
    let flags = flags_of(alloc, reader, pairs, facts, mixture.values.as_slice())?;
    let classes = with_unnamed(alloc, reader, flags.there.as_slice(), classes)?;
    let source = Source {
        reader,
        mixture,
        classes: classes.as_slice(),
        raised: flags.raised.as_slice(),
    };
    let values = values_of(alloc, source)?;
    Ok(columns_by(flags, values))
}
