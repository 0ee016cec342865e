//! Whether facts are so.

ghost use Rattle.std.specs.Prelude.{◌≡◌, ℕ, Some, false, position, IfOk, OnOk};
ghost use Rattle.std.specs.Prelude.{slice_get, unwrap_or};
ghost use Rattle.ground_problem.specs.declared.facts.FactNode.{FactNode as AnyFact};
ghost use Rattle.decide_reading.specs.Columns.{IsFactOf, IsSo, at_or, fact_by, is_same_pair};

use crate::columns::Columns;
use crate::noun::{is_term, noun_by, value_by};
use crate::pairs::Pairs;
use form_formula::Arena;
use ground_problem::{FactNode, PairNode};
use ground_terms::TermArena;
use sqlite_items::Items;
use std::alloc::AllocError;

/// What facts are read by.
#[derive(Clone, Copy)]
pub struct Source<'a> {
    pub arena: &'a Arena,
    pub terms: &'a TermArena,
    pub pairs: &'a Pairs,
    pub columns: &'a Columns,
}

/// The truth value at a place.
pub(crate) fn flag_at(flags: &Items<bool>, place: usize) -> bool
    ensures { result ≡ unwrap_or (slice_get flags.now place) false }
{
    match flags.get(place) {
        Some(flag) => *flag,
        None => false,
    }
}

/// Whether the set relation of a pair holds.
pub(crate) fn is_related(related: &Items<bool>, pairs: &Pairs, pair: PairNode) -> bool
    ensures { result ≡ at_or related.now (position (is_same_pair pair) pairs.now) false }
{
    match pairs.place_of(pair) {
        Some(place) => flag_at(related, place),
        None => false,
    }
}

/// Whether a fact is so. One that speaks of what has no number counts as memory that is not there.
fn holds(source: Source<'_>, fact: FactNode) -> Result<bool, AllocError>
    ensures is { IfOk result (λ so. so ≡ fact_by source.entry.arena.now source.entry.pairs.now
        source.entry.columns.now fact) }
    ensures proper { IfOk result (λ _. IsFactOf source.entry.arena.now source.entry.terms.now
        fact) }
{
    let Source {
        arena,
        terms,
        pairs,
        columns,
    } = source;
    match fact {
        FactNode::There(id) if is_term(terms, id) => Ok(flag_at(&columns.there, id as usize)),
        FactNode::Same(v, w) => {
            let left = noun_by(arena, terms, columns, v)?;
            let right = noun_by(arena, terms, columns, w)?;
            Ok(left.equals(right))
        }
        FactNode::Below(v, w) => {
            let left = noun_by(arena, terms, columns, v)?;
            let right = noun_by(arena, terms, columns, w)?;
            Ok(left.is_below(right))
        }
        FactNode::Raised(id) if is_term(terms, id) => Ok(value_by(columns, id).is_raised()),
        FactNode::Related(p) if is_term(terms, p.holder) && is_term(terms, p.member) => {
            Ok(is_related(&columns.related, pairs, p))
        }
        FactNode::Empty(sort) => Ok(flag_at(&columns.empty, sort as usize)),
        FactNode::There(_) | FactNode::Raised(_) | FactNode::Related(_) => Err(AllocError),
    }
}

/// Checks that a fact is so exactly where its value is true.
fn check_fact(source: Source<'_>, fact: FactNode, value: bool) -> Result<(), AllocError>
    ensures { OnOk result (IsSo source.entry.arena.now source.entry.terms.now
        source.entry.pairs.now source.entry.columns.now fact value) }
{
    let so = holds(source, fact)?;
    if so == value { Ok(()) } else { Err(AllocError) }
}

/// The value of the fact at a place, which is false where there is none.
fn value_of(values: &[bool], k: usize) -> bool
    ensures { result ≡ unwrap_or (slice_get values.now k) false }
{
    match values.get(k) {
        Some(value) => *value,
        None => false,
    }
}

/// Checks the fact at a place, if there is one.
fn check_at(
    source: Source<'_>,
    facts: &[FactNode],
    k: usize,
    values: &[bool],
) -> Result<(), AllocError>
    ensures { OnOk result ((p : AnyFact) → slice_get facts.now k ≡ Some p → IsSo
        source.entry.arena.now source.entry.terms.now source.entry.pairs.now
        source.entry.columns.now p (unwrap_or (slice_get values.now k) false)) }
{
    let value = value_of(values, k);
    match facts.get(k) {
        Some(fact) => check_fact(source, *fact, value),
        None => Ok(()),
    }
}

/// Checks that facts are so exactly where their values are true. Where they are not, memory counts
/// as not there.
pub fn check_facts(
    source: Source<'_>,
    facts: &[FactNode],
    values: &[bool],
) -> Result<(), AllocError>
    ensures { OnOk result ((k : ℕ) (p : AnyFact) → slice_get facts.now k ≡ Some p → IsSo
        source.entry.arena.now source.entry.terms.now source.entry.pairs.now
        source.entry.columns.now p (unwrap_or (slice_get values.now k) false)) }
{
    for k in 0..facts.len() {
        check_at(source, facts, k, values)?;
    }
    Ok(())
}
