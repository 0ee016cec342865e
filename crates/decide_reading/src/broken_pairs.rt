//! The pairs that break a clause of congruence.

ghost use Rattle.std.specs.Prelude.{◌≡◌, ◌<◌, ℕ, [], true, Option, None, Some, length, slice_get};
ghost use Rattle.std.specs.Prelude.{IfOk, IfSome, OnOk};
ghost use Rattle.indexmap.specs.IndexMap.{get};
ghost use Rattle.ground_problem.specs.Words.{ArePairs};
ghost use Rattle.ground_problem.specs.declared.words.PairNode.{PairNode as AnyPair};
ghost use Rattle.decide_reading.specs.declared.keys.PairKey.{PairKey as AnyPairKey};
ghost use Rattle.decide_reading.specs.Firsts.{ArePlacesBelow, KeepsPlaces};
ghost use Rattle.decide_reading.specs.Settled.{AreRivals, HasPairSettled, IsPairSettled, related_at};
ghost use Rattle.decide_reading.specs.contracts.keys.PairKeyPartialEq.TheImpl as key_eq;

use crate::broken_terms::Rivals;
use crate::firsts::Firsts;
use crate::keys::{PairKey, Source, pair_key_at};
use decide_models::Found;
use ground_problem::PairNode;
use std::alloc::{AllocError, Global};

/// Whether the set relation of the pair at a place holds.
pub(crate) fn is_related(found: &Found, place: usize) -> bool
    ensures { result ≡ related_at found.now place }
{
    match found.related.get(place) {
        Some(flag) => *flag,
        None => false,
    }
}

/// Whether the set relations of the pairs at two places hold both, or neither does.
fn are_alike(found: &Found, one: usize, first: usize) -> bool
    ensures { result ≡ true → related_at found.now one ≡ related_at found.now first }
{
    match (is_related(found, one), is_related(found, first)) {
        (true, true) | (false, false) => true,
        (true, false) | (false, true) => false,
    }
}

/// The place of the first pair with a pair's key, if only one of the two is related; where none was
/// noted this pair is the first.
fn rival_of(
    source: Source<'_>,
    pairs: &[PairNode],
    one: usize,
    firsts: &mut Firsts<PairKey>,
) -> Result<Option<usize>, AllocError>
    requires pairs { ArePairs source.terms.now pairs.now }
    requires one { one < length pairs.now }
    requires below { ArePlacesBelow (length pairs.now) (get (key_eq.ghosts).eq firsts.old.places) }
    ensures kept { OnOk result (KeepsPlaces (get (key_eq.ghosts).eq firsts.old.places)
        (get (key_eq.ghosts).eq firsts.new.places)) }
    ensures below { OnOk result (ArePlacesBelow (length pairs.now)
        (get (key_eq.ghosts).eq firsts.new.places)) }
    ensures within { IfOk result (λ rival. IfSome rival (λ first. first < length pairs.now)) }
    ensures settled { IfOk result (λ rival. rival ≡ None → (pair : AnyPair) →
        slice_get pairs.now one ≡ Some pair → HasPairSettled source.entry.terms.now
        source.entry.found.now (get (key_eq.ghosts).eq firsts.new.places) one pair) }
{
    match pair_key_at(source, pairs[one]) {
        None => Ok(None),
        Some(key) => {
            let first = firsts.first_of(key, one)?;
            if are_alike(source.found, one, first) {
                return Ok(None);
            }
            Ok(Some(first))
        }
    }
}

/// Notes a pair with the first that has its key, if they are rivals.
fn note_rival(
    source: Source<'_>,
    pairs: &[PairNode],
    one: usize,
    firsts: &mut Firsts<PairKey>,
    rivals: &mut Vec<Rivals>,
) -> Result<(), AllocError>
    requires pairs { ArePairs source.terms.now pairs.now }
    requires one { one < length pairs.now }
    requires below { ArePlacesBelow (length pairs.now) (get (key_eq.ghosts).eq firsts.old.places) }
    ensures kept { OnOk result (KeepsPlaces (get (key_eq.ghosts).eq firsts.old.places)
        (get (key_eq.ghosts).eq firsts.new.places)) }
    ensures below { OnOk result (ArePlacesBelow (length pairs.now)
        (get (key_eq.ghosts).eq firsts.new.places)) }
    ensures within { OnOk result (AreRivals (length pairs.now) rivals.old.items →
        AreRivals (length pairs.now) rivals.new.items) }
    ensures before { OnOk result (rivals.new.items ≡ [] → rivals.old.items ≡ []) }
    ensures settled { OnOk result (rivals.new.items ≡ [] → (pair : AnyPair) →
        slice_get pairs.now one ≡ Some pair → HasPairSettled source.entry.terms.now
        source.entry.found.now (get (key_eq.ghosts).eq firsts.new.places) one pair) }
{
    if let Some(first) = rival_of(source, pairs, one, firsts)? {
        rivals.push(Rivals { one, first })?;
    }
    Ok(())
}

/// Those of some pairs that are not related as the first with their key is.
pub(crate) fn pair_rivals_among(
    alloc: Global,
    source: Source<'_>,
    pairs: &[PairNode],
) -> Result<Vec<Rivals>, AllocError>
    requires { ArePairs source.terms.now pairs.now }
    ensures within { IfOk result (λ rivals. AreRivals (length pairs.now) rivals.items) }
    ensures none { IfOk result (λ rivals. rivals.items ≡ [] → (places : AnyPairKey → Option ℕ) ×
        ((k : ℕ) (pair : AnyPair) → slice_get pairs.now k ≡ Some pair → IsPairSettled
        source.entry.terms.now source.entry.found.now places k pair)) }
{
    let mut firsts = Firsts::new(alloc);
    let mut rivals = Vec::new(alloc);
    for place in 0..pairs.len() {
        note_rival(source, pairs, place, &mut firsts, &mut rivals)?;
    }
    Ok(rivals)
}
