//! The terms that break a clause of congruence.

ghost use Rattle.std.specs.Prelude.{◌≡◌, ◌<◌, ℕ, [], true, length, slice_get, slice_index, Option, None, Some};
ghost use Rattle.std.specs.Prelude.{IfOk, IfSome, OnOk};
ghost use Rattle.indexmap.specs.IndexMap.{get};
ghost use Rattle.form_formula.specs.declared.structure.SVal.{SVal as AnyValue};
ghost use Rattle.ground_terms.specs.Standing.{AreOnes, terms_at};
ghost use Rattle.form_terms.specs.GroundTerms.{GroundTerm};
ghost use Rattle.decide_reading.specs.Firsts.{ArePlacesBelow, KeepsPlaces};
ghost use Rattle.decide_reading.specs.Keys.{HaveValues, value_at};
ghost use Rattle.decide_reading.specs.Settled.{AreFunctional, AreRivals, HasSettled};
ghost use Rattle.decide_reading.specs.contracts.keys.KeyPartialEq.TheImpl as key_eq;

use crate::firsts::Firsts;
use crate::keys::{Key, Source, key_at};
use decide_models::Found;
use form_formula::SVal;
use std::alloc::{AllocError, Global};

/// The places of two terms or pairs that are not the same, though what they have is a function of
/// the same: one, and the first with its key.
#[derive(Clone, Copy, Debug)]
pub(crate) struct Rivals {
    pub(crate) one: usize,
    pub(crate) first: usize,
}

/// Whether two values are one.
fn is_one_value(v: &SVal, w: &SVal) -> bool
    ensures { result ≡ true → v.now ≡ w.now }
{
    match (v, w) {
        (SVal::Rec(x), SVal::Rec(y)) => x == y,
        (SVal::Flag(p), SVal::Flag(q)) => p == q,
        (SVal::Num(m), SVal::Num(n)) => m == n,
        (SVal::Str(t), SVal::Str(u)) => t == u,
        (SVal::Rec(_) | SVal::Flag(_) | SVal::Num(_) | SVal::Str(_), _) => false,
    }
}

/// Whether two terms have the same, or both have nothing.
fn have_same(found: &Found, x: u32, y: u32) -> bool
    ensures { result ≡ true → value_at found.now x ≡ value_at found.now y }
{
    match (found.values.get(x as usize), found.values.get(y as usize)) {
        (Some(Some(v)), Some(Some(w))) => is_one_value(v, w),
        (Some(None) | None, Some(None) | None) => true,
        (Some(Some(_)), Some(None) | None) | (Some(None) | None, Some(Some(_))) => false,
    }
}

/// Whether the terms at two places have the same, or both have nothing.
fn have_same_at(found: &Found, ids: &[u32], one: usize, first: usize) -> bool
    requires one { one < length ids.now }
    requires first { first < length ids.now }
    ensures { result ≡ true → value_at found.now (slice_index ids.now one) ≡ value_at found.now
        (slice_index ids.now first) }
{
    have_same(found, ids[one], ids[first])
}

/// The place of the first term with a term's key, if that has something else; where none was noted
/// this term is the first.
fn rival_of(
    alloc: Global,
    source: Source<'_>,
    ids: &[u32],
    one: usize,
    firsts: &mut Firsts<Key>,
) -> Result<Option<usize>, AllocError>
    requires ones { AreOnes source.terms.now ids.now }
    requires one { one < length ids.now }
    requires below { ArePlacesBelow (length ids.now) (get (key_eq.ghosts).eq firsts.old.places) }
    ensures kept { OnOk result (KeepsPlaces (get (key_eq.ghosts).eq firsts.old.places)
        (get (key_eq.ghosts).eq firsts.new.places)) }
    ensures below { OnOk result (ArePlacesBelow (length ids.now)
        (get (key_eq.ghosts).eq firsts.new.places)) }
    ensures within { IfOk result (λ rival. IfSome rival (λ first. first < length ids.now)) }
    ensures settled { IfOk result (λ rival. rival ≡ None → (id : ℕ) → slice_get ids.now one ≡ Some id
        → HasSettled source.entry.terms.now source.entry.found.now ids.now
        (get (key_eq.ghosts).eq firsts.new.places) id) }
{
    let key = key_at(alloc, source, ids[one])?;
    match key {
        None => Ok(None),
        Some(key) => {
            let first = firsts.first_of(key, one)?;
            if have_same_at(source.found, ids, one, first) {
                return Ok(None);
            }
            Ok(Some(first))
        }
    }
}

/// Notes a term with the first that has its key, if they are rivals.
fn note_rival(
    alloc: Global,
    source: Source<'_>,
    ids: &[u32],
    one: usize,
    firsts: &mut Firsts<Key>,
    rivals: &mut Vec<Rivals>,
) -> Result<(), AllocError>
    requires ones { AreOnes source.terms.now ids.now }
    requires one { one < length ids.now }
    requires below { ArePlacesBelow (length ids.now) (get (key_eq.ghosts).eq firsts.old.places) }
    ensures kept { OnOk result (KeepsPlaces (get (key_eq.ghosts).eq firsts.old.places)
        (get (key_eq.ghosts).eq firsts.new.places)) }
    ensures below { OnOk result (ArePlacesBelow (length ids.now)
        (get (key_eq.ghosts).eq firsts.new.places)) }
    ensures within { OnOk result (AreRivals (length ids.now) rivals.old.items →
        AreRivals (length ids.now) rivals.new.items) }
    ensures before { OnOk result (rivals.new.items ≡ [] → rivals.old.items ≡ []) }
    ensures settled { OnOk result (rivals.new.items ≡ [] → (id : ℕ) → slice_get ids.now one ≡ Some id
        → HasSettled source.entry.terms.now source.entry.found.now ids.now
        (get (key_eq.ghosts).eq firsts.new.places) id) }
{
    if let Some(first) = rival_of(alloc, source, ids, one, firsts)? {
        rivals.push(Rivals { one, first })?;
    }
    Ok(())
}

/// Those of some terms that have not what the first with their key has.
pub(crate) fn rivals_among(
    alloc: Global,
    source: Source<'_>,
    ids: &[u32],
) -> Result<Vec<Rivals>, AllocError>
    requires { AreOnes source.terms.now ids.now }
    ensures within { IfOk result (λ rivals. AreRivals (length ids.now) rivals.items) }
    ensures none { IfOk result (λ rivals. rivals.items ≡ [] → (values : GroundTerm → Option AnyValue) →
        HaveValues source.entry.terms.now source.entry.found.now values →
        AreFunctional values (terms_at source.entry.terms.now ids.now)) }
{
    let mut firsts = Firsts::new(alloc);
    let mut rivals = Vec::new(alloc);
    for place in 0..ids.len() {
        note_rival(alloc, source, ids, place, &mut firsts, &mut rivals)?;
    }
    Ok(rivals)
}
