//! Whether what was found breaks a clause.

ghost use Rattle.std.specs.Prelude.{◌≡◌, ℕ, true, is_some, slice_get, IfSome, Some};
ghost use Rattle.form_formula.specs.Truth.{are_equal, is_raised};
ghost use Rattle.form_formula.specs.declared.structure.SVal.{SVal as AnyValue};
ghost use Rattle.ground_terms.specs.Nodes.{IsOne};
ghost use Rattle.decide_reading.specs.Broken.{AreTold, HasFound, IsBroken, IsFalse, IsTold};
ghost use Rattle.decide_reading.specs.Keys.{value_at};
ghost use Rattle.decide_reading.specs.Settled.{related_at};

use crate::broken_pairs::is_related;
use crate::broken_terms::Rivals;
use crate::keys::Source;
use decide_models::Found;
use form_formula::SVal;
use ground_instances::Value;
use ground_problem::{FactLiteral, FactNode, PairNode};
use ground_terms::{TermArena, TermNode};

/// Whether a number is that of a term.
fn is_term(terms: &TermArena, id: u32) -> bool
    ensures { result ≡ true → IsOne terms.now id }
{
    if id as usize >= terms.len() {
        return false;
    }
    match terms.node(id) {
        TermNode::Constant(_) | TermNode::Skolem(..) | TermNode::Field(..) => true,
        TermNode::Empty | TermNode::Cons(..) => false,
    }
}

/// Whether a term is there.
fn is_there(found: &Found, id: u32) -> bool
    ensures { result ≡ is_some (value_at found.now id) }
{
    match found.values.get(id as usize) {
        Some(Some(_)) => true,
        Some(None) | None => false,
    }
}

/// What a term has, if it is there.
fn value_of<'a>(source: Source<'a>, id: u32) -> Option<&'a SVal>
    ensures { IfSome result (λ value. HasFound source.entry.terms.now source.entry.found.now id
        value.now) }
{
    if !is_term(source.terms, id) {
        return None;
    }
    match source.found.values.get(id as usize) {
        Some(Some(value)) => Some(value),
        Some(None) | None => None,
    }
}

/// Whether two values are one element, one number or one text.
fn are_equal(v: &SVal, w: &SVal) -> bool
    ensures { result ≡ are_equal v.now w.now }
{
    match (v, w) {
        (SVal::Rec(x), SVal::Rec(y)) => x == y,
        (SVal::Num(m), SVal::Num(n)) => m == n,
        (SVal::Str(t), SVal::Str(u)) => t == u,
        (SVal::Rec(_) | SVal::Flag(_) | SVal::Num(_) | SVal::Str(_), _) => false,
    }
}

/// Whether a value is true.
fn is_raised(value: &SVal) -> bool
    ensures { result ≡ is_raised value.now }
{
    match value {
        SVal::Flag(flag) => *flag,
        SVal::Rec(_) | SVal::Num(_) | SVal::Str(_) => false,
    }
}

/// Whether two terms are the same, if both are there.
fn told_same(source: Source<'_>, x: u32, y: u32) -> Option<bool>
    ensures { IfSome result (AreTold source.entry.terms.now source.entry.found.now are_equal
        (Value.Term x) (Value.Term y)) }
{
    let v = value_of(source, x)?;
    let w = value_of(source, y)?;
    Some(are_equal(v, w))
}

/// Whether what a term has is true, if it is there.
fn told_raised(source: Source<'_>, id: u32) -> Option<bool>
    ensures { IfSome result (λ so. (x : AnyValue) × HasFound source.entry.terms.now
        source.entry.found.now id x × (is_raised x ≡ so)) }
{
    let value = value_of(source, id)?;
    Some(is_raised(value))
}

/// Whether a pair is at a place.
fn is_at(pairs: &[PairNode], place: usize, pair: PairNode) -> bool
    ensures { result ≡ true → slice_get pairs.now place ≡ Some pair }
{
    match pairs.get(place) {
        Some(own) => *own == pair,
        None => false,
    }
}

/// Whether a set relation holds of a pair, if it is one of two rivals.
fn told_related(found: &Found, pairs: &[PairNode], rivals: Rivals, pair: PairNode) -> Option<bool>
    ensures { IfSome result (λ so. (k : ℕ) × (slice_get pairs.now k ≡ Some pair) ×
        (related_at found.now k ≡ so)) }
{
    if is_at(pairs, rivals.first, pair) {
        return Some(is_related(found, rivals.first));
    }
    if is_at(pairs, rivals.one, pair) {
        return Some(is_related(found, rivals.one));
    }
    None
}

/// Whether a fact is one, if what was found tells it. No clause of congruence compares with a
/// number or a text of the formula, says that one number is below another, or speaks of a sort.
fn told(source: Source<'_>, pairs: &[PairNode], rivals: Rivals, fact: FactNode) -> Option<bool>
    ensures { IfSome result (IsTold source.entry.terms.now source.entry.found.now pairs.now fact) }
{
    match fact {
        FactNode::There(id) if is_term(source.terms, id) => Some(is_there(source.found, id)),
        FactNode::Same(Value::Term(x), Value::Term(y)) => told_same(source, x, y),
        FactNode::Raised(id) => told_raised(source, id),
        FactNode::Related(pair) => told_related(source.found, pairs, rivals, pair),
        FactNode::There(_) | FactNode::Same(..) | FactNode::Below(..) | FactNode::Empty(_) => None,
    }
}

/// Whether a literal is false by what was found.
fn is_false(source: Source<'_>, pairs: &[PairNode], rivals: Rivals, literal: FactLiteral) -> bool
    ensures { result ≡ true → IsFalse source.entry.terms.now source.entry.found.now pairs.now
        literal }
{
    match told(source, pairs, rivals, literal.fact) {
        Some(so) => so != literal.plus,
        None => false,
    }
}

/// Whether what was found breaks a clause.
pub(crate) fn is_broken(
    source: Source<'_>,
    pairs: &[PairNode],
    rivals: Rivals,
    clause: &[FactLiteral],
) -> bool
    ensures { result ≡ true → IsBroken source.entry.terms.now source.entry.found.now pairs.now
        clause.now }
{
    for literal in clause {
        if !is_false(source, pairs, rivals, *literal) {
            return false;
        }
    }
    true
}
