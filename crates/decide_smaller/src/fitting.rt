//! Whether a structure is one over a signature.

ghost use Rattle.std.specs.Prelude.{◌≡◌, ◌<◌, [], All, ℕ, length, slice_index_or, true};
ghost use Rattle.form_formula.specs.declared.structure.FunSig.{FunSig};
ghost use Rattle.form_formula.specs.declared.structure.SetSig.{SetSig};
ghost use Rattle.form_terms.specs.Structures.{IsEntryOf, IsStructure, IsValueOf, size_of};
ghost use Rattle.decide_smaller.specs.Fitting.{IsPairOf, IsRelationOf, IsTableOf};

use form_formula::{FunSig, Range, SVal, SetSig, Signature, Structure};
use sqlite_items::Items;

/// How many elements a sort has.
pub(crate) fn size_of(structure: &Structure, sort: u32) -> u32
    ensures { result ≡ size_of structure.now sort }
{
    match structure.sizes.as_slice().get(sort as usize) {
        Some(size) => *size,
        None => 0,
    }
}

/// Whether a value is of the range.
fn is_value(structure: &Structure, to: Range, value: &SVal) -> bool
    ensures { result ≡ true → IsValueOf structure.now to value.now }
{
    match (to, value) {
        (Range::Rec(sort), SVal::Rec(element)) => *element < size_of(structure, sort),
        (Range::Flag, SVal::Flag(_)) => true,
        (Range::Num, SVal::Num(number)) => {
            // Of 64 bits, as each of its type.
            let _number = *number;
            true
        }
        (Range::Str, SVal::Str(text)) => {
            // A text, as each of its type.
            let _bytes = text.bytes();
            true
        }
        (Range::Rec(_) | Range::Flag | Range::Num | Range::Str, _) => false,
    }
}

/// Whether a function may have this at an element.
fn is_entry(structure: &Structure, sig: FunSig, entry: &Option<SVal>) -> bool
    ensures { result ≡ true → IsEntryOf structure.now sig entry.now }
{
    match entry {
        None => sig.partial,
        Some(value) => is_value(structure, sig.to, value),
    }
}

/// Whether a function may have these at its elements.
fn are_entries(structure: &Structure, sig: FunSig, table: &[Option<SVal>]) -> bool
    ensures { result ≡ true → All (IsEntryOf structure.now sig) table.now }
{
    for entry in table {
        if !is_entry(structure, sig, entry) {
            return false;
        }
    }
    true
}

/// Whether a table is one of a function.
fn is_table(structure: &Structure, sig: FunSig, table: &[Option<SVal>]) -> bool
    ensures { result ≡ true → IsTableOf structure.now sig table.now }
{
    table.len() == size_of(structure, sig.from) as usize && are_entries(structure, sig, table)
}

/// What the function at a place has at its elements.
fn table_at(structure: &Structure, place: usize) -> &[Option<SVal>]
    ensures { result.now ≡ slice_index_or structure.now.funs place [] }
{
    match structure.funs.as_slice().get(place) {
        Some(table) => table.as_slice(),
        None => &[],
    }
}

/// Whether there is a table of each function.
fn are_tables(structure: &Structure, signature: &Signature) -> bool
    ensures { result ≡ true → (h : ℕ) (d : FunSig) → h < length signature.now.funs →
        IsTableOf structure.now (slice_index_or signature.now.funs h d)
        (slice_index_or structure.now.funs h []) }
{
    for (place, sig) in signature.funs.as_slice().iter().enumerate() {
        if !is_table(structure, *sig, table_at(structure, place)) {
            return false;
        }
    }
    true
}

/// Whether two elements may be related.
fn is_pair(structure: &Structure, sig: SetSig, pair: (u32, u32)) -> bool
    ensures { result ≡ true → IsPairOf structure.now sig pair }
{
    pair.0 < size_of(structure, sig.from) && pair.1 < size_of(structure, sig.to)
}

/// Whether pairs may be those of a set relation.
#[tactic(auto, unfolding(crate::specs::Fitting::IsRelationOf))]
fn are_pairs(structure: &Structure, sig: SetSig, pairs: &[(u32, u32)]) -> bool
    ensures { result ≡ true → IsRelationOf structure.now sig pairs.now }
{
    for pair in pairs {
        if !is_pair(structure, sig, *pair) {
            return false;
        }
    }
    true
}

/// The pairs of the set relation at a place.
fn pairs_at(structure: &Structure, place: usize) -> &[(u32, u32)]
    ensures { result.now ≡ slice_index_or structure.now.sets place [] }
{
    match structure.sets.as_slice().get(place) {
        Some(pairs) => pairs.as_slice(),
        None => &[],
    }
}

/// Whether the pairs of each set relation are of its elements.
fn are_relations(structure: &Structure, signature: &Signature) -> bool
    ensures { result ≡ true → (r : ℕ) (d : SetSig) → r < length signature.now.sets →
        IsRelationOf structure.now (slice_index_or signature.now.sets r d)
        (slice_index_or structure.now.sets r []) }
{
    for (place, sig) in signature.sets.as_slice().iter().enumerate() {
        if !are_pairs(structure, *sig, pairs_at(structure, place)) {
            return false;
        }
    }
    true
}

/// Whether a structure has as much as a signature names.
fn is_as_long(structure: &Structure, signature: &Signature) -> bool
    ensures sizes { result ≡ true → length structure.now.sizes ≡ signature.now.sorts }
    ensures functions { result ≡ true → length structure.now.funs ≡ length signature.now.funs }
    ensures relations { result ≡ true → length structure.now.sets ≡ length signature.now.sets }
{
    structure.sizes.len() == signature.sorts as usize
        && structure.funs.len() == signature.funs.len()
        && structure.sets.len() == signature.sets.len()
}

/// Whether a structure is one over the signature.
pub(crate) fn fits(structure: &Structure, signature: &Signature) -> bool
    ensures { result ≡ true → IsStructure signature.now structure.now }
{
    if !is_as_long(structure, signature) {
        return false;
    }
    if !are_tables(structure, signature) {
        return false;
    }
    are_relations(structure, signature)
}
