//! Signatures.

ghost use Rattle.std.specs.Prelude.{◌≡◌, ◌&&◌, nat_lt};
ghost use Rattle.std.specs.List.{list_all};
ghost use Rattle.form_formula.specs.Signature.{has_range, is_signature};

use form_formula::{FunSig, Range, SetSig, Signature};
use sqlite_items::Items;
use std::alloc::AllocError;

/// How many functions, or set relations, numbers of 32 bits do not serve for.
const TOO_MANY_TO_NUMBER: usize = 4_294_967_296;

/// Whether the sort that a function gives elements of, if it does, is there.
fn has_range(sorts: u32, to: Range) -> bool
    ensures { result ≡ has_range sorts to }
{
    match to {
        Range::Rec(sort) => sort < sorts,
        Range::Flag | Range::Num | Range::Str => true,
    }
}

/// Whether the sorts that functions name are there.
fn are_functions(sorts: u32, funs: &[FunSig]) -> bool
    ensures { result ≡ list_all (λ f. nat_lt f.from sorts && has_range sorts f.to) funs.now }
{
    funs.iter()
        .all(|f| f.from < sorts && has_range(sorts, f.to))
}

/// Whether the sorts that set relations name are there.
fn are_relations(sorts: u32, sets: &[SetSig]) -> bool
    ensures { result ≡ list_all (λ r. nat_lt r.from sorts && nat_lt r.to sorts) sets.now }
{
    sets.iter().all(|r| r.from < sorts && r.to < sorts)
}

/// Whether these make a signature of so many sorts.
fn is_signature(sorts: u32, funs: &[FunSig], sets: &[SetSig]) -> bool
    ensures { result ≡ is_signature sorts funs.now sets.now }
{
    funs.len() < TOO_MANY_TO_NUMBER
        && sets.len() < TOO_MANY_TO_NUMBER
        && are_functions(sorts, funs)
        && are_relations(sorts, sets)
}

/// The signature of so many sorts, functions and set relations. One of which a sort is not there
/// counts as memory that is not there.
pub fn signature_of(
    sorts: u32,
    funs: Items<FunSig>,
    sets: Items<SetSig>,
) -> Result<Signature, AllocError> {
    if !is_signature(sorts, funs.as_slice(), sets.as_slice()) {
        return Err(AllocError);
    }
    Ok(Signature { sorts, funs, sets })
}
