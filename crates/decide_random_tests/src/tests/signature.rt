//! The signature of the formulas and structures.

use decide_trial::signature_of;
use form_formula::{FunSig, Range, SetSig, Signature};
use sqlite_items::Items;
use std::alloc::{AllocError, Global};

/// A total function from sort 0 to sort 1.
pub(crate) const TOTAL: u32 = 0;

/// A partial function from sort 0 to sort 1.
pub(crate) const PARTIAL: u32 = 1;

/// A function from sort 0 to truth values.
pub(crate) const FLAG: u32 = 2;

/// A function from sort 1 to numbers.
pub(crate) const NUMBER: u32 = 3;

/// A set relation from sort 1 to sort 0.
pub(crate) const RELATION: u32 = 0;

/// A function.
fn function(from: u32, to: Range, partial: bool) -> FunSig {
    FunSig { from, to, partial }
}

/// Two sorts, and these functions and this set relation.
pub(crate) fn signature(alloc: Global) -> Result<Signature, AllocError> {
    let funs = [
        function(0, Range::Rec(1), false),
        function(0, Range::Rec(1), true),
        function(0, Range::Flag, false),
        function(1, Range::Num, false),
    ];
    let sets = [SetSig { from: 1, to: 0 }];
    let funs = Items::from_slice(alloc, &funs)?;
    signature_of(2, funs, Items::from_slice(alloc, &sets)?)
}
