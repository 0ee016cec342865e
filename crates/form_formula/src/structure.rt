//! Signatures and structures.

ghost use Rattle.std.specs.Prelude.{IsTrue};
ghost use Rattle.form_formula.specs.Signature.{is_signature};

use sqlite_items::Items;
use text_ast::Txt;

/// What a function gives.
#[derive(Clone, Copy, Debug)]
pub enum Range {
    /// An element of a sort.
    Rec(u32),
    /// A truth value.
    Flag,
    /// A whole number of 64 bits.
    Num,
    /// A text.
    Str,
}

/// A function from a sort. A partial one need not have a value everywhere.
#[derive(Clone, Copy, Debug)]
pub struct FunSig {
    pub from: u32,
    pub to: Range,
    pub partial: bool,
}

/// A set relation between two sorts.
#[derive(Clone, Copy, Debug)]
pub struct SetSig {
    pub from: u32,
    pub to: u32,
}

/// Sorts, numbered from 0, and the functions and set relations between them, each numbered by its
/// place. The sorts that these name are there.
#[derive(Debug, Drop)]
pub struct Signature {
    pub sorts: u32,
    pub funs: Items<FunSig>,
    pub sets: Items<SetSig>,
    pub ghost fits: { IsTrue (is_signature sorts funs sets) },
}

/// What a function has at an element.
#[derive(Debug, Drop)]
pub enum SVal {
    /// An element of a sort.
    Rec(u32),
    Flag(bool),
    Num(i64),
    Str(Txt),
}

/// A finite structure. The elements of a sort are the numbers below its size.
#[derive(Debug, Drop)]
pub struct Structure {
    /// How many elements each sort has.
    pub sizes: Items<u32>,
    /// For each function its values by elements, with None where a partial one has nothing.
    pub funs: Items<Items<Option<SVal>>>,
    /// For each set relation its pairs.
    pub sets: Items<Items<(u32, u32)>>,
}
