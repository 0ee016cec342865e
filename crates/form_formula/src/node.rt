//! Nodes.

use text_ast::Txt;

/// A term or a formula, whose parts are given by their numbers in an arena.
#[derive(Debug, Drop, PartialEq, Eq, Hash)]
pub enum Node {
    /// A variable: the sort of its quantifier, and how many quantifiers stand above that one.
    Bound(u32, u32),
    Num(i64),
    Str(Txt),
    /// A function at a term.
    App(u32, u32),
    Yes,
    No,
    /// Two terms are equal.
    Eq(u32, u32),
    /// One number is below the other.
    Less(u32, u32),
    /// A set relation holds of two terms.
    Has(u32, u32, u32),
    /// A function to truth values gives true at a term.
    Flag(u32, u32),
    /// A function has a value at a term.
    Present(u32, u32),
    Not(u32),
    And(u32, u32),
    Or(u32, u32),
    /// A sort, and a formula that holds for some element of it.
    Exists(u32, u32),
    /// A sort, and a formula that holds for each element of it.
    Forall(u32, u32),
}
