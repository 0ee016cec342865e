//! Terms.

use text_ast::Txt;

/// A term.
#[derive(Clone, Copy)]
pub enum Term<'a> {
    /// A variable: the sort of its quantifier, and how many quantifiers stand above that one.
    Bound(u32, u32),
    Num(i64),
    Str(&'a Txt),
    /// A function at a term.
    App(u32, &'a Term<'a>),
    /// Functions one after another at a term: the first of them at the term, and so on.
    Chain(&'a [u32], &'a Term<'a>),
}
