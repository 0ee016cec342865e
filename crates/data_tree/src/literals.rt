//! Values as they are written.

use sqlite_items::{Boxed, Items};
use text_ast::Txt;

/// The number of a record, and the offset of that number, which stands behind an `@`.
#[derive(Clone, Copy, Debug, PartialEq, Eq)]
pub struct WrittenId {
    pub number: u64,
    pub at: u32,
}

/// A value as it is written. The last part of each variant is the offset of its first token.
#[derive(Drop)]
pub enum Lit {
    /// `true` or `false`.
    Flag(bool, u32),
    Num(i64, u32),
    Str(Txt, u32),
    /// `@1`
    Id(WrittenId, u32),
    /// `self`, the record that is made. No text of a database has it.
    SelfId(u32),
    /// `none`
    NoneLit(u32),
    /// `some(v)`
    SomeLit(Boxed<Lit>, u32),
    /// `[v, w]`
    List(Items<Lit>, u32),
}
