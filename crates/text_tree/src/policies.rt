//! Policies, and what a new field holds at first.

use crate::exprs::{Expr, SetExpr};
use crate::named::Named;

/// Who is allowed a right on a record.
#[derive(Drop)]
pub enum Policy {
    /// `public`: every principal. The offset is that of the word.
    Everyone(u32),
    /// `none`: no principal. The offset is that of the word.
    Nobody(u32),
    /// `x -> set`: the variable, which stands for the record and is the first token, and the set.
    Fun(Named, SetExpr),
}

/// What a field that a command adds holds at first: a set where its type is one.
#[derive(Drop)]
pub enum Init {
    Plain(Expr),
    OfSet(SetExpr),
}
