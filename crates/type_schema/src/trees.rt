//! Typed expressions, sets, policies and initialisers.

use crate::types::{FieldNo, ModelNo, StaticNo};
use sqlite_items::{Boxed, Items};
use text_ast::{Name, Txt};
use text_tree::{CmpOp, FilterOp};

/// An expression. A variable is its depth: how many stand outside it.
#[cycle(trees)]
#[derive(Drop)]
pub enum TExpr {
    Flag(bool),
    Num(i64),
    Str(Txt),
    /// The depth of the variable, and its name.
    Var(u32, Name),
    NoneLit,
    SomeLit(Boxed<TExpr>),
    /// A field of a record: the record, its model and the field.
    Get(Boxed<TExpr>, ModelNo, FieldNo),
    /// Equality of two numbers, texts or ids. The sign is the written one, here and below.
    Eq(Boxed<TExpr>, Boxed<TExpr>, CmpOp),
    /// Equality of two truth values.
    Iff(Boxed<TExpr>, Boxed<TExpr>, CmpOp),
    /// Whether the first number is below the second. With `>` and `<=` the sides are exchanged.
    Less(Boxed<TExpr>, Boxed<TExpr>, CmpOp),
    /// Whether a record of the model is in the set.
    Member(Boxed<TExpr>, ModelNo, Boxed<TSet>),
    Not(Boxed<TExpr>),
    And(Boxed<TExpr>, Boxed<TExpr>),
    Or(Boxed<TExpr>, Boxed<TExpr>),
    /// `if`, `then`, `else`.
    IfE(Boxed<TExpr>, Boxed<TExpr>, Boxed<TExpr>),
    /// The option, what stands for `none`, the variable, and what stands for `some`.
    MatchE(Boxed<TExpr>, Boxed<TExpr>, Boxed<Name>, Boxed<TExpr>),
}

/// An item of a list.
#[cycle(trees)]
#[derive(Drop)]
pub enum TItem {
    Static(StaticNo),
    /// A record of the model.
    One(ModelNo, TExpr),
}

/// A condition on a field of the records that are sought.
#[cycle(trees)]
#[derive(Drop)]
pub enum TFilter {
    /// The field, how it is tested, and the value that it is tested with.
    Test(FieldNo, FilterOp, TExpr),
}

/// A set of principals, or of records of one model.
#[cycle(trees)]
#[derive(Drop)]
pub enum TSet {
    Everyone,
    Nobody,
    List(Items<TItem>),
    Sum(Boxed<TSet>, Boxed<TSet>),
    Less(Boxed<TSet>, Boxed<TSet>),
    /// The records of the model that meet every filter.
    Find(ModelNo, Items<TFilter>),
    /// The records of the model that a set field holds.
    Path(ModelNo, TExpr),
    /// The source, its model, the variable, and the model and the expression of the records.
    MapS(Boxed<TSet>, ModelNo, Boxed<Name>, ModelNo, Boxed<TExpr>),
    /// The source, its model, the variable and the set.
    FlatS(Boxed<TSet>, ModelNo, Boxed<Name>, Boxed<TSet>),
    IfS(Boxed<TExpr>, Boxed<TSet>, Boxed<TSet>),
    MatchS(Boxed<TExpr>, Boxed<TSet>, Boxed<Name>, Boxed<TSet>),
}

/// Who is allowed a right on a record.
#[derive(Drop)]
pub enum TPolicy {
    Everyone,
    Nobody,
    /// The variable, which is the record, and the set.
    Fun(Name, TSet),
}

/// What an added field holds at a record, which is the outermost variable.
#[derive(Drop)]
pub enum TInit {
    Plain(TExpr),
    /// The model of the records, and the set.
    OfSet(ModelNo, TSet),
}
