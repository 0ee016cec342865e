//! Expressions and sets.
//!
//! The first part of each variant is the offset of its first token, which is an opening parenthesis
//! where the variant stands in parentheses. It lies beside the variant's tag, and what is rare or
//! large lies in a box: an expression takes 32 bytes and a set 40.

use crate::named::Named;
use sqlite_items::{Boxed, Items};
use text_ast::Txt;

/// How two values are compared.
#[derive(Clone, Copy, Debug, PartialEq, Eq)]
pub enum CmpOp {
    /// `==`, or `:` in a filter.
    Eq,
    /// `!=`
    Ne,
    /// `<`
    Lt,
    /// `<=`
    Le,
    /// `>`
    Gt,
    /// `>=`
    Ge,
}

/// How a field meets the value of a filter.
#[derive(Clone, Copy, Debug, PartialEq, Eq)]
pub enum FilterOp {
    Cmp(CmpOp),
    /// `has`: the field is a set that holds the value.
    Has,
}

/// An expression: what it is worth depends on a record and its database.
#[cycle(tree)]
#[derive(Drop)]
pub enum Expr {
    /// `true` or `false`.
    Flag(u32, bool),
    Num(u32, i64),
    Str(u32, Boxed<Txt>),
    /// A variable. Its name has an offset of its own, inside the parentheses.
    Var(u32, Named),
    /// `none`
    NoneLit(u32),
    /// `some(e)`
    SomeLit(u32, Boxed<Expr>),
    /// `e.f`
    Get(u32, Boxed<Expr>, Boxed<Named>),
    Cmp(u32, CmpOp, Boxed<Expr>, Boxed<Expr>),
    /// `e in S`: the record that `e` names is in the set.
    Member(u32, Boxed<Expr>, Boxed<SetExpr>),
    /// `!e`
    Not(u32, Boxed<Expr>),
    /// `a && b`
    And(u32, Boxed<Expr>, Boxed<Expr>),
    /// `a || b`
    Or(u32, Boxed<Expr>, Boxed<Expr>),
    /// `if c then a else b`
    IfE(u32, Boxed<Expr>, Boxed<Expr>, Boxed<Expr>),
    /// `match e with none -> a | some x -> b`, with `x` and `b` in one piece of memory.
    MatchE(u32, Boxed<Expr>, Boxed<Expr>, Boxed<(Named, Expr)>),
}

/// A set of principals or of records.
#[cycle(tree)]
#[derive(Drop)]
pub enum SetExpr {
    /// `public`: the offset of the first token, and then that of the word, which differ where it
    /// stands in parentheses.
    Everyone(u32, u32),
    /// `none`
    Nobody(u32),
    /// `[a, b]`
    List(u32, Items<Item>),
    /// `S + T`
    Sum(u32, Boxed<SetExpr>, Boxed<SetExpr>),
    /// `S - T`
    Less(u32, Boxed<SetExpr>, Boxed<SetExpr>),
    /// `M::Find({..})`
    Find(u32, Boxed<Named>, Items<Filter>),
    /// A variable or a field of one that is a set; after `in` also a field of what stands in
    /// parentheses.
    Path(u32, Expr),
    /// `S.map(x -> e)`
    MapS(u32, Boxed<SetExpr>, Boxed<Named>, Boxed<Expr>),
    /// `S.flat_map(x -> T)`
    FlatS(u32, Boxed<SetExpr>, Boxed<Named>, Boxed<SetExpr>),
    /// `if c then S else T`
    IfS(u32, Boxed<Expr>, Boxed<SetExpr>, Boxed<SetExpr>),
    /// `match e with none -> S | some x -> T`
    MatchS(u32, Boxed<Expr>, Boxed<SetExpr>, Boxed<Named>, Boxed<SetExpr>),
}

/// An item of a list. Its first token is that of the name or of the expression.
#[cycle(tree)]
#[derive(Drop)]
pub enum Item {
    /// A static principal.
    Static(Named),
    /// The record that an expression names.
    One(Expr),
}

/// A filter of `Find`: `f: e`, `f < e`, `f has e`. Its first token is the field's name.
#[cycle(tree)]
#[derive(Drop)]
pub struct Filter {
    pub field: Named,
    pub op: FilterOp,
    pub value: Expr,
}
