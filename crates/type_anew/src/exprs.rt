//! Expressions and sets.

ghost use Rattle.std.specs.Prelude.{◌≡◌, ◌∷◌, ◌++◌, IfOk, map};
ghost use Rattle.type_schema.specs.SchemaViews.{schema_of};
ghost use Rattle.type_schema.specs.Trees as plain;
ghost use Rattle.type_schema.specs.Views as view;
ghost use Rattle.type_anew.specs.Names as spec;
ghost use Rattle.type_anew.specs.Names.{names_in};
ghost use Rattle.type_anew.specs.Trees as rule;

use crate::names::{field_name, model_name, named, static_name};
use sqlite_items::{Boxed, Items};
use std::alloc::{AllocError, Global};
use text_ast::Name;
use text_tree::{CmpOp, Expr, Filter, Item, Named, SetExpr};
use type_schema::{ModelNo, Schema, TExpr, TFilter, TItem, TSet};

/// Whether the sign says the negation of what its comparison was reduced to.
fn is_negative(op: CmpOp) -> bool
    ensures { result ≡ rule.is_negative op }
{
    match op {
        CmpOp::Ne | CmpOp::Le | CmpOp::Ge => true,
        CmpOp::Eq | CmpOp::Lt | CmpOp::Gt => false,
    }
}

/// Whether the expression is a comparison whose sign says its negation.
fn says_not(e: &TExpr) -> bool
    ensures { result ≡ rule.says_not (view.expr_of e.now) }
{
    match e {
        TExpr::Eq(_, _, op) | TExpr::Iff(_, _, op) | TExpr::Less(_, _, op) => is_negative(*op),
        TExpr::Flag(_)
        | TExpr::Num(_)
        | TExpr::Str(_)
        | TExpr::Var(..)
        | TExpr::NoneLit
        | TExpr::SomeLit(_)
        | TExpr::Get(..)
        | TExpr::Member(..)
        | TExpr::Not(_)
        | TExpr::And(..)
        | TExpr::Or(..)
        | TExpr::IfE(..)
        | TExpr::MatchE(..) => false,
    }
}

/// A comparison by order, of its lower and its higher side.
fn ordered(op: CmpOp, low: Boxed<Expr>, high: Boxed<Expr>) -> Expr
    ensures { result ≡ rule.sides op low high }
{
    match op {
        CmpOp::Le | CmpOp::Gt => Expr::Cmp(0, op, high, low),
        CmpOp::Eq | CmpOp::Ne | CmpOp::Lt | CmpOp::Ge => Expr::Cmp(0, op, low, high),
    }
}

/// The name in a tree, in a box.
fn boxed_name(alloc: Global, name: &Name) -> Result<Boxed<Named>, AllocError>
    ensures { IfOk result (λ x. x ≡ spec.named name.now) }
{
    let x = named(alloc, name)?;
    Boxed::new(alloc, x)
}

/// The expression in a box.
#[cycle(writing)]
fn boxed_expr(alloc: Global, s: &Schema, e: &TExpr) -> Result<Boxed<Expr>, AllocError>
    ensures { IfOk result (λ x. x
        ≡ rule.written_expr (names_in (schema_of s.now)) (view.expr_of e.now)) }
{
    let x = written_expr(alloc, s, e)?;
    Boxed::new(alloc, x)
}

/// The set in a box.
#[cycle(writing)]
fn boxed_set(alloc: Global, s: &Schema, set: &TSet) -> Result<Boxed<SetExpr>, AllocError>
    ensures { IfOk result (λ x. x
        ≡ rule.written_set (names_in (schema_of s.now)) (view.set_of set.now)) }
{
    let x = written_set(alloc, s, set)?;
    Boxed::new(alloc, x)
}

/// A negation, which is not written where the sign of a comparison says it.
#[cycle(writing)]
fn negation(alloc: Global, s: &Schema, inner: &TExpr) -> Result<Expr, AllocError>
    ensures { IfOk result (λ x. x ≡ rule.written_expr (names_in (schema_of s.now))
        (plain.negation (view.expr_of inner.now))) }
{
    if says_not(inner) {
        written_expr(alloc, s, inner)
    } else {
        let inner = boxed_expr(alloc, s, inner)?;
        Ok(Expr::Not(0, inner))
    }
}

// Long, since each form of an expression has its own arm.
/// The expression.
#[cycle(writing)]
fn written_expr(alloc: Global, s: &Schema, e: &TExpr) -> Result<Expr, AllocError>
    ensures { IfOk result (λ x. x
        ≡ rule.written_expr (names_in (schema_of s.now)) (view.expr_of e.now)) }
{
    match e {
        TExpr::Flag(value) => Ok(Expr::Flag(0, *value)),
        TExpr::Num(value) => Ok(Expr::Num(0, *value)),
        TExpr::Str(text) => {
            let text = Boxed::new(alloc, text.copy(alloc)?)?;
            Ok(Expr::Str(0, text))
        }
        TExpr::Var(_, name) => {
            let name = named(alloc, name)?;
            Ok(Expr::Var(0, name))
        }
        TExpr::NoneLit => Ok(Expr::NoneLit(0)),
        TExpr::SomeLit(inner) => {
            let inner = boxed_expr(alloc, s, inner.get())?;
            Ok(Expr::SomeLit(0, inner))
        }
        TExpr::Get(of, m, f) => {
            let field = Boxed::new(alloc, field_name(alloc, s, *m, *f)?)?;
            let of = boxed_expr(alloc, s, of.get())?;
            Ok(Expr::Get(0, of, field))
        }
        TExpr::Eq(a, b, op) => {
            let a = boxed_expr(alloc, s, a.get())?;
            let b = boxed_expr(alloc, s, b.get())?;
            Ok(Expr::Cmp(0, *op, a, b))
        }
        TExpr::Iff(a, b, op) => {
            let a = boxed_expr(alloc, s, a.get())?;
            let b = boxed_expr(alloc, s, b.get())?;
            Ok(Expr::Cmp(0, *op, a, b))
        }
        TExpr::Less(a, b, op) => {
            let a = boxed_expr(alloc, s, a.get())?;
            let b = boxed_expr(alloc, s, b.get())?;
            Ok(ordered(*op, a, b))
        }
        TExpr::Member(of, _, set) => {
            let of = boxed_expr(alloc, s, of.get())?;
            let set = boxed_set(alloc, s, set.get())?;
            Ok(Expr::Member(0, of, set))
        }
        TExpr::Not(inner) => negation(alloc, s, inner.get()),
        TExpr::And(a, b) => {
            let a = boxed_expr(alloc, s, a.get())?;
            let b = boxed_expr(alloc, s, b.get())?;
            Ok(Expr::And(0, a, b))
        }
        TExpr::Or(a, b) => {
            let a = boxed_expr(alloc, s, a.get())?;
            let b = boxed_expr(alloc, s, b.get())?;
            Ok(Expr::Or(0, a, b))
        }
        TExpr::IfE(c, a, b) => {
            let c = boxed_expr(alloc, s, c.get())?;
            let a = boxed_expr(alloc, s, a.get())?;
            let b = boxed_expr(alloc, s, b.get())?;
            Ok(Expr::IfE(0, c, a, b))
        }
        TExpr::MatchE(of, a, name, b) => {
            let name = named(alloc, name.get())?;
            let of = boxed_expr(alloc, s, of.get())?;
            let a = boxed_expr(alloc, s, a.get())?;
            let b = written_expr(alloc, s, b.get())?;
            let some = Boxed::new(alloc, (name, b))?;
            Ok(Expr::MatchE(0, of, a, some))
        }
    }
}

/// An item.
#[cycle(writing)]
fn written_item(alloc: Global, s: &Schema, item: &TItem) -> Result<Item, AllocError>
    ensures { IfOk result (λ x. (rest : plain.Items) →
        rule.written_items (names_in (schema_of s.now)) (view.item_of item.now rest)
        ≡ x ∷ rule.written_items (names_in (schema_of s.now)) rest) }
{
    match item {
        TItem::Static(n) => {
            let name = static_name(alloc, s, *n)?;
            Ok(Item::Static(name))
        }
        TItem::One(_, e) => {
            let of = written_expr(alloc, s, e)?;
            Ok(Item::One(of))
        }
    }
}

/// The items of a list.
#[cycle(writing)]
fn written_items(alloc: Global, s: &Schema, items: &[TItem]) -> Result<Items<Item>, AllocError>
    ensures { IfOk result (λ xs. xs ≡ rule.written_items (names_in (schema_of s.now))
        (view.items_of (map view.item_of items.now))) }
{
    let mut all = Vec::new(alloc);
    for item in items {
        let item = written_item(alloc, s, item)?;
        all.push(item)?;
    }
    Ok(Items::from_vec(all))
}

/// A filter on records of the model.
#[cycle(writing)]
fn written_filter(
    alloc: Global,
    s: &Schema,
    m: ModelNo,
    filter: &TFilter,
) -> Result<Filter, AllocError>
    ensures { IfOk result (λ x. (rest : plain.Filters) →
        rule.written_filters (names_in (schema_of s.now)) m (view.filter_of filter.now rest)
        ≡ x ∷ rule.written_filters (names_in (schema_of s.now)) m rest) }
{
    match filter {
        TFilter::Test(f, op, e) => {
            let field = field_name(alloc, s, m, *f)?;
            let value = written_expr(alloc, s, e)?;
            Ok(Filter {
                field,
                op: *op,
                value,
            })
        }
    }
}

/// Filters on records of the model.
#[cycle(writing)]
fn written_filters(
    alloc: Global,
    s: &Schema,
    m: ModelNo,
    filters: &[TFilter],
) -> Result<Items<Filter>, AllocError>
    ensures { IfOk result (λ xs. xs ≡ rule.written_filters (names_in (schema_of s.now)) m
        (view.filters_of (map view.filter_of filters.now))) }
{
    let mut all = Vec::new(alloc);
    for filter in filters {
        let filter = written_filter(alloc, s, m, filter)?;
        all.push(filter)?;
    }
    Ok(Items::from_vec(all))
}

// Long, since each form of a set has its own arm.
/// The set.
#[cycle(writing)]
pub fn written_set(alloc: Global, s: &Schema, set: &TSet) -> Result<SetExpr, AllocError>
    ensures { IfOk result (λ x. x
        ≡ rule.written_set (names_in (schema_of s.now)) (view.set_of set.now)) }
{
    match set {
        TSet::Everyone => Ok(SetExpr::Everyone(0, 0)),
        TSet::Nobody => Ok(SetExpr::Nobody(0)),
        TSet::List(items) => {
            let items = written_items(alloc, s, items.as_slice())?;
            Ok(SetExpr::List(0, items))
        }
        TSet::Sum(a, b) => {
            let a = boxed_set(alloc, s, a.get())?;
            let b = boxed_set(alloc, s, b.get())?;
            Ok(SetExpr::Sum(0, a, b))
        }
        TSet::Less(a, b) => {
            let a = boxed_set(alloc, s, a.get())?;
            let b = boxed_set(alloc, s, b.get())?;
            Ok(SetExpr::Less(0, a, b))
        }
        TSet::Find(m, filters) => {
            let model = Boxed::new(alloc, model_name(alloc, s, *m)?)?;
            let filters = written_filters(alloc, s, *m, filters.as_slice())?;
            Ok(SetExpr::Find(0, model, filters))
        }
        TSet::Path(_, e) => {
            let e = written_expr(alloc, s, e)?;
            Ok(SetExpr::Path(0, e))
        }
        TSet::MapS(of, _, name, _, e) => {
            let name = boxed_name(alloc, name.get())?;
            let of = boxed_set(alloc, s, of.get())?;
            let e = boxed_expr(alloc, s, e.get())?;
            Ok(SetExpr::MapS(0, of, name, e))
        }
        TSet::FlatS(of, _, name, body) => {
            let name = boxed_name(alloc, name.get())?;
            let of = boxed_set(alloc, s, of.get())?;
            let body = boxed_set(alloc, s, body.get())?;
            Ok(SetExpr::FlatS(0, of, name, body))
        }
        TSet::IfS(c, a, b) => {
            let a = boxed_set(alloc, s, a.get())?;
            let b = boxed_set(alloc, s, b.get())?;
            let c = boxed_expr(alloc, s, c.get())?;
            Ok(SetExpr::IfS(0, c, a, b))
        }
        TSet::MatchS(of, a, name, b) => {
            let name = boxed_name(alloc, name.get())?;
            let a = boxed_set(alloc, s, a.get())?;
            let b = boxed_set(alloc, s, b.get())?;
            let of = boxed_expr(alloc, s, of.get())?;
            Ok(SetExpr::MatchS(0, of, a, name, b))
        }
    }
}
