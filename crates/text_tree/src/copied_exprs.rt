//! Copies of expressions and sets.

ghost use Rattle.std.specs.Prelude.{◌≡◌, IfOk};

use crate::copied::Copied;
use crate::{Expr, Filter, Item, Named, SetExpr};
use sqlite_items::{Boxed, Items};
use std::alloc::{AllocError, Global};
use text_ast::Txt;

/// An equal text in a box.
fn boxed_text(alloc: Global, text: &Txt) -> Result<Boxed<Txt>, AllocError>
    ensures { IfOk result (λ copy. copy ≡ text.now) }
{
    let copy = text.copy(alloc)?;
    Boxed::new(alloc, copy)
}

/// An equal name in a box.
fn boxed_name(alloc: Global, name: &Named) -> Result<Boxed<Named>, AllocError>
    ensures { IfOk result (λ copy. copy ≡ name.now) }
{
    let copy = name.copy(alloc)?;
    Boxed::new(alloc, copy)
}

/// An equal expression in a box.
#[cycle(copies)]
fn boxed_expr(alloc: Global, e: &Expr) -> Result<Boxed<Expr>, AllocError>
    ensures { IfOk result (λ copy. copy ≡ e.now) }
{
    let copy = copy_expr(alloc, e)?;
    Boxed::new(alloc, copy)
}

/// An equal set in a box.
#[cycle(copies)]
fn boxed_set(alloc: Global, set: &SetExpr) -> Result<Boxed<SetExpr>, AllocError>
    ensures { IfOk result (λ copy. copy ≡ set.now) }
{
    let copy = copy_set(alloc, set)?;
    Boxed::new(alloc, copy)
}

// Long, since each form of an expression has its own arm.
/// An equal expression.
#[cycle(copies)]
fn copy_expr(alloc: Global, e: &Expr) -> Result<Expr, AllocError>
    ensures { IfOk result (λ copy. copy ≡ e.now) }
{
    match e {
        Expr::Flag(at, value) => Ok(Expr::Flag(*at, *value)),
        Expr::Num(at, value) => Ok(Expr::Num(*at, *value)),
        Expr::Str(at, text) => {
            let text = boxed_text(alloc, text.get())?;
            Ok(Expr::Str(*at, text))
        }
        Expr::Var(at, name) => {
            let name = name.copy(alloc)?;
            Ok(Expr::Var(*at, name))
        }
        Expr::NoneLit(at) => Ok(Expr::NoneLit(*at)),
        Expr::SomeLit(at, inner) => {
            let inner = boxed_expr(alloc, inner.get())?;
            Ok(Expr::SomeLit(*at, inner))
        }
        Expr::Get(at, of, field) => {
            let field = boxed_name(alloc, field.get())?;
            let of = boxed_expr(alloc, of.get())?;
            Ok(Expr::Get(*at, of, field))
        }
        Expr::Cmp(at, op, left, right) => {
            let left = boxed_expr(alloc, left.get())?;
            let right = boxed_expr(alloc, right.get())?;
            Ok(Expr::Cmp(*at, *op, left, right))
        }
        Expr::Member(at, of, set) => {
            let of = boxed_expr(alloc, of.get())?;
            let set = boxed_set(alloc, set.get())?;
            Ok(Expr::Member(*at, of, set))
        }
        Expr::Not(at, inner) => {
            let inner = boxed_expr(alloc, inner.get())?;
            Ok(Expr::Not(*at, inner))
        }
        Expr::And(at, left, right) => {
            let left = boxed_expr(alloc, left.get())?;
            let right = boxed_expr(alloc, right.get())?;
            Ok(Expr::And(*at, left, right))
        }
        Expr::Or(at, left, right) => {
            let left = boxed_expr(alloc, left.get())?;
            let right = boxed_expr(alloc, right.get())?;
            Ok(Expr::Or(*at, left, right))
        }
        Expr::IfE(at, test, one, other) => {
            let test = boxed_expr(alloc, test.get())?;
            let one = boxed_expr(alloc, one.get())?;
            let other = boxed_expr(alloc, other.get())?;
            Ok(Expr::IfE(*at, test, one, other))
        }
        Expr::MatchE(at, of, none, some) => {
            let (name, each) = some.get();
            let name = name.copy(alloc)?;
            let of = boxed_expr(alloc, of.get())?;
            let none = boxed_expr(alloc, none.get())?;
            let each = copy_expr(alloc, each)?;
            let some = Boxed::new(alloc, (name, each))?;
            Ok(Expr::MatchE(*at, of, none, some))
        }
    }
}

/// An equal item of a list.
#[cycle(copies)]
fn copy_item(alloc: Global, item: &Item) -> Result<Item, AllocError>
    ensures { IfOk result (λ copy. copy ≡ item.now) }
{
    match item {
        Item::Static(name) => {
            let name = name.copy(alloc)?;
            Ok(Item::Static(name))
        }
        Item::One(of) => {
            let of = copy_expr(alloc, of)?;
            Ok(Item::One(of))
        }
    }
}

/// Equal items, in the same order.
#[cycle(copies)]
fn copy_items(alloc: Global, items: &[Item]) -> Result<Items<Item>, AllocError>
    ensures { IfOk result (λ copies. copies ≡ items.now) }
{
    let mut copies = Vec::new(alloc);
    for item in items {
        let copy = copy_item(alloc, item)?;
        copies.push(copy)?;
    }
    Ok(Items::from_vec(copies))
}

/// An equal filter.
#[cycle(copies)]
fn copy_filter(alloc: Global, filter: &Filter) -> Result<Filter, AllocError>
    ensures { IfOk result (λ copy. copy ≡ filter.now) }
{
    let field = filter.field.copy(alloc)?;
    let value = copy_expr(alloc, &filter.value)?;
    Ok(Filter {
        field,
        op: filter.op,
        value,
    })
}

/// Equal filters, in the same order.
#[cycle(copies)]
fn copy_filters(alloc: Global, filters: &[Filter]) -> Result<Items<Filter>, AllocError>
    ensures { IfOk result (λ copies. copies ≡ filters.now) }
{
    let mut copies = Vec::new(alloc);
    for filter in filters {
        let copy = copy_filter(alloc, filter)?;
        copies.push(copy)?;
    }
    Ok(Items::from_vec(copies))
}

// Long, since each form of a set has its own arm.
/// An equal set.
#[cycle(copies)]
fn copy_set(alloc: Global, set: &SetExpr) -> Result<SetExpr, AllocError>
    ensures { IfOk result (λ copy. copy ≡ set.now) }
{
    match set {
        SetExpr::Everyone(at, word) => Ok(SetExpr::Everyone(*at, *word)),
        SetExpr::Nobody(at) => Ok(SetExpr::Nobody(*at)),
        SetExpr::List(at, items) => {
            let items = copy_items(alloc, items.as_slice())?;
            Ok(SetExpr::List(*at, items))
        }
        SetExpr::Sum(at, left, right) => {
            let left = boxed_set(alloc, left.get())?;
            let right = boxed_set(alloc, right.get())?;
            Ok(SetExpr::Sum(*at, left, right))
        }
        SetExpr::Less(at, left, right) => {
            let left = boxed_set(alloc, left.get())?;
            let right = boxed_set(alloc, right.get())?;
            Ok(SetExpr::Less(*at, left, right))
        }
        SetExpr::Find(at, model, filters) => {
            let model = boxed_name(alloc, model.get())?;
            let filters = copy_filters(alloc, filters.as_slice())?;
            Ok(SetExpr::Find(*at, model, filters))
        }
        SetExpr::Path(at, path) => {
            let path = copy_expr(alloc, path)?;
            Ok(SetExpr::Path(*at, path))
        }
        SetExpr::MapS(at, of, name, each) => {
            let name = boxed_name(alloc, name.get())?;
            let of = boxed_set(alloc, of.get())?;
            let each = boxed_expr(alloc, each.get())?;
            Ok(SetExpr::MapS(*at, of, name, each))
        }
        SetExpr::FlatS(at, of, name, each) => {
            let name = boxed_name(alloc, name.get())?;
            let of = boxed_set(alloc, of.get())?;
            let each = boxed_set(alloc, each.get())?;
            Ok(SetExpr::FlatS(*at, of, name, each))
        }
        SetExpr::IfS(at, test, one, other) => {
            let one = boxed_set(alloc, one.get())?;
            let other = boxed_set(alloc, other.get())?;
            let test = boxed_expr(alloc, test.get())?;
            Ok(SetExpr::IfS(*at, test, one, other))
        }
        SetExpr::MatchS(at, of, none, name, some) => {
            let name = boxed_name(alloc, name.get())?;
            let none = boxed_set(alloc, none.get())?;
            let some = boxed_set(alloc, some.get())?;
            let of = boxed_expr(alloc, of.get())?;
            Ok(SetExpr::MatchS(*at, of, none, name, some))
        }
    }
}

impl Copied for Expr {
    fn copy(&self, alloc: Global) -> Result<Expr, AllocError> {
        copy_expr(alloc, self)
    }
}

impl Copied for SetExpr {
    fn copy(&self, alloc: Global) -> Result<SetExpr, AllocError> {
        copy_set(alloc, self)
    }
}

impl Copied for Item {
    fn copy(&self, alloc: Global) -> Result<Item, AllocError> {
        copy_item(alloc, self)
    }
}

impl Copied for Filter {
    fn copy(&self, alloc: Global) -> Result<Filter, AllocError> {
        copy_filter(alloc, self)
    }
}
