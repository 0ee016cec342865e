//! The models on which an initialiser has a `Find`.

ghost use Rattle.std.specs.Prelude.{◌≡◌, ◌++◌, IfOk, OnOk, map};
ghost use Rattle.online_meaning.specs.Finds as rule;
ghost use Rattle.type_schema.specs.Trees.{Filters, Items};
ghost use Rattle.type_schema.specs.Views as view;

use std::alloc::{AllocError, Global};
use type_schema::{ModelNo, TExpr, TFilter, TInit, TItem, TSet};

// Long, since each form of an expression has its own arm.
/// Puts the models in an expression last, in the order of its parts.
#[cycle(finds)]
fn add_expr(found: &mut Vec<ModelNo>, e: &TExpr) -> Result<(), AllocError>
    ensures { OnOk result (found.new.items
        ≡ found.old.items ++ rule.finds_of (view.expr_of e.now)) }
{
    match e {
        TExpr::Flag(_) | TExpr::Num(_) | TExpr::Str(_) | TExpr::Var(..) | TExpr::NoneLit => {}
        TExpr::SomeLit(inner) => add_expr(found, inner.get())?,
        TExpr::Not(inner) => add_expr(found, inner.get())?,
        TExpr::Get(of, _, _) => add_expr(found, of.get())?,
        TExpr::Eq(a, b, _) => {
            add_expr(found, a.get())?;
            add_expr(found, b.get())?;
        }
        TExpr::Iff(a, b, _) => {
            add_expr(found, a.get())?;
            add_expr(found, b.get())?;
        }
        TExpr::And(a, b) => {
            add_expr(found, a.get())?;
            add_expr(found, b.get())?;
        }
        TExpr::Or(a, b) => {
            add_expr(found, a.get())?;
            add_expr(found, b.get())?;
        }
        TExpr::Less(a, b, _) => {
            add_expr(found, a.get())?;
            add_expr(found, b.get())?;
        }
        TExpr::Member(of, _, set) => {
            add_expr(found, of.get())?;
            add_set(found, set.get())?;
        }
        TExpr::IfE(first, a, b) => {
            add_expr(found, first.get())?;
            add_expr(found, a.get())?;
            add_expr(found, b.get())?;
        }
        TExpr::MatchE(first, a, _, b) => {
            add_expr(found, first.get())?;
            add_expr(found, a.get())?;
            add_expr(found, b.get())?;
        }
    }
    Ok(())
}

/// Puts the models in a set last.
#[cycle(finds)]
fn add_set(found: &mut Vec<ModelNo>, set: &TSet) -> Result<(), AllocError>
    ensures { OnOk result (found.new.items
        ≡ found.old.items ++ rule.set_finds_of (view.set_of set.now)) }
{
    match set {
        TSet::Everyone | TSet::Nobody => Ok(()),
        TSet::List(items) => add_items(found, items.as_slice()),
        TSet::Sum(a, b) => {
            add_set(found, a.get())?;
            add_set(found, b.get())
        }
        TSet::Less(a, b) => {
            add_set(found, a.get())?;
            add_set(found, b.get())
        }
        TSet::Find(m, filters) => {
            found.push(*m)?;
            add_filters(found, filters.as_slice())
        }
        TSet::Path(_, e) => add_expr(found, e),
        TSet::MapS(of, _, _, _, e) => {
            add_set(found, of.get())?;
            add_expr(found, e.get())
        }
        TSet::FlatS(of, _, _, body) => {
            add_set(found, of.get())?;
            add_set(found, body.get())
        }
        TSet::IfS(c, a, b) => {
            add_expr(found, c.get())?;
            add_set(found, a.get())?;
            add_set(found, b.get())
        }
        TSet::MatchS(of, a, _, b) => {
            add_expr(found, of.get())?;
            add_set(found, a.get())?;
            add_set(found, b.get())
        }
    }
}

/// Puts the models in the items of a list last.
#[cycle(finds)]
fn add_items(found: &mut Vec<ModelNo>, items: &[TItem]) -> Result<(), AllocError>
    ensures { OnOk result (found.new.items
        ≡ found.old.items
        ++ rule.item_finds_of (view.items_of (map view.item_of items.now))) }
{
    for item in items {
        add_item(found, item)?;
    }
    Ok(())
}

/// Puts the models in an item last.
#[cycle(finds)]
fn add_item(found: &mut Vec<ModelNo>, item: &TItem) -> Result<(), AllocError>
    ensures { OnOk result ((rest : Items) → found.new.items ++ rule.item_finds_of rest
        ≡ found.old.items ++ rule.item_finds_of (view.item_of item.now rest)) }
{
    match item {
        TItem::Static(_) => Ok(()),
        TItem::One(_, e) => add_expr(found, e),
    }
}

/// Puts the models in filters last.
#[cycle(finds)]
fn add_filters(found: &mut Vec<ModelNo>, filters: &[TFilter]) -> Result<(), AllocError>
    ensures { OnOk result (found.new.items
        ≡ found.old.items
        ++ rule.filter_finds_of (view.filters_of (map view.filter_of filters.now))) }
{
    for filter in filters {
        add_filter(found, filter)?;
    }
    Ok(())
}

/// Puts the models in a filter last.
#[cycle(finds)]
fn add_filter(found: &mut Vec<ModelNo>, filter: &TFilter) -> Result<(), AllocError>
    ensures { OnOk result ((rest : Filters) → found.new.items ++ rule.filter_finds_of rest
        ≡ found.old.items ++ rule.filter_finds_of (view.filter_of filter.now rest)) }
{
    match filter {
        TFilter::Test(_, _, e) => add_expr(found, e),
    }
}

/// The models on which the initialiser has a `Find`, one for each, in the order of its parts.
pub fn finds_in(alloc: Global, init: &TInit) -> Result<Vec<ModelNo>, AllocError>
    ensures { IfOk result (λ found. found.items
        ≡ rule.init_finds_of (view.init_of init.now)) }
{
    let mut found = Vec::new(alloc);
    match init {
        TInit::Plain(e) => add_expr(&mut found, e)?,
        TInit::OfSet(_, set) => add_set(&mut found, set)?,
    }
    Ok(found)
}
