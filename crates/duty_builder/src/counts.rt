//! How many uses of fields there are.

ghost use Rattle.std.specs.Prelude.{◌≡◌, ℕ, ◌+◌, length, map, IfOk};
ghost use Rattle.type_schema.specs.Trees.{Filters, Items};
ghost use Rattle.type_schema.specs.Uses.{uses_of, set_uses_of, item_uses_of, filter_uses_of};
ghost use Rattle.type_schema.specs.Uses.{init_uses_of};
ghost use Rattle.type_schema.specs.Views.{expr_of, set_of, item_of, items_of, filter_of, filters_of};
ghost use Rattle.type_schema.specs.Views.{init_of};

use std::alloc::AllocError;
use type_schema::{TExpr, TFilter, TInit, TItem, TSet};

/// One more.
fn one_more(before: usize) -> Result<usize, AllocError>
    ensures { IfOk result (λ count. count ≡ before + 1) }
{
    before.checked_add(1).ok_or(AllocError)
}

/// So many, and those in an expression.
#[cycle(counts)]
pub(crate) fn count_expr(e: &TExpr, before: usize) -> Result<usize, AllocError>
    ensures { IfOk result (λ count. count ≡ before + length (uses_of (expr_of e.now))) }
{
    match e {
        TExpr::Flag(_) | TExpr::Num(_) | TExpr::Str(_) | TExpr::Var(..) | TExpr::NoneLit => {
            Ok(before)
        }
        TExpr::SomeLit(a) => count_expr(a.get(), before),
        TExpr::Not(a) => count_expr(a.get(), before),
        TExpr::Get(of, ..) => { one_more(count_expr(of.get(), before)?) }
        TExpr::Eq(a, b, _) => count_expr(b.get(), count_expr(a.get(), before)?),
        TExpr::Iff(a, b, _) => count_expr(b.get(), count_expr(a.get(), before)?),
        TExpr::Less(a, b, _) => count_expr(b.get(), count_expr(a.get(), before)?),
        TExpr::And(a, b) => count_expr(b.get(), count_expr(a.get(), before)?),
        TExpr::Or(a, b) => count_expr(b.get(), count_expr(a.get(), before)?),
        TExpr::Member(of, _, set) => {
            let count = count_expr(of.get(), before)?;
            count_set(set.get(), count)
        }
        TExpr::IfE(first, a, b) => {
            let count = count_expr(first.get(), before)?;
            count_expr(b.get(), count_expr(a.get(), count)?)
        }
        TExpr::MatchE(first, a, _, b) => {
            let count = count_expr(first.get(), before)?;
            count_expr(b.get(), count_expr(a.get(), count)?)
        }
    }
}

/// So many, and those in a set.
#[cycle(counts)]
pub(crate) fn count_set(set: &TSet, before: usize) -> Result<usize, AllocError>
    ensures { IfOk result (λ count. count ≡ before + length (set_uses_of (set_of set.now))) }
{
    match set {
        TSet::Everyone | TSet::Nobody => Ok(before),
        TSet::List(items) => count_items(items.as_slice(), before),
        TSet::Sum(a, b) => count_set(b.get(), count_set(a.get(), before)?),
        TSet::Less(a, b) => count_set(b.get(), count_set(a.get(), before)?),
        TSet::Find(_, filters) => count_filters(filters.as_slice(), before),
        TSet::Path(_, e) => count_expr(e, before),
        TSet::MapS(of, _, _, _, e) => {
            let count = count_set(of.get(), before)?;
            count_expr(e.get(), count)
        }
        TSet::FlatS(of, _, _, body) => count_set(body.get(), count_set(of.get(), before)?),
        TSet::IfS(c, a, b) => {
            let count = count_expr(c.get(), before)?;
            count_set(b.get(), count_set(a.get(), count)?)
        }
        TSet::MatchS(of, a, _, b) => {
            let count = count_expr(of.get(), before)?;
            count_set(b.get(), count_set(a.get(), count)?)
        }
    }
}

/// So many, and those in the items of a list.
#[cycle(counts)]
fn count_items(items: &[TItem], before: usize) -> Result<usize, AllocError>
    ensures { IfOk result (λ count. count
        ≡ before + length (item_uses_of (items_of (map item_of items.now)))) }
{
    let mut count = before;
    for item in items {
        count = count_item(item, count)?;
    }
    Ok(count)
}

/// So many, and those in an item.
#[cycle(counts)]
pub(crate) fn count_item(item: &TItem, before: usize) -> Result<usize, AllocError>
    ensures { IfOk result (λ count. (rest : Items) → count + length (item_uses_of rest)
        ≡ before + length (item_uses_of (item_of item.now rest))) }
{
    match item {
        TItem::Static(_) => Ok(before),
        TItem::One(_, e) => count_expr(e, before),
    }
}

/// So many, and those in filters on records of a model.
#[cycle(counts)]
fn count_filters(filters: &[TFilter], before: usize) -> Result<usize, AllocError>
    ensures { IfOk result (λ count. (m : ℕ) → count
        ≡ before + length (filter_uses_of m (filters_of (map filter_of filters.now)))) }
{
    let mut count = before;
    for filter in filters {
        count = count_filter(filter, count)?;
    }
    Ok(count)
}

/// So many, and those in the value of a filter, and its field.
#[cycle(counts)]
fn count_filter(filter: &TFilter, before: usize) -> Result<usize, AllocError>
    ensures { IfOk result (λ count. (m : ℕ) (rest : Filters) →
        count + length (filter_uses_of m rest)
        ≡ before + length (filter_uses_of m (filter_of filter.now rest))) }
{
    match filter {
        TFilter::Test(_, _, e) => {
            let count = count_expr(e, before)?;
            one_more(count)
        }
    }
}

/// Those in an initialiser.
pub(crate) fn count_init(init: &TInit) -> Result<usize, AllocError>
    ensures { IfOk result (λ count. count ≡ length (init_uses_of (init_of init.now))) }
{
    match init {
        TInit::Plain(e) => count_expr(e, 0),
        TInit::OfSet(_, set) => count_set(set, 0),
    }
}
