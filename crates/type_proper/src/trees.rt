//! The literals of expressions, sets, policies and initialisers.

ghost use Rattle.std.specs.Prelude.{map};
ghost use Rattle.type_schema.specs.Trees.{Filters, Items};
ghost use Rattle.type_schema.specs.Views as view;
ghost use Rattle.type_typing.specs.WellTyped as rule;

use type_schema::{TExpr, TFilter, TInit, TItem, TPolicy, TSet};

/// Reads the literals of an expression.
#[cycle(literals)]
fn read_expr(e: &TExpr)
    ensures { rule.HasLiterals (view.expr_of e.now) }
{
    match e {
        TExpr::Flag(_) | TExpr::Var(..) | TExpr::NoneLit => {}
        TExpr::Num(n) => {
            let _number = *n;
        }
        TExpr::Str(text) => {
            let _bytes = text.bytes();
        }
        TExpr::SomeLit(inner) | TExpr::Get(inner, _, _) | TExpr::Not(inner) => {
            read_expr(inner.get());
        }
        TExpr::Eq(a, b, _)
        | TExpr::Iff(a, b, _)
        | TExpr::Less(a, b, _)
        | TExpr::And(a, b)
        | TExpr::Or(a, b) => {
            read_expr(a.get());
            read_expr(b.get());
        }
        TExpr::Member(of, _, set) => {
            read_expr(of.get());
            read_set(set.get());
        }
        TExpr::IfE(first, a, b) | TExpr::MatchE(first, a, _, b) => {
            read_expr(first.get());
            read_expr(a.get());
            read_expr(b.get());
        }
    }
}

/// Reads the literals of a set.
#[cycle(literals)]
fn read_set(set: &TSet)
    ensures { rule.SetHasLiterals (view.set_of set.now) }
{
    match set {
        TSet::Everyone | TSet::Nobody => {}
        TSet::List(items) => read_items(items.as_slice()),
        TSet::Sum(a, b) | TSet::Less(a, b) => {
            read_set(a.get());
            read_set(b.get());
        }
        TSet::Find(_, filters) => read_filters(filters.as_slice()),
        TSet::Path(_, e) => read_expr(e),
        TSet::MapS(of, _, _, _, e) => {
            read_set(of.get());
            read_expr(e.get());
        }
        TSet::FlatS(of, _, _, body) => {
            read_set(of.get());
            read_set(body.get());
        }
        TSet::IfS(first, a, b) | TSet::MatchS(first, a, _, b) => {
            read_expr(first.get());
            read_set(a.get());
            read_set(b.get());
        }
    }
}

/// Reads the literals of the items of a list.
#[cycle(literals)]
fn read_items(items: &[TItem])
    ensures { rule.ItemsHaveLiterals (view.items_of (map view.item_of items.now)) }
{
    for item in items {
        read_item(item);
    }
}

/// Reads the literals of an item.
#[cycle(literals)]
fn read_item(item: &TItem)
    ensures { (rest : Items) → rule.ItemsHaveLiterals rest
        → rule.ItemsHaveLiterals (view.item_of item.now rest) }
{
    match item {
        TItem::Static(_) => {}
        TItem::One(_, e) => read_expr(e),
    }
}

/// Reads the literals of filters.
#[cycle(literals)]
fn read_filters(filters: &[TFilter])
    ensures { rule.FiltersHaveLiterals (view.filters_of (map view.filter_of filters.now)) }
{
    for filter in filters {
        read_filter(filter);
    }
}

/// Reads the literals of a filter.
#[cycle(literals)]
fn read_filter(filter: &TFilter)
    ensures { (rest : Filters) → rule.FiltersHaveLiterals rest
        → rule.FiltersHaveLiterals (view.filter_of filter.now rest) }
{
    match filter {
        TFilter::Test(_, _, e) => read_expr(e),
    }
}

/// The literals of a policy are values.
pub(crate) fn policy_has_literals(policy: &TPolicy)
    ensures { rule.PolicyHasLiterals (view.policy_of policy.now) }
{
    match policy {
        TPolicy::Everyone | TPolicy::Nobody => {}
        TPolicy::Fun(_, set) => read_set(set),
    }
}

/// The literals of an initialiser are values.
pub(crate) fn init_has_literals(init: &TInit)
    ensures { rule.InitHasLiterals (view.init_of init.now) }
{
    match init {
        TInit::Plain(e) => read_expr(e),
        TInit::OfSet(_, set) => read_set(set),
    }
}
