//! The uses of fields in an initialiser.

ghost use Rattle.std.specs.Prelude.{◌≡◌, [], ◌∷◌, ◌++◌, IfOk, OnOk, map};
ghost use Rattle.type_schema.specs.Trees.{Filters, Items};
ghost use Rattle.type_schema.specs.Uses as rule;
ghost use Rattle.type_schema.specs.Views as view;
ghost use Rattle.duty_listing.specs.Uses.{AreInText, use_data};

use std::alloc::{AllocError, Global};
use text_tree::CmpOp;
use type_schema::{FieldNo, ModelNo, TExpr, TFilter, TInit, TItem, TSet};

/// A use of a field: an access, or a filter on it.
#[derive(Clone, Copy, Debug, PartialEq, Eq)]
pub struct Use {
    pub model: ModelNo,
    pub field: FieldNo,
}

/// Puts a use last.
fn add_use(uses: &mut Vec<Use>, model: ModelNo, field: FieldNo) -> Result<(), AllocError>
    ensures { OnOk result (map use_data uses.new.items
        ≡ map use_data uses.old.items ++ (record { model = model; field = field }) ∷ []) }
{
    uses.push(Use { model, field })?;
    Ok(())
}

/// The two sides of a comparison in the order of the text.
fn in_text<'a>(left: &'a TExpr, right: &'a TExpr, op: CmpOp) -> (&'a TExpr, &'a TExpr)
    ensures { AreInText op left.now right.now result.0.now result.1.now }
{
    match op {
        CmpOp::Le | CmpOp::Gt => (right, left),
        CmpOp::Eq | CmpOp::Ne | CmpOp::Lt | CmpOp::Ge => (left, right),
    }
}

// Long, since each form of an expression has its own arm.
/// Puts the uses in an expression last: inner before outer ones, left before right.
#[cycle(uses)]
fn add_expr(uses: &mut Vec<Use>, e: &TExpr) -> Result<(), AllocError>
    ensures { OnOk result (map use_data uses.new.items
        ≡ map use_data uses.old.items ++ rule.uses_of (view.expr_of e.now)) }
{
    match e {
        TExpr::Flag(_) | TExpr::Num(_) | TExpr::Str(_) | TExpr::Var(..) | TExpr::NoneLit => {}
        TExpr::SomeLit(inner) => add_expr(uses, inner.get())?,
        TExpr::Not(inner) => add_expr(uses, inner.get())?,
        TExpr::Get(of, m, f) => {
            add_expr(uses, of.get())?;
            add_use(uses, *m, *f)?;
        }
        TExpr::Eq(a, b, _) => {
            add_expr(uses, a.get())?;
            add_expr(uses, b.get())?;
        }
        TExpr::Iff(a, b, _) => {
            add_expr(uses, a.get())?;
            add_expr(uses, b.get())?;
        }
        TExpr::And(a, b) => {
            add_expr(uses, a.get())?;
            add_expr(uses, b.get())?;
        }
        TExpr::Or(a, b) => {
            add_expr(uses, a.get())?;
            add_expr(uses, b.get())?;
        }
        TExpr::Less(left, right, op) => {
            let (a, b) = in_text(left.get(), right.get(), *op);
            add_expr(uses, a)?;
            add_expr(uses, b)?;
        }
        TExpr::Member(of, _, set) => {
            add_expr(uses, of.get())?;
            add_set(uses, set.get())?;
        }
        TExpr::IfE(first, a, b) => {
            add_expr(uses, first.get())?;
            add_expr(uses, a.get())?;
            add_expr(uses, b.get())?;
        }
        TExpr::MatchE(first, a, _, b) => {
            add_expr(uses, first.get())?;
            add_expr(uses, a.get())?;
            add_expr(uses, b.get())?;
        }
    }
    Ok(())
}

/// Puts the uses in a set last.
#[cycle(uses)]
fn add_set(uses: &mut Vec<Use>, set: &TSet) -> Result<(), AllocError>
    ensures { OnOk result (map use_data uses.new.items
        ≡ map use_data uses.old.items ++ rule.set_uses_of (view.set_of set.now)) }
{
    match set {
        TSet::Everyone | TSet::Nobody => Ok(()),
        TSet::List(items) => add_items(uses, items.as_slice()),
        TSet::Sum(a, b) => {
            add_set(uses, a.get())?;
            add_set(uses, b.get())
        }
        TSet::Less(a, b) => {
            add_set(uses, a.get())?;
            add_set(uses, b.get())
        }
        TSet::Find(m, filters) => add_filters(uses, *m, filters.as_slice()),
        TSet::Path(_, e) => add_expr(uses, e),
        TSet::MapS(of, _, _, _, e) => {
            add_set(uses, of.get())?;
            add_expr(uses, e.get())
        }
        TSet::FlatS(of, _, _, body) => {
            add_set(uses, of.get())?;
            add_set(uses, body.get())
        }
        TSet::IfS(c, a, b) => {
            add_expr(uses, c.get())?;
            add_set(uses, a.get())?;
            add_set(uses, b.get())
        }
        TSet::MatchS(of, a, _, b) => {
            add_expr(uses, of.get())?;
            add_set(uses, a.get())?;
            add_set(uses, b.get())
        }
    }
}

/// Puts the uses in the items of a list last.
#[cycle(uses)]
fn add_items(uses: &mut Vec<Use>, items: &[TItem]) -> Result<(), AllocError>
    ensures { OnOk result (map use_data uses.new.items ≡ map use_data uses.old.items
        ++ rule.item_uses_of (view.items_of (map view.item_of items.now))) }
{
    for item in items {
        add_item(uses, item)?;
    }
    Ok(())
}

/// Puts the uses in an item last.
#[cycle(uses)]
fn add_item(uses: &mut Vec<Use>, item: &TItem) -> Result<(), AllocError>
    ensures { OnOk result ((rest : Items) → map use_data uses.new.items ++ rule.item_uses_of rest
        ≡ map use_data uses.old.items ++ rule.item_uses_of (view.item_of item.now rest)) }
{
    match item {
        TItem::Static(_) => Ok(()),
        TItem::One(_, e) => add_expr(uses, e),
    }
}

/// Puts the uses in filters on records of a model last, each filter's field behind its value.
#[cycle(uses)]
fn add_filters(uses: &mut Vec<Use>, m: ModelNo, filters: &[TFilter]) -> Result<(), AllocError>
    ensures { OnOk result (map use_data uses.new.items ≡ map use_data uses.old.items
        ++ rule.filter_uses_of m (view.filters_of (map view.filter_of filters.now))) }
{
    for filter in filters {
        add_filter(uses, m, filter)?;
    }
    Ok(())
}

/// Puts the uses in a filter on records of a model last, the filter's field behind its value.
#[cycle(uses)]
fn add_filter(uses: &mut Vec<Use>, m: ModelNo, filter: &TFilter) -> Result<(), AllocError>
    ensures { OnOk result ((rest : Filters)
        → map use_data uses.new.items ++ rule.filter_uses_of m rest
        ≡ map use_data uses.old.items ++ rule.filter_uses_of m (view.filter_of filter.now rest)) }
{
    match filter {
        TFilter::Test(f, _, e) => {
            add_expr(uses, e)?;
            add_use(uses, m, *f)
        }
    }
}

/// The uses of fields in an initialiser, in order.
pub fn uses_in(alloc: Global, init: &TInit) -> Result<Vec<Use>, AllocError>
    ensures { IfOk result (λ uses. map use_data uses.items
        ≡ rule.init_uses_of (view.init_of init.now)) }
{
    let mut uses = Vec::new(alloc);
    match init {
        TInit::Plain(e) => add_expr(&mut uses, e)?,
        TInit::OfSet(_, set) => add_set(&mut uses, set)?,
    }
    Ok(uses)
}
