//! What trees and types use.

ghost use Rattle.std.specs.Prelude.{◌≡◌, ◌||◌, map};
ghost use Rattle.type_schema.specs.Trees.{Items, Filters};
ghost use Rattle.type_schema.specs.Views as view;
ghost use Rattle.type_commands.specs.Users as rule;

use crate::thing::Thing;
use type_schema::{FieldNo, ModelNo, StaticNo, TBase, TExpr, TFilter, TItem, TPolicy, TSet, TTy};

impl Thing {
    /// Whether it is this field of this model.
    fn is_field(self, model: ModelNo, field: FieldNo) -> bool
        ensures { result ≡ rule.is_field self model field }
    {
        match self {
            Thing::Field(m, f) => m == model && f == field,
            Thing::Model(_) | Thing::Static(_) => false,
        }
    }

    /// Whether it is this model.
    fn is_model(self, model: ModelNo) -> bool
        ensures { result ≡ rule.is_model self model }
    {
        match self {
            Thing::Model(m) => m == model,
            Thing::Field(..) | Thing::Static(_) => false,
        }
    }

    /// Whether it is this static.
    fn is_static(self, number: StaticNo) -> bool
        ensures { result ≡ rule.is_static self number }
    {
        match self {
            Thing::Static(n) => n == number,
            Thing::Field(..) | Thing::Model(_) => false,
        }
    }
}

/// Whether an expression reads the field, seeks records of the model or lists the static.
#[cycle(uses)]
fn expr_uses(e: &TExpr, thing: Thing) -> bool
    ensures { result ≡ rule.expr_uses thing (view.expr_of e.now) }
{
    match e {
        TExpr::Flag(_) | TExpr::Num(_) | TExpr::Str(_) | TExpr::Var(..) | TExpr::NoneLit => false,
        TExpr::SomeLit(inner) => expr_uses(inner.get(), thing),
        TExpr::Get(of, m, f) => expr_uses(of.get(), thing) || thing.is_field(*m, *f),
        TExpr::Eq(a, b, _) => expr_uses(a.get(), thing) || expr_uses(b.get(), thing),
        TExpr::Iff(a, b, _) => expr_uses(a.get(), thing) || expr_uses(b.get(), thing),
        TExpr::Less(a, b, _) => expr_uses(a.get(), thing) || expr_uses(b.get(), thing),
        TExpr::Member(of, _, set) => expr_uses(of.get(), thing) || set_uses(set.get(), thing),
        TExpr::Not(inner) => expr_uses(inner.get(), thing),
        TExpr::And(a, b) => expr_uses(a.get(), thing) || expr_uses(b.get(), thing),
        TExpr::Or(a, b) => expr_uses(a.get(), thing) || expr_uses(b.get(), thing),
        TExpr::IfE(c, a, b) => {
            expr_uses(c.get(), thing) || expr_uses(a.get(), thing) || expr_uses(b.get(), thing)
        }
        TExpr::MatchE(of, a, _, b) => {
            expr_uses(of.get(), thing) || expr_uses(a.get(), thing) || expr_uses(b.get(), thing)
        }
    }
}

/// The same of a set.
#[cycle(uses)]
fn set_uses(set: &TSet, thing: Thing) -> bool
    ensures { result ≡ rule.set_uses thing (view.set_of set.now) }
{
    match set {
        TSet::Everyone | TSet::Nobody => false,
        TSet::List(items) => items_use(items.as_slice(), thing),
        TSet::Sum(a, b) => set_uses(a.get(), thing) || set_uses(b.get(), thing),
        TSet::Less(a, b) => set_uses(a.get(), thing) || set_uses(b.get(), thing),
        TSet::Find(m, filters) => {
            thing.is_model(*m) || filters_use(filters.as_slice(), *m, thing)
        }
        TSet::Path(_, e) => expr_uses(e, thing),
        TSet::MapS(of, _, _, _, e) => set_uses(of.get(), thing) || expr_uses(e.get(), thing),
        TSet::FlatS(of, _, _, body) => set_uses(of.get(), thing) || set_uses(body.get(), thing),
        TSet::IfS(c, a, b) => {
            expr_uses(c.get(), thing) || set_uses(a.get(), thing) || set_uses(b.get(), thing)
        }
        TSet::MatchS(of, a, _, b) => {
            expr_uses(of.get(), thing) || set_uses(a.get(), thing) || set_uses(b.get(), thing)
        }
    }
}

/// The same of the items of a list.
#[cycle(uses)]
fn items_use(items: &[TItem], thing: Thing) -> bool
    ensures { result ≡ rule.items_use thing (view.items_of (map view.item_of items.now)) }
{
    for item in items {
        if item_uses(item, thing) {
            return true;
        }
    }
    false
}

/// The same of an item.
#[cycle(uses)]
fn item_uses(item: &TItem, thing: Thing) -> bool
    ensures { (rest : Items) → rule.items_use thing (view.item_of item.now rest)
        ≡ (result || rule.items_use thing rest) }
{
    match item {
        TItem::Static(n) => thing.is_static(*n),
        TItem::One(_, e) => expr_uses(e, thing),
    }
}

/// The same of filters on records of the model.
#[cycle(uses)]
fn filters_use(filters: &[TFilter], model: ModelNo, thing: Thing) -> bool
    ensures { result
        ≡ rule.filters_use thing model (view.filters_of (map view.filter_of filters.now)) }
{
    for filter in filters {
        if filter_uses(filter, model, thing) {
            return true;
        }
    }
    false
}

/// The same of a filter on records of the model.
#[cycle(uses)]
fn filter_uses(filter: &TFilter, model: ModelNo, thing: Thing) -> bool
    ensures { (rest : Filters) → rule.filters_use thing model (view.filter_of filter.now rest)
        ≡ (result || rule.filters_use thing model rest) }
{
    match filter {
        TFilter::Test(f, _, e) => thing.is_field(model, *f) || expr_uses(e, thing),
    }
}

/// The same of a policy.
pub fn policy_uses(policy: &TPolicy, thing: Thing) -> bool
    ensures { result ≡ rule.policy_uses thing (view.policy_of policy.now) }
{
    match policy {
        TPolicy::Everyone | TPolicy::Nobody => false,
        TPolicy::Fun(_, set) => set_uses(set, thing),
    }
}

/// Whether a base type is ids of the model.
fn base_uses(base: TBase, thing: Thing) -> bool
    ensures { result ≡ rule.base_uses thing base }
{
    match base {
        TBase::Bool | TBase::Int | TBase::Text => false,
        TBase::Id(m) => thing.is_model(m),
    }
}

/// Whether a type has ids of the model.
pub fn type_uses(ty: TTy, thing: Thing) -> bool
    ensures { result ≡ rule.type_uses thing ty }
{
    match ty {
        TTy::Plain(base) | TTy::Opt(base) => base_uses(base, thing),
        TTy::Set(m) => thing.is_model(m),
    }
}
