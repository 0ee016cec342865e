//! The types of expressions and sets. Parts are typed from the left, then the whole.

ghost use Rattle.type_typing.specs.Exprs as spec;
ghost use Rattle.type_typing.specs.Names.{plain_of};
ghost use Rattle.type_typing.specs.Outcome.{Gives};

use crate::asked::{Content, Source, Typed, base_of, id_asked, id_of, inner_asked, option_of};
use crate::compared::{left_asked, tested};
use crate::names::field_of_model;
use crate::nodes::{
    both, cases, choice, comparison, either, field_of, fit, just, negation, none_of, text_of,
    variable, within,
};
use crate::set_nodes::{
    boxed, chain, choice_of_sets, everyone, flat_mapped, found, listed_record, listed_static,
    mapped, path, set_cases,
};
use crate::type_err::TypeErr;
use crate::types::typed_model;
use crate::vars::{Var, under};
use sqlite_items::{Boxed, Items};
use std::alloc::Global;
use text_tree::{Expr, Filter, Item, SetExpr};
use type_schema::{ModelNo, Schema, TBase, TExpr, TFilter, TItem, TSet, TTy};

const BOOL: TTy = TTy::Plain(TBase::Bool);

// Long, since each form of an expression has its own arm.
/// An expression, where this type is asked, or none.
#[cycle(typing)]
pub fn typed_expr(
    alloc: Global,
    schema: &Schema,
    vars: &[Var],
    asked: Option<TTy>,
    e: &Expr,
) -> Result<Typed, TypeErr>
    ensures { Gives (spec.typed_expr (plain_of schema.now) vars.now asked e.now) result }
{
    match e {
        Expr::Flag(at, value) => fit(alloc, asked, *at, BOOL, TExpr::Flag(*value)),
        Expr::Num(at, value) => {
            fit(
                alloc,
                asked,
                *at,
                TTy::Plain(TBase::Int),
                TExpr::Num(*value),
            )
        }
        Expr::Str(at, text) => text_of(alloc, asked, *at, text.get()),
        Expr::Var(at, x) => variable(alloc, vars, asked, *at, x),
        Expr::NoneLit(at) => none_of(alloc, asked, *at),
        Expr::SomeLit(at, e) => {
            let inner = typed_expr(alloc, schema, vars, inner_asked(asked), e.get())?;
            just(alloc, asked, *at, inner)
        }
        Expr::Get(at, e, field) => {
            let of = typed_expr(alloc, schema, vars, None, e.get())?;
            field_of(alloc, schema, asked, *at, of, field.get())
        }
        Expr::Cmp(at, op, a, b) => {
            let left = typed_expr(alloc, schema, vars, left_asked(*op), a.get())?;
            let base = base_of(left.ty, left.at)?;
            let right = typed_expr(alloc, schema, vars, Some(left.ty), b.get())?;
            comparison(alloc, asked, *at, *op, base, left, right)
        }
        Expr::Member(at, e, set) => {
            let of = typed_expr(alloc, schema, vars, None, e.get())?;
            let model = id_of(of.ty, of.at)?;
            let set = typed_set(alloc, schema, vars, Content::Records(model), set.get())?;
            within(alloc, asked, *at, of, model, set)
        }
        Expr::Not(at, e) => {
            let inner = typed_expr(alloc, schema, vars, Some(BOOL), e.get())?;
            negation(alloc, asked, *at, inner)
        }
        Expr::And(at, a, b) => {
            let left = typed_expr(alloc, schema, vars, Some(BOOL), a.get())?;
            let right = typed_expr(alloc, schema, vars, Some(BOOL), b.get())?;
            both(alloc, asked, *at, left, right)
        }
        Expr::Or(at, a, b) => {
            let left = typed_expr(alloc, schema, vars, Some(BOOL), a.get())?;
            let right = typed_expr(alloc, schema, vars, Some(BOOL), b.get())?;
            either(alloc, asked, *at, left, right)
        }
        Expr::IfE(at, c, a, b) => {
            let test = typed_expr(alloc, schema, vars, Some(BOOL), c.get())?;
            let one = typed_expr(alloc, schema, vars, asked, a.get())?;
            let other = typed_expr(alloc, schema, vars, Some(one.ty), b.get())?;
            choice(alloc, *at, test, one, other)
        }
        Expr::MatchE(at, e, a, branch) => {
            let (x, b) = branch.get();
            let of = typed_expr(alloc, schema, vars, None, e.get())?;
            let inside = option_of(of.ty, of.at)?;
            let none = typed_expr(alloc, schema, vars, asked, a.get())?;
            let inner = under(alloc, vars, x, TTy::Plain(inside))?;
            let some = typed_expr(alloc, schema, inner.as_slice(), Some(none.ty), b)?;
            cases(alloc, *at, of, none, x, some)
        }
    }
}

// Long, since each form of a set has its own arm.
/// A set that is asked for this content.
#[cycle(typing)]
pub fn typed_set(
    alloc: Global,
    schema: &Schema,
    vars: &[Var],
    content: Content,
    set: &SetExpr,
) -> Result<Boxed<TSet>, TypeErr>
    ensures { Gives (spec.typed_set (plain_of schema.now) vars.now content set.now) result }
{
    match set {
        SetExpr::Everyone(_, word) => everyone(alloc, content, *word),
        SetExpr::Nobody(_) => boxed(alloc, TSet::Nobody),
        SetExpr::List(_, items) => {
            let items = typed_items(alloc, schema, vars, content, items.as_slice())?;
            boxed(alloc, TSet::List(items))
        }
        SetExpr::Sum(_, a, b) => {
            let left = typed_set(alloc, schema, vars, content, a.get())?;
            let right = typed_set(alloc, schema, vars, content, b.get())?;
            boxed(alloc, TSet::Sum(left, right))
        }
        SetExpr::Less(_, a, b) => {
            let left = typed_set(alloc, schema, vars, content, a.get())?;
            let right = typed_set(alloc, schema, vars, content, b.get())?;
            boxed(alloc, TSet::Less(left, right))
        }
        SetExpr::Find(..) => {
            let of = typed_source(alloc, schema, vars, set)?;
            chain(schema, content, of)
        }
        SetExpr::Path(..) => {
            let of = typed_source(alloc, schema, vars, set)?;
            chain(schema, content, of)
        }
        SetExpr::MapS(..) => {
            let of = typed_source(alloc, schema, vars, set)?;
            chain(schema, content, of)
        }
        SetExpr::FlatS(_, of, x, each) => {
            let over = typed_source(alloc, schema, vars, of.get())?;
            let x = x.get();
            let inner = under(alloc, vars, x, TTy::Plain(TBase::Id(over.model)))?;
            let each = typed_set(alloc, schema, inner.as_slice(), content, each.get())?;
            flat_mapped(alloc, over, x, each)
        }
        SetExpr::IfS(_, c, a, b) => {
            let test = typed_expr(alloc, schema, vars, Some(BOOL), c.get())?;
            let one = typed_set(alloc, schema, vars, content, a.get())?;
            let other = typed_set(alloc, schema, vars, content, b.get())?;
            choice_of_sets(alloc, test, one, other)
        }
        SetExpr::MatchS(_, e, a, x, b) => {
            let x = x.get();
            let of = typed_expr(alloc, schema, vars, None, e.get())?;
            let inside = option_of(of.ty, of.at)?;
            let none = typed_set(alloc, schema, vars, content, a.get())?;
            let inner = under(alloc, vars, x, TTy::Plain(inside))?;
            let some = typed_set(alloc, schema, inner.as_slice(), content, b.get())?;
            set_cases(alloc, of, none, x, some)
        }
    }
}

/// A set that `map` or `flat_map` goes over: a chain of records.
#[cycle(typing)]
fn typed_source(
    alloc: Global,
    schema: &Schema,
    vars: &[Var],
    set: &SetExpr,
) -> Result<Source, TypeErr>
    ensures { Gives (spec.typed_source (plain_of schema.now) vars.now set.now) result }
{
    match set {
        SetExpr::Find(_, model, filters) => {
            let model = model.get();
            let number = typed_model(schema, model)?;
            let filters = typed_filters(alloc, schema, vars, number, filters.as_slice())?;
            found(alloc, model.at, number, filters)
        }
        SetExpr::Path(_, e) => {
            let of = typed_expr(alloc, schema, vars, None, e)?;
            path(alloc, of)
        }
        SetExpr::MapS(_, of, x, e) => {
            let over = typed_source(alloc, schema, vars, of.get())?;
            let x = x.get();
            let inner = under(alloc, vars, x, TTy::Plain(TBase::Id(over.model)))?;
            let each = typed_expr(alloc, schema, inner.as_slice(), None, e.get())?;
            mapped(alloc, over, x, each)
        }
        SetExpr::Everyone(at, _) => Err(TypeErr::WrongType { at: *at }),
        SetExpr::Nobody(at) => Err(TypeErr::WrongType { at: *at }),
        SetExpr::List(at, _) => Err(TypeErr::WrongType { at: *at }),
        SetExpr::Sum(at, _, _) => Err(TypeErr::WrongType { at: *at }),
        SetExpr::Less(at, _, _) => Err(TypeErr::WrongType { at: *at }),
        SetExpr::FlatS(at, _, _, _) => Err(TypeErr::WrongType { at: *at }),
        SetExpr::IfS(at, _, _, _) => Err(TypeErr::WrongType { at: *at }),
        SetExpr::MatchS(at, _, _, _, _) => Err(TypeErr::WrongType { at: *at }),
    }
}

/// The items of a list that is asked for this content.
#[cycle(typing)]
fn typed_items(
    alloc: Global,
    schema: &Schema,
    vars: &[Var],
    content: Content,
    items: &[Item],
) -> Result<Items<TItem>, TypeErr>
    ensures { Gives (spec.typed_items (plain_of schema.now) vars.now content items.now) result }
{
    let mut typed = Vec::new(alloc);
    for item in items {
        let one = typed_item(alloc, schema, vars, content, item)?;
        typed.push(one)?;
    }
    Ok(Items::from_vec(typed))
}

/// An item of a list that is asked for this content.
#[cycle(typing)]
fn typed_item(
    alloc: Global,
    schema: &Schema,
    vars: &[Var],
    content: Content,
    item: &Item,
) -> Result<TItem, TypeErr>
    ensures { Gives (spec.typed_item (plain_of schema.now) vars.now content item.now) result }
{
    match item {
        Item::Static(x) => listed_static(schema, content, x),
        Item::One(e) => {
            let of = typed_expr(alloc, schema, vars, id_asked(content), e)?;
            listed_record(schema, content, of)
        }
    }
}

/// The filters on records of the model.
#[cycle(typing)]
fn typed_filters(
    alloc: Global,
    schema: &Schema,
    vars: &[Var],
    model: ModelNo,
    filters: &[Filter],
) -> Result<Items<TFilter>, TypeErr>
    ensures { Gives (spec.typed_filters (plain_of schema.now) vars.now model filters.now) result }
{
    let mut typed = Vec::new(alloc);
    for filter in filters {
        let one = typed_filter(alloc, schema, vars, model, filter)?;
        typed.push(one)?;
    }
    Ok(Items::from_vec(typed))
}

/// A filter on records of the model. Its value does not see the record that is sought.
#[cycle(typing)]
fn typed_filter(
    alloc: Global,
    schema: &Schema,
    vars: &[Var],
    model: ModelNo,
    filter: &Filter,
) -> Result<TFilter, TypeErr>
    ensures { Gives (spec.typed_filter (plain_of schema.now) vars.now model filter.now) result }
{
    let (field, ty) = field_of_model(schema, model, &filter.field)?;
    let asked = tested(filter.op, ty, filter.field.at)?;
    let value = typed_expr(alloc, schema, vars, Some(asked), &filter.value)?;
    let value = value.into_tree().into_inner();
    Ok(TFilter::Test(field, filter.op, value))
}
