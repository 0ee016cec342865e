//! The cells that expressions and sets read.

ghost use Rattle.std.specs.Prelude.{◌≡◌, ◌++◌, ◌∷◌, [], map, OnOk, IfOk};
ghost use Rattle.std.specs.List.{flat_map};
ghost use Rattle.std.specs.Option.{option_map};
ghost use Rattle.type_schema.specs.Trees.{Items, Filters, no_filters};
ghost use Rattle.type_schema.specs.Views as view;
ghost use Rattle.data_meaning.specs.Values as stored;
ghost use Rattle.data_meaning.specs.Database.{ids_of};
ghost use Rattle.data_meaning.specs.declared.cells.Cell.{Cell};
ghost use Rattle.data_meaning.specs.Meaning as meaning;
ghost use Rattle.data_meaning.specs.Touched as read;
ghost use Rattle.data_members.specs.Variables.{env_data, content_of, first_field, first_value};

use crate::meaning::{content, extended, ids_within, truth_at, value};
use crate::parts::id;
use data_meaning::Cell;
use data_records::{Database, Value};
use std::alloc::{AllocError, Global};
use type_schema::{FieldNo, ModelNo, TExpr, TFilter, TItem, TSet};

/// The id of the record that an expression names.
pub(crate) fn id_at(
    alloc: Global,
    database: &Database,
    e: &TExpr,
    env: &[Value],
) -> Result<u64, AllocError>
    ensures { IfOk result (λ id. id
        ≡ meaning.id_of
        (meaning.value_of database.now (env_data env.now) (view.expr_of e.now))) }
{
    let of = value(alloc, database, e, env)?;
    Ok(id(of.get()))
}

/// The values of variables, and of one more inside them: what stands in an option, if it is there.
pub(crate) fn taken_apart(
    alloc: Global,
    database: &Database,
    e: &TExpr,
    env: &[Value],
) -> Result<Option<Vec<Value>>, AllocError>
    ensures { IfOk result (λ inner. option_map (λ all. env_data all.items) inner
        ≡ option_map (λ v. env_data env.now ++ v ∷ []) (content_of
        (meaning.value_of database.now (env_data env.now) (view.expr_of e.now)))) }
{
    let of = value(alloc, database, e, env)?;
    match content(of.get()) {
        Some(inner) => Ok(Some(extended(alloc, env, inner)?)),
        None => Ok(None),
    }
}

/// The field of a filter.
fn field_of(filter: &TFilter) -> FieldNo
    ensures { result ≡ first_field (view.filter_of filter.now no_filters) }
{
    let TFilter::Test(f, _, _) = filter;
    *f
}

/// Adds the cells of a field at every record of the model.
fn touch_field(
    database: &Database,
    m: ModelNo,
    f: FieldNo,
    found: &mut Vec<Cell>,
) -> Result<(), AllocError>
    ensures { OnOk result (found.new.items ≡ found.old.items
        ++ map (λ id. record { model = m; id = id; field = f }) (ids_of database.now m)) }
{
    for record in database.records(m) {
        found.push(Cell {
            model: m,
            id: record.id,
            field: f,
        })?;
    }
    Ok(())
}

// Long, since each form of an expression has its own arm.
/// Adds the cells that the value of an expression is read from.
#[cycle(touching)]
pub(crate) fn touch(
    alloc: Global,
    database: &Database,
    e: &TExpr,
    env: &[Value],
    found: &mut Vec<Cell>,
) -> Result<(), AllocError>
    ensures { OnOk result (found.new.items ≡ found.old.items
        ++ read.touched database.now (env_data env.now) (view.expr_of e.now)) }
{
    match e {
        TExpr::Flag(_) => Ok(()),
        TExpr::Num(_) => Ok(()),
        TExpr::Str(_) => Ok(()),
        TExpr::Var(_, _) => Ok(()),
        TExpr::NoneLit => Ok(()),
        TExpr::SomeLit(inner) => touch(alloc, database, inner.get(), env, found),
        TExpr::Get(of, m, f) => {
            touch(alloc, database, of.get(), env, found)?;
            let id = id_at(alloc, database, of.get(), env)?;
            found.push(Cell {
                model: *m,
                id,
                field: *f,
            })?;
            Ok(())
        }
        TExpr::Eq(a, b, _) => {
            touch(alloc, database, a.get(), env, found)?;
            touch(alloc, database, b.get(), env, found)
        }
        TExpr::Iff(a, b, _) => {
            touch(alloc, database, a.get(), env, found)?;
            touch(alloc, database, b.get(), env, found)
        }
        TExpr::Less(a, b, _) => {
            touch(alloc, database, a.get(), env, found)?;
            touch(alloc, database, b.get(), env, found)
        }
        TExpr::Member(of, _, set) => {
            touch(alloc, database, of.get(), env, found)?;
            touch_set(alloc, database, set.get(), env, found)
        }
        TExpr::Not(inner) => touch(alloc, database, inner.get(), env, found),
        TExpr::And(a, b) => {
            touch(alloc, database, a.get(), env, found)?;
            touch(alloc, database, b.get(), env, found)
        }
        TExpr::Or(a, b) => {
            touch(alloc, database, a.get(), env, found)?;
            touch(alloc, database, b.get(), env, found)
        }
        TExpr::IfE(c, a, b) => {
            touch(alloc, database, c.get(), env, found)?;
            if truth_at(alloc, database, c.get(), env)? {
                touch(alloc, database, a.get(), env, found)
            } else {
                touch(alloc, database, b.get(), env, found)
            }
        }
        TExpr::MatchE(of, a, _, c) => {
            touch(alloc, database, of.get(), env, found)?;
            match taken_apart(alloc, database, of.get(), env)? {
                Some(inner) => touch(alloc, database, c.get(), inner.as_slice(), found),
                None => touch(alloc, database, a.get(), env, found),
            }
        }
    }
}

// Long, since each form of a set has its own arm.
/// Adds the cells that who is in a set is read from.
#[cycle(touching)]
pub(crate) fn touch_set(
    alloc: Global,
    database: &Database,
    set: &TSet,
    env: &[Value],
    found: &mut Vec<Cell>,
) -> Result<(), AllocError>
    ensures { OnOk result (found.new.items ≡ found.old.items
        ++ read.set_touched database.now (env_data env.now) (view.set_of set.now)) }
{
    match set {
        TSet::Everyone => Ok(()),
        TSet::Nobody => Ok(()),
        TSet::List(items) => touch_items(alloc, database, items.as_slice(), env, found),
        TSet::Sum(a, b) => {
            touch_set(alloc, database, a.get(), env, found)?;
            touch_set(alloc, database, b.get(), env, found)
        }
        TSet::Less(a, b) => {
            touch_set(alloc, database, a.get(), env, found)?;
            touch_set(alloc, database, b.get(), env, found)
        }
        TSet::Find(m, filters) => {
            touch_filters(alloc, database, filters.as_slice(), env, *m, found)
        }
        TSet::Path(_, e) => touch(alloc, database, e, env, found),
        TSet::MapS(source, n, _, _, e) => {
            touch_set(alloc, database, source.get(), env, found)?;
            let sources = ids_within(alloc, database, source.get(), env, *n)?;
            touch_at_each(alloc, database, e.get(), env, sources.as_slice(), found)
        }
        TSet::FlatS(source, n, _, body) => {
            touch_set(alloc, database, source.get(), env, found)?;
            let sources = ids_within(alloc, database, source.get(), env, *n)?;
            touch_set_at_each(alloc, database, body.get(), env, sources.as_slice(), found)
        }
        TSet::IfS(c, a, b) => {
            let c = c.get();
            touch(alloc, database, c, env, found)?;
            if truth_at(alloc, database, c, env)? {
                touch_set(alloc, database, a.get(), env, found)
            } else {
                touch_set(alloc, database, b.get(), env, found)
            }
        }
        TSet::MatchS(of, a, _, c) => {
            let of = of.get();
            touch(alloc, database, of, env, found)?;
            match taken_apart(alloc, database, of, env)? {
                Some(inner) => touch_set(alloc, database, c.get(), inner.as_slice(), found),
                None => touch_set(alloc, database, a.get(), env, found),
            }
        }
    }
}

/// Adds the cells that the items of a list are read from.
#[cycle(touching)]
fn touch_items(
    alloc: Global,
    database: &Database,
    items: &[TItem],
    env: &[Value],
    found: &mut Vec<Cell>,
) -> Result<(), AllocError>
    ensures { OnOk result (found.new.items ≡ found.old.items
        ++ read.items_touched database.now (env_data env.now)
        (view.items_of (map view.item_of items.now))) }
{
    for item in items {
        touch_item(alloc, database, item, env, found)?;
    }
    Ok(())
}

/// Adds the cells that an item is read from.
#[cycle(touching)]
fn touch_item(
    alloc: Global,
    database: &Database,
    item: &TItem,
    env: &[Value],
    found: &mut Vec<Cell>,
) -> Result<(), AllocError>
    ensures { OnOk result ((rest : Items) → found.new.items
        ++ read.items_touched database.now (env_data env.now) rest
        ≡ found.old.items
        ++ read.items_touched database.now (env_data env.now) (view.item_of item.now rest)) }
{
    match item {
        TItem::Static(_) => Ok(()),
        TItem::One(_, e) => touch(alloc, database, e, env, found),
    }
}

/// Adds the cells that the filters of a model are read from.
#[cycle(touching)]
fn touch_filters(
    alloc: Global,
    database: &Database,
    filters: &[TFilter],
    env: &[Value],
    m: ModelNo,
    found: &mut Vec<Cell>,
) -> Result<(), AllocError>
    ensures { OnOk result (found.new.items ≡ found.old.items
        ++ read.filters_touched database.now (env_data env.now) m
        (view.filters_of (map view.filter_of filters.now))) }
{
    for filter in filters {
        touch_filter(alloc, database, filter, env, m, found)?;
    }
    Ok(())
}

/// Adds the cells that a filter of a model is read from.
#[cycle(touching)]
fn touch_filter(
    alloc: Global,
    database: &Database,
    filter: &TFilter,
    env: &[Value],
    m: ModelNo,
    found: &mut Vec<Cell>,
) -> Result<(), AllocError>
    ensures { OnOk result ((rest : Filters) → found.new.items
        ++ read.filters_touched database.now (env_data env.now) m rest
        ≡ found.old.items
        ++ read.filters_touched database.now (env_data env.now) m
        (view.filter_of filter.now rest)) }
{
    touch_value(alloc, database, filter, env, found)?;
    touch_field(database, m, field_of(filter), found)
}

/// Adds the cells that the value of a filter is read from.
#[cycle(touching)]
fn touch_value(
    alloc: Global,
    database: &Database,
    filter: &TFilter,
    env: &[Value],
    found: &mut Vec<Cell>,
) -> Result<(), AllocError>
    ensures { OnOk result (found.new.items ≡ found.old.items
        ++ read.touched database.now (env_data env.now)
        (first_value (view.filter_of filter.now no_filters))) }
{
    let TFilter::Test(_, _, e) = filter;
    touch(alloc, database, e, env, found)
}

/// Adds the cells that an expression is read from at each of the records of the ids.
#[cycle(touching)]
fn touch_at_each(
    alloc: Global,
    database: &Database,
    e: &TExpr,
    env: &[Value],
    ids: &[u64],
    found: &mut Vec<Cell>,
) -> Result<(), AllocError>
    ensures { OnOk result (found.new.items ≡ found.old.items
        ++ flat_map (λ y. read.touched database.now (env_data env.now
        ++ stored.Id y ∷ []) (view.expr_of e.now)) ids.now) }
{
    for id in ids {
        touch_at(alloc, database, e, env, *id, found)?;
    }
    Ok(())
}

/// Adds the cells that an expression is read from at the record of the id.
#[cycle(touching)]
fn touch_at(
    alloc: Global,
    database: &Database,
    e: &TExpr,
    env: &[Value],
    id: u64,
    found: &mut Vec<Cell>,
) -> Result<(), AllocError>
    ensures { OnOk result (found.new.items ≡ found.old.items
        ++ read.touched database.now (env_data env.now
        ++ stored.Id id ∷ []) (view.expr_of e.now)) }
{
    let env = extended(alloc, env, &Value::Id(id))?;
    touch(alloc, database, e, env.as_slice(), found)
}

/// Adds the cells that a set is read from at each of the records of the ids.
#[cycle(touching)]
fn touch_set_at_each(
    alloc: Global,
    database: &Database,
    set: &TSet,
    env: &[Value],
    ids: &[u64],
    found: &mut Vec<Cell>,
) -> Result<(), AllocError>
    ensures { OnOk result (found.new.items ≡ found.old.items
        ++ flat_map (λ y. read.set_touched database.now (env_data env.now
        ++ stored.Id y ∷ []) (view.set_of set.now)) ids.now) }
{
    for id in ids {
        touch_set_at(alloc, database, set, env, *id, found)?;
    }
    Ok(())
}

/// Adds the cells that a set is read from at the record of the id.
#[cycle(touching)]
fn touch_set_at(
    alloc: Global,
    database: &Database,
    set: &TSet,
    env: &[Value],
    id: u64,
    found: &mut Vec<Cell>,
) -> Result<(), AllocError>
    ensures { OnOk result (found.new.items ≡ found.old.items
        ++ read.set_touched database.now (env_data env.now
        ++ stored.Id id ∷ []) (view.set_of set.now)) }
{
    let env = extended(alloc, env, &Value::Id(id))?;
    touch_set(alloc, database, set, env.as_slice(), found)
}
