//! The value of an expression, and whether a principal is in a set.

ghost use Rattle.std.specs.Prelude.{◌≡◌, ◌||◌, ◌++◌, ◌∷◌, [], filter, map, slice_index_or};
ghost use Rattle.std.specs.Prelude.{ℕ, IfOk, IfSome, IfNone, true, false};
ghost use Rattle.std.specs.List.{list_all, list_any};
ghost use Rattle.std.specs.Option.{option_map, option_copied};
ghost use Rattle.type_schema.specs.Trees.{Items, no_filters};
ghost use Rattle.type_schema.specs.Views as view;
ghost use Rattle.data_meaning.specs.Values as stored;
ghost use Rattle.data_meaning.specs.Database.{ids_of, field_at, slots_of};
ghost use Rattle.data_meaning.specs.declared.principals.Principal.TheVariants.{Rec};
ghost use Rattle.data_records.specs.Views.{slot_data, value_data};
ghost use Rattle.data_meaning.specs.Meaning as meaning;
ghost use Rattle.data_members.specs.Tests.{passes_in};
ghost use Rattle.data_members.specs.Variables.{env_data, seen_data, content_of, first_value};

use crate::finding::{Test, ids_found, passes_all, test_of};
use crate::parts::{are_equal, id, ids, is_less, same_truth, truth};
use crate::principals::{is_among, is_record, is_static};
use crate::seen::Seen;
use data_meaning::Principal;
use data_records::{Database, Record, Value};
use sqlite_items::Boxed;
use std::alloc::{AllocError, Global};
use text_ast::Txt;
use type_schema::{FieldNo, ModelNo, TExpr, TFilter, TItem, TSet};

/// The value of a literal text.
fn literal<'d>(alloc: Global, text: &Txt) -> Result<Seen<'d>, AllocError>
    ensures { IfOk result (λ v. seen_data v ≡ stored.Str text.now) }
{
    let text = text.copy(alloc)?;
    Ok(Seen::Made(Value::Str(text)))
}

/// The value of the variable that so many stand outside of, or nothing where there is none.
fn value_at<'d>(alloc: Global, depth: u32, env: &[Value]) -> Result<Seen<'d>, AllocError>
    ensures { IfOk result (λ v. seen_data v
        ≡ slice_index_or (env_data env.now) depth stored.Nothing) }
{
    match env.get(depth as usize) {
        Some(value) => Ok(Seen::Made(value.copy(alloc)?)),
        None => Ok(Seen::Made(Value::Nothing)),
    }
}

/// The values of variables, and of one more inside them.
pub(crate) fn extended(
    alloc: Global,
    env: &[Value],
    inner: &Value,
) -> Result<Vec<Value>, AllocError>
    ensures { IfOk result (λ all. env_data all.items
        ≡ env_data env.now ++ value_data inner.now ∷ []) }
{
    let mut all = Vec::new(alloc);
    for value in env {
        let copy = value.copy(alloc)?;
        all.push(copy)?;
    }
    let copy = inner.copy(alloc)?;
    all.push(copy)?;
    Ok(all)
}

/// An option with the value in it.
fn just<'d>(alloc: Global, v: &Value) -> Result<Seen<'d>, AllocError>
    ensures { IfOk result (λ seen. seen_data seen ≡ stored.Just (value_data v.now)) }
{
    let inner = v.copy(alloc)?;
    Ok(Seen::Made(Value::Just(Boxed::new(alloc, inner)?)))
}

/// A truth value.
fn flag<'d>(b: bool) -> Seen<'d>
    ensures { seen_data result ≡ stored.Flag b }
{
    Seen::Made(Value::Flag(b))
}

/// What the field of a record holds, or nothing where there is no such record or field.
fn field<'d>(database: &'d Database, m: ModelNo, id: u64, f: FieldNo) -> Seen<'d>
    ensures { seen_data result ≡ field_at database.now m id f }
{
    match database.value(m, id, f) {
        Some(value) => Seen::Held(value),
        None => Seen::Made(Value::Nothing),
    }
}

/// What stands in an option.
pub(crate) fn content(v: &Value) -> Option<&Value>
    ensures { option_map value_data (option_copied result) ≡ content_of (value_data v.now) }
{
    match v {
        Value::Just(inner) => Some(inner.get()),
        Value::Flag(_)
        | Value::Num(_)
        | Value::Str(_)
        | Value::Id(_)
        | Value::Ids(_)
        | Value::Nothing => None,
    }
}

/// The record that the principal is, if it is one of the model that is there.
fn record_of(database: &Database, m: ModelNo, who: Principal) -> Option<&Record>
    ensures found { IfSome (option_copied result) (λ r.
        (meaning.is_among m (ids_of database.now m) who ≡ true) ×
        (slots_of database.now m (meaning.id_of_record who) ≡ map slot_data r.slots)) }
    ensures none { IfNone result (meaning.is_among m (ids_of database.now m) who ≡ false) }
{
    match who {
        Principal::Static(_) => None,
        Principal::Rec(n, id) => { if n == m { database.get(m, id) } else { None } }
    }
}

/// The id that the variable holds that so many stand outside of, if it holds one.
fn id_at<'d>(depth: u32, env: &[Value]) -> Option<Seen<'d>>
    ensures { IfSome result (λ v. seen_data v
        ≡ slice_index_or (env_data env.now) depth stored.Nothing) }
{
    match env.get(depth as usize) {
        Some(Value::Id(id)) => Some(Seen::Made(Value::Id(*id))),
        _ => None,
    }
}

/// The value of an expression that is a path from a record, as `u.manager.age`.
fn path_value<'d>(database: &'d Database, e: &TExpr, env: &[Value]) -> Option<Seen<'d>>
    ensures { IfSome result (λ v. seen_data v
        ≡ meaning.value_of database.now (env_data env.now) (view.expr_of e.now)) }
{
    match e {
        TExpr::Var(depth, _) => id_at(*depth, env),
        TExpr::Get(of, m, f) => {
            let of = path_value(database, of.get(), env)?;
            Some(field(database, *m, id(of.get()), *f))
        }
        _ => None,
    }
}

/// The value of an expression. A path, as most policies have, is followed first: `value` has room
/// for the parts of every form, and to clear that takes longer than the path.
#[cycle(meaning)]
fn quick_value<'d>(
    alloc: Global,
    database: &'d Database,
    e: &TExpr,
    env: &[Value],
) -> Result<Seen<'d>, AllocError>
    ensures { IfOk result (λ v. seen_data v
        ≡ meaning.value_of database.now (env_data env.now) (view.expr_of e.now)) }
{
    match path_value(database, e, env) {
        Some(v) => Ok(v),
        None => value(alloc, database, e, env),
    }
}

// Long, since each form of an expression has its own arm.
/// The value of an expression.
#[cycle(meaning)]
pub(crate) fn value<'d>(
    alloc: Global,
    database: &'d Database,
    e: &TExpr,
    env: &[Value],
) -> Result<Seen<'d>, AllocError>
    ensures { IfOk result (λ v. seen_data v
        ≡ meaning.value_of database.now (env_data env.now) (view.expr_of e.now)) }
{
    match e {
        TExpr::Flag(b) => Ok(flag(*b)),
        TExpr::Num(n) => Ok(Seen::Made(Value::Num(*n))),
        TExpr::Str(text) => literal(alloc, text),
        TExpr::Var(depth, _) => value_at(alloc, *depth, env),
        TExpr::NoneLit => Ok(Seen::Made(Value::Nothing)),
        TExpr::SomeLit(inner) => {
            let inner = value(alloc, database, inner.get(), env)?;
            just(alloc, inner.get())
        }
        TExpr::Get(of, m, f) => {
            let of = value(alloc, database, of.get(), env)?;
            Ok(field(database, *m, id(of.get()), *f))
        }
        TExpr::Eq(a, b, _) => {
            let a = value(alloc, database, a.get(), env)?;
            let b = value(alloc, database, b.get(), env)?;
            Ok(flag(are_equal(a.get(), b.get())))
        }
        TExpr::Iff(a, b, _) => {
            let a = truth_at(alloc, database, a.get(), env)?;
            let b = truth_at(alloc, database, b.get(), env)?;
            Ok(flag(same_truth(a, b)))
        }
        TExpr::Less(a, b, _) => {
            let a = value(alloc, database, a.get(), env)?;
            let b = value(alloc, database, b.get(), env)?;
            Ok(flag(is_less(a.get(), b.get())))
        }
        TExpr::Member(of, m, set) => {
            let of = value(alloc, database, of.get(), env)?;
            let who = Principal::Rec(*m, id(of.get()));
            let holds = holds(alloc, database, set.get(), env, who)?;
            Ok(flag(holds))
        }
        TExpr::Not(inner) => {
            let inner = truth_at(alloc, database, inner.get(), env)?;
            Ok(flag(!inner))
        }
        TExpr::And(a, b) => {
            let a = truth_at(alloc, database, a.get(), env)?;
            let b = truth_at(alloc, database, b.get(), env)?;
            Ok(flag(a && b))
        }
        TExpr::Or(a, b) => {
            let a = truth_at(alloc, database, a.get(), env)?;
            let b = truth_at(alloc, database, b.get(), env)?;
            Ok(flag(a || b))
        }
        TExpr::IfE(c, a, b) => {
            if truth_at(alloc, database, c.get(), env)? {
                value(alloc, database, a.get(), env)
            } else {
                value(alloc, database, b.get(), env)
            }
        }
        TExpr::MatchE(of, a, _, c) => {
            let of = value(alloc, database, of.get(), env)?;
            match content(of.get()) {
                Some(inner) => {
                    let env = extended(alloc, env, inner)?;
                    value(alloc, database, c.get(), env.as_slice())
                }
                None => value(alloc, database, a.get(), env),
            }
        }
    }
}

/// Whether an expression is true.
#[cycle(meaning)]
pub(crate) fn truth_at(
    alloc: Global,
    database: &Database,
    e: &TExpr,
    env: &[Value],
) -> Result<bool, AllocError>
    ensures { IfOk result (λ b. b
        ≡ meaning.truth_of
        (meaning.value_of database.now (env_data env.now) (view.expr_of e.now))) }
{
    let v = value(alloc, database, e, env)?;
    Ok(truth(v.get()))
}

// Long, since each form of a set has its own arm.
/// Whether a principal, or a record, is in a set.
#[cycle(meaning)]
pub(crate) fn holds(
    alloc: Global,
    database: &Database,
    set: &TSet,
    env: &[Value],
    who: Principal,
) -> Result<bool, AllocError>
    ensures { IfOk result (λ b. b
        ≡ meaning.member database.now (env_data env.now) (view.set_of set.now) who) }
{
    match set {
        TSet::Everyone => Ok(true),
        TSet::Nobody => Ok(false),
        TSet::List(items) => is_listed(alloc, database, items.as_slice(), env, who),
        TSet::Sum(a, b) => {
            if holds(alloc, database, a.get(), env, who)? {
                return Ok(true);
            }
            holds(alloc, database, b.get(), env, who)
        }
        TSet::Less(a, b) => {
            if holds(alloc, database, b.get(), env, who)? {
                return Ok(false);
            }
            holds(alloc, database, a.get(), env, who)
        }
        TSet::Find(m, filters) => match record_of(database, *m, who) {
            Some(record) => {
                let tests = tests_of(alloc, database, filters.as_slice(), env)?;
                Ok(passes_all(tests.as_slice(), record))
            }
            None => Ok(false),
        },
        TSet::Path(m, e) => {
            let held = quick_value(alloc, database, e, env)?;
            Ok(is_among(*m, ids(held.get()), who))
        }
        TSet::MapS(source, n, _, m, e) => {
            let sources = ids_within(alloc, database, source.get(), env, *n)?;
            maps_to(alloc, database, e.get(), env, sources.as_slice(), *m, who)
        }
        TSet::FlatS(source, n, _, body) => {
            let sources = ids_within(alloc, database, source.get(), env, *n)?;
            holds_at(alloc, database, body.get(), env, sources.as_slice(), who)
        }
        TSet::IfS(c, a, b) => {
            if truth_at(alloc, database, c.get(), env)? {
                holds(alloc, database, a.get(), env, who)
            } else {
                holds(alloc, database, b.get(), env, who)
            }
        }
        TSet::MatchS(of, a, _, c) => {
            let of = value(alloc, database, of.get(), env)?;
            match content(of.get()) {
                Some(inner) => {
                    let env = extended(alloc, env, inner)?;
                    holds(alloc, database, c.get(), env.as_slice(), who)
                }
                None => holds(alloc, database, a.get(), env, who),
            }
        }
    }
}

/// Whether a principal is one of the items.
#[cycle(meaning)]
fn is_listed(
    alloc: Global,
    database: &Database,
    items: &[TItem],
    env: &[Value],
    who: Principal,
) -> Result<bool, AllocError>
    ensures { IfOk result (λ b. b
        ≡ meaning.is_listed database.now (env_data env.now)
        (view.items_of (map view.item_of items.now)) who) }
{
    for item in items {
        if is_item(alloc, database, item, env, who)? {
            return Ok(true);
        }
    }
    Ok(false)
}

/// Whether a principal is the item.
#[cycle(meaning)]
fn is_item(
    alloc: Global,
    database: &Database,
    item: &TItem,
    env: &[Value],
    who: Principal,
) -> Result<bool, AllocError>
    ensures { IfOk result (λ b. (rest : Items) →
        meaning.is_listed database.now (env_data env.now) (view.item_of item.now rest) who
        ≡ (b || meaning.is_listed database.now (env_data env.now) rest who)) }
{
    match item {
        TItem::Static(n) => Ok(is_static(*n, who)),
        TItem::One(m, e) => {
            let v = quick_value(alloc, database, e, env)?;
            Ok(is_record(*m, v.get(), who))
        }
    }
}

/// The tests of filters, whose values are worked out once.
#[cycle(meaning)]
fn tests_of(
    alloc: Global,
    database: &Database,
    filters: &[TFilter],
    env: &[Value],
) -> Result<Vec<Test>, AllocError>
    ensures { IfOk result (λ tests. (m id : ℕ) → meaning.meets database.now (env_data env.now) m
        (view.filters_of (map view.filter_of filters.now)) id
        ≡ list_all (passes_in (slots_of database.now m id)) tests.items) }
{
    let mut tests = Vec::new(alloc);
    for filter in filters {
        let with = value_in(alloc, database, filter, env)?;
        tests.push(test_of(filter, with))?;
    }
    Ok(tests)
}

/// The value that a filter compares with.
#[cycle(meaning)]
fn value_in(
    alloc: Global,
    database: &Database,
    filter: &TFilter,
    env: &[Value],
) -> Result<Value, AllocError>
    ensures { IfOk result (λ v. value_data v
        ≡ meaning.value_of database.now (env_data env.now)
        (first_value (view.filter_of filter.now no_filters))) }
{
    let TFilter::Test(_, _, e) = filter;
    quick_value(alloc, database, e, env)?.into_value(alloc)
}

/// The ids of the records of the model that are in a set, in their order.
#[cycle(meaning)]
pub(crate) fn ids_within(
    alloc: Global,
    database: &Database,
    set: &TSet,
    env: &[Value],
    m: ModelNo,
) -> Result<Vec<u64>, AllocError>
    ensures { IfOk result (λ found. found.items
        ≡ filter (λ y. meaning.member database.now (env_data env.now) (view.set_of set.now)
        (Rec m y)) (ids_of database.now m)) }
{
    if let TSet::Find(n, filters) = set
        && *n == m
    {
        let tests = tests_of(alloc, database, filters.as_slice(), env)?;
        return ids_found(alloc, database, m, tests.as_slice());
    }
    let mut found = Vec::new(alloc);
    for record in database.records(m) {
        if holds(alloc, database, set, env, Principal::Rec(m, record.id))? {
            found.push(record.id)?;
        }
    }
    Ok(found)
}

/// The value of an expression with the record of this id as one more variable.
#[cycle(meaning)]
fn value_with<'d>(
    alloc: Global,
    database: &'d Database,
    e: &TExpr,
    env: &[Value],
    id: u64,
) -> Result<Seen<'d>, AllocError>
    ensures { IfOk result (λ v. seen_data v
        ≡ meaning.value_of database.now (env_data env.now
        ++ stored.Id id ∷ []) (view.expr_of e.now)) }
{
    let env = extended(alloc, env, &Value::Id(id))?;
    quick_value(alloc, database, e, env.as_slice())
}

/// Whether a principal is in a set with the record of this id as one more variable.
#[cycle(meaning)]
fn holds_with(
    alloc: Global,
    database: &Database,
    set: &TSet,
    env: &[Value],
    id: u64,
    who: Principal,
) -> Result<bool, AllocError>
    ensures { IfOk result (λ b. b
        ≡ meaning.member database.now (env_data env.now
        ++ stored.Id id ∷ []) (view.set_of set.now) who) }
{
    let env = extended(alloc, env, &Value::Id(id))?;
    holds(alloc, database, set, env.as_slice(), who)
}

// Six beside the allocator: an expression where it stands, the ids, and who is compared.
/// Whether the principal is the record of the model that the expression names at one of the ids.
#[cycle(meaning)]
fn maps_to(
    alloc: Global,
    database: &Database,
    e: &TExpr,
    env: &[Value],
    ids: &[u64],
    m: ModelNo,
    who: Principal,
) -> Result<bool, AllocError>
    ensures { IfOk result (λ b. b
        ≡ list_any (λ y. meaning.is_record m (meaning.value_of database.now (env_data env.now
        ++ stored.Id y ∷ []) (view.expr_of e.now)) who) ids.now) }
{
    for id in ids {
        let v = value_with(alloc, database, e, env, *id)?;
        if is_record(m, v.get(), who) {
            return Ok(true);
        }
    }
    Ok(false)
}

/// Whether the principal is in the set at one of the ids.
#[cycle(meaning)]
fn holds_at(
    alloc: Global,
    database: &Database,
    set: &TSet,
    env: &[Value],
    ids: &[u64],
    who: Principal,
) -> Result<bool, AllocError>
    ensures { IfOk result (λ b. b
        ≡ list_any (λ y. meaning.member database.now (env_data env.now
        ++ stored.Id y ∷ []) (view.set_of set.now) who) ids.now) }
{
    for id in ids {
        if holds_with(alloc, database, set, env, *id, who)? {
            return Ok(true);
        }
    }
    Ok(false)
}
