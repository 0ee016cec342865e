//! Values of a type, whose ids name records that are there.

ghost use Rattle.std.specs.Prelude.{◌≡◌, ◌↔◌, ◌&&◌, nat_le, IsTrue};
ghost use Rattle.std.specs.List.{AllByRecursion, list_all};
ghost use Rattle.data_meaning.specs.Database.{AreThere, IsBaseIntact, IsIntact, has_record};
ghost use Rattle.data_meaning.specs.Values as plain;
ghost use Rattle.data_meaning.specs.Values.{IsId, IsValueOf};
ghost use Rattle.data_records.specs.Views.{value_data};

use data_meaning::limits::LAST_ID;
use data_records::{Database, Value, has_shape};
use type_schema::{ModelNo, TBase, TTy};

/// Whether a number can be an id: from 1 to the last.
fn is_id(id: u64) -> bool
    ensures { IsTrue result ↔ IsId id }
{
    1 <= id && id <= LAST_ID
}

/// Whether each number can be an id.
fn are_in_range(ids: &[u64]) -> bool
    ensures { result ≡ list_all (λ id. nat_le 1 id && nat_le id plain.last_id) ids.now }
{
    ids.iter().all(|id| 1 <= *id && *id <= LAST_ID)
}

/// Whether each number can be an id.
fn are_ids(ids: &[u64]) -> bool
    ensures { IsTrue result ↔ AllByRecursion IsId ids.now }
{
    are_in_range(ids)
}

/// Whether each id in the value can be one.
fn has_ids(v: &Value) -> bool
    ensures { IsTrue result ↔ AllByRecursion IsId (plain.ids_in (value_data v.now)) }
{
    match v {
        Value::Id(id) => is_id(*id),
        Value::Ids(ids) => are_ids(ids.as_slice()),
        Value::Just(inner) => has_ids(inner.get()),
        Value::Flag(_) | Value::Num(_) | Value::Str(_) | Value::Nothing => true,
    }
}

/// Whether a value is one of a type.
#[tactic(auto, using(crate::proofs::Shaped::shaped))]
pub(crate) fn is_value(v: &Value, t: TTy) -> bool
    ensures { IsTrue result ↔ IsValueOf t (value_data v.now) }
{
    has_shape(v, t) && has_ids(v)
}

/// Whether each id is one of a record of the model.
fn has_all(database: &Database, m: ModelNo, ids: &[u64]) -> bool
    ensures { result ≡ list_all (λ id. has_record database.now m id) ids.now }
{
    ids.iter().all(|id| database.has(m, *id))
}

/// Whether each id names a record of the model.
fn are_there(database: &Database, m: ModelNo, ids: &[u64]) -> bool
    ensures { IsTrue result ↔ AreThere database.now m ids.now }
{
    has_all(database, m, ids)
}

/// Whether each id in the value names a record of the model.
fn names_there(database: &Database, m: ModelNo, v: &Value) -> bool
    ensures { IsTrue result ↔ AreThere database.now m (plain.ids_in (value_data v.now)) }
{
    match v {
        Value::Id(id) => database.has(m, *id),
        Value::Ids(ids) => are_there(database, m, ids.as_slice()),
        Value::Just(inner) => names_there(database, m, inner.get()),
        Value::Flag(_) | Value::Num(_) | Value::Str(_) | Value::Nothing => true,
    }
}

/// Whether each id in a value of the base type names a record.
fn is_base_intact(database: &Database, b: TBase, v: &Value) -> bool
    ensures { IsTrue result ↔ IsBaseIntact database.now b (plain.ids_in (value_data v.now)) }
{
    match b {
        TBase::Bool | TBase::Int | TBase::Text => true,
        TBase::Id(m) => names_there(database, m, v),
    }
}

/// Whether each id in a value of the type names a record.
pub(crate) fn is_intact(database: &Database, t: TTy, v: &Value) -> bool
    ensures { IsTrue result ↔ IsIntact database.now t (value_data v.now) }
{
    match t {
        TTy::Plain(b) | TTy::Opt(b) => is_base_intact(database, b, v),
        TTy::Set(m) => names_there(database, m, v),
    }
}
