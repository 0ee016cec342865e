//! Shapes of values, and the records that they name.

ghost use Rattle.std.specs.Prelude.{◌≡◌, ◌↔◌, IsTrue, List, ℕ, not, IfSome, IfNone, OnSome};
ghost use Rattle.std.specs.List.{find};
ghost use Rattle.std.specs.List.Sorted.{IsStrictlyIncreasing};
ghost use Rattle.text_ast.specs.Words.{IsText};
ghost use Rattle.data_meaning.specs.Values as plain;
ghost use Rattle.type_schema.specs.declared.types.TBase.TheVariants as base;
ghost use Rattle.data_records.specs.Inserted.{is_there_or};
ghost use Rattle.data_records.specs.Shape.{IsBaseShape, IsShape, base_model, dangling_in};
ghost use Rattle.data_records.specs.Shape.{model_named};
ghost use Rattle.data_records.specs.Views.{value_data};

use crate::database::Database;
use crate::value::Value;
use type_schema::{ModelNo, TBase, TTy};

/// Whether each id is below the next.
pub(crate) fn is_rising(ids: &[u64]) -> bool
    ensures { IsTrue result ↔ IsStrictlyIncreasing ids.now }
{
    let mut place = 1;
    while place < ids.len() {
        if ids[place] <= ids[place - 1] {
            return false;
        }
        place += 1;
    }
    true
}

/// The bytes of a text.
fn text_in(v: &Value) -> Option<&[u8]>
    ensures text { IfSome result (λ bytes. (value_data v.now ≡ plain.Str bytes.now) ×
        IsText bytes.now) }
    ensures none { IfNone result ((bytes : List ℕ) → value_data v.now ≡ plain.Str bytes → ⊥) }
{
    match v {
        Value::Str(text) => Some(text.bytes()),
        Value::Flag(_)
        | Value::Num(_)
        | Value::Id(_)
        | Value::Ids(_)
        | Value::Nothing
        | Value::Just(_) => None,
    }
}

/// Each number of 64 bits has the shape of a number.
fn is_number(n: i64) -> bool
    ensures { IsTrue result ↔ IsBaseShape base.Int (plain.Num n) }
{
    let _ = n;
    true
}

/// Whether a value has the shape of a base type.
fn has_base_shape(v: &Value, b: TBase) -> bool
    ensures { IsTrue result ↔ IsBaseShape b (value_data v.now) }
{
    match b {
        TBase::Bool => matches!(v, Value::Flag(_)),
        TBase::Int => match v {
            Value::Num(n) => is_number(*n),
            Value::Flag(_)
            | Value::Str(_)
            | Value::Id(_)
            | Value::Ids(_)
            | Value::Nothing
            | Value::Just(_) => false,
        },
        TBase::Text => text_in(v).is_some(),
        TBase::Id(_) => matches!(v, Value::Id(_)),
    }
}

/// Whether a value has the shape of a type: but for which ids stand in it, it is one of the type.
pub fn has_shape(v: &Value, t: TTy) -> bool
    ensures { IsTrue result ↔ IsShape t (value_data v.now) }
{
    match t {
        TTy::Plain(b) => has_base_shape(v, b),
        TTy::Set(_) => match v {
            Value::Ids(ids) => is_rising(ids.as_slice()),
            Value::Flag(_)
            | Value::Num(_)
            | Value::Str(_)
            | Value::Id(_)
            | Value::Nothing
            | Value::Just(_) => false,
        },
        TTy::Opt(b) => match v {
            Value::Nothing => true,
            Value::Just(inner) => has_base_shape(inner.get(), b),
            Value::Flag(_) | Value::Num(_) | Value::Str(_) | Value::Id(_) | Value::Ids(_) => false,
        },
    }
}

/// The model whose records the ids of a base type are.
fn base_model(b: TBase) -> Option<ModelNo>
    ensures { result ≡ base_model b }
{
    match b {
        TBase::Bool | TBase::Int | TBase::Text => None,
        TBase::Id(m) => Some(m),
    }
}

/// The model whose records the ids of a type are.
pub(crate) fn model_named(t: TTy) -> Option<ModelNo>
    ensures { result ≡ model_named t }
{
    match t {
        TTy::Plain(b) | TTy::Opt(b) => base_model(b),
        TTy::Set(m) => Some(m),
    }
}

/// The record that is to be made, which counts as being there.
#[derive(Clone, Copy, Debug)]
pub(crate) struct Coming {
    pub(crate) model: ModelNo,
    pub(crate) id: u64,
}

/// Whether there is such a record, or it is the one to be made.
fn counts(database: &Database, coming: Coming, m: ModelNo, id: u64) -> bool
    ensures { result ≡ is_there_or database.now coming.model coming.id m id }
{
    database.has(m, id) || m == coming.model && id == coming.id
}

/// The first of the ids of records of the model that names none.
fn first_dangling(database: &Database, coming: Coming, m: ModelNo, ids: &[u64]) -> Option<u64>
    ensures { result
        ≡ find (λ id. not (is_there_or database.now coming.model coming.id m id)) ids.now }
{
    ids.iter()
        .copied()
        .find(|id| !counts(database, coming, m, *id))
}

/// The first id in a value of ids of records of the model that names none.
fn dangling_among(database: &Database, coming: Coming, m: ModelNo, v: &Value) -> Option<u64>
    ensures { result
        ≡ find (λ id. not (is_there_or database.now coming.model coming.id m id))
        (plain.ids_in (value_data v.now)) }
{
    match v {
        Value::Id(id) => {
            if counts(database, coming, m, *id) {
                None
            } else {
                Some(*id)
            }
        }
        Value::Ids(ids) => first_dangling(database, coming, m, ids.as_slice()),
        Value::Just(inner) => dangling_among(database, coming, m, inner.get()),
        Value::Flag(_) | Value::Num(_) | Value::Str(_) | Value::Nothing => None,
    }
}

/// The first id in a value of the type that names no record.
pub(crate) fn dangling_in(database: &Database, coming: Coming, t: TTy, v: &Value) -> Option<u64>
    ensures { result
        ≡ dangling_in (is_there_or database.now coming.model coming.id) t (value_data v.now) }
{
    match model_named(t) {
        Some(m) => dangling_among(database, coming, m, v),
        None => None,
    }
}
