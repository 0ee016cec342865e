//! The first id in a value that names no record.

ghost use Rattle.std.specs.Prelude.{◌≡◌, IsFalse, None, map, ℕ};
ghost use Rattle.data_judge.specs.First.{first_given};
ghost use Rattle.data_judge.specs.InOrder.{AreApart, AreApartEach};
ghost use Rattle.data_judge.specs.References as spec;
ghost use Rattle.data_tree.specs.declared.literals.Lit.{out-Lit};
ghost use Rattle.data_meaning.specs.Database.{Database};
ghost use Rattle.data_records.specs.Shape as shape;
ghost use Rattle.type_schema.specs.SchemaViews.{field_info_of, model_info_of};

use crate::literals::id_in;
use crate::names::{field_near, model_named};
use data_records::Database;
use data_tree::{FieldLit, Lit, RecordLit, TableLit, WrittenId};
use type_schema::{FieldInfo, ModelInfo, ModelNo, TBase, TTy};

/// Where an id of the model stands that names no record.
fn id_lost(database: &Database, m: ModelNo, id: Option<WrittenId>) -> Option<u32>
    ensures { result ≡ spec.id_lost database.now m id }
{
    match id {
        Some(id) => {
            if database.has(m, id.number) {
                None
            } else {
                Some(id.at)
            }
        }
        None => None,
    }
}

/// The first such id among items.
fn items_lost(database: &Database, m: ModelNo, items: &[Lit]) -> Option<u32>
    ensures { result ≡ spec.items_lost database.now m items.now }
{
    for l in items {
        let at = id_lost(database, m, id_in(l));
        if at.is_some() {
            return at;
        }
    }
    None
}

/// The first such id in what is written.
fn layer_lost(database: &Database, m: ModelNo, l: &Lit) -> Option<u32>
    ensures { result ≡ spec.layer_lost database.now m (out-Lit l.now) }
{
    match l {
        Lit::Id(id, _) => id_lost(database, m, Some(*id)),
        Lit::SomeLit(inner, _) => id_lost(database, m, id_in(inner.get())),
        Lit::List(items, _) => items_lost(database, m, items.as_slice()),
        Lit::Flag(_, _) | Lit::Num(_, _) | Lit::Str(_, _) | Lit::SelfId(_) | Lit::NoneLit(_) =>
            None,
    }
}

/// The model whose records the ids of a base type are.
fn base_model(b: TBase) -> Option<ModelNo>
    ensures { result ≡ shape.base_model b }
{
    match b {
        TBase::Bool | TBase::Int | TBase::Text => None,
        TBase::Id(m) => Some(m),
    }
}

/// The model whose records the ids of a type are.
pub(crate) fn model_of(t: TTy) -> Option<ModelNo>
    ensures { result ≡ shape.model_named t }
{
    match t {
        TTy::Plain(b) | TTy::Opt(b) => base_model(b),
        TTy::Set(m) => Some(m),
    }
}

/// The first such id in what is written for a field of the type.
fn value_lost(database: &Database, t: TTy, l: &Lit) -> Option<u32>
    ensures { result ≡ spec.value_lost database.now t l.now }
{
    match model_of(t) {
        Some(m) => layer_lost(database, m, l),
        None => None,
    }
}

/// Whether an id may stand in what is written.
fn holds_ids(l: &Lit) -> bool
    ensures { IsFalse result → (database : Database) (m : ℕ) →
        spec.layer_lost database m (out-Lit l.now) ≡ None }
{
    match l {
        Lit::Id(_, _) | Lit::SomeLit(_, _) | Lit::List(_, _) => true,
        Lit::Flag(_, _) | Lit::Num(_, _) | Lit::Str(_, _) | Lit::SelfId(_) | Lit::NoneLit(_) =>
            false,
    }
}

/// The first such id in a field of a record, which stands at this place.
#[tactic(auto, using(crate::proofs::Lost::without_ids))]
fn field_lost(database: &Database, fields: &[FieldInfo], place: usize, w: &FieldLit) -> Option<u32>
    requires { AreApart (map field_info_of fields.now) }
    ensures { result ≡ spec.field_lost database.now (map field_info_of fields.now) w.now }
{
    if !holds_ids(&w.value) {
        return None;
    }
    match field_near(fields, place, w.name.name.bytes()) {
        Some(info) => value_lost(database, info.ty, &w.value),
        None => None,
    }
}

/// The first such id in a record.
fn row_lost(database: &Database, fields: &[FieldInfo], row: &RecordLit) -> Option<u32>
    requires { AreApart (map field_info_of fields.now) }
    ensures { result ≡ spec.row_lost database.now (map field_info_of fields.now) row.now }
{
    for (place, w) in row.fields.as_slice().iter().enumerate() {
        let at = field_lost(database, fields, place, w);
        if at.is_some() {
            return at;
        }
    }
    None
}

/// The first such id in records.
fn records_lost(database: &Database, fields: &[FieldInfo], rows: &[RecordLit]) -> Option<u32>
    requires { AreApart (map field_info_of fields.now) }
    ensures { result
        ≡ first_given (spec.row_lost database.now (map field_info_of fields.now)) rows.now }
{
    for row in rows {
        let at = row_lost(database, fields, row);
        if at.is_some() {
            return at;
        }
    }
    None
}

/// The first such id in a table.
fn table_lost(database: &Database, models: &[ModelInfo], table: &TableLit) -> Option<u32>
    requires { AreApartEach (map model_info_of models.now) }
    ensures { result
        ≡ spec.table_lost database.now (map model_info_of models.now) table.now }
{
    match model_named(models, table.name.name.bytes()) {
        Some(info) => records_lost(database, info.fields.as_slice(), table.records.as_slice()),
        None => None,
    }
}

/// The first id in the values of tables that names no record of the database.
pub(crate) fn lost(database: &Database, models: &[ModelInfo], ts: &[TableLit]) -> Option<u32>
    requires { AreApartEach (map model_info_of models.now) }
    ensures { result
        ≡ first_given (spec.table_lost database.now (map model_info_of models.now)) ts.now }
{
    for table in ts {
        let at = table_lost(database, models, table);
        if at.is_some() {
            return at;
        }
    }
    None
}
