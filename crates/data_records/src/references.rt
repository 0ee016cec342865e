//! Fields that name records.

ghost use Rattle.std.specs.Prelude.{◌≡◌, ◌==◌, ◌&&◌, map, option_copied};
ghost use Rattle.std.specs.List.{find, list_any};
ghost use Rattle.data_meaning.specs.Database.{records_of};
ghost use Rattle.data_meaning.specs.Values.{ids_in};
ghost use Rattle.data_records.specs.Removed.{first_given, is_of_model, names};
ghost use Rattle.data_records.specs.Removed.{reference_from};
ghost use Rattle.data_records.specs.Views.{record_data, value_data};
ghost use Rattle.type_schema.specs.SchemaViews.{field_info_of, model_info_of};

use crate::database::Database;
use crate::record::Record;
use crate::shape::model_named;
use crate::value::Value;
use type_schema::{FieldInfo, FieldNo, ModelInfo, ModelNo, TTy};

/// A field of a record, which names another record.
#[derive(Clone, Copy, Debug)]
pub struct Reference {
    pub model: ModelNo,
    pub id: u64,
    pub field: FieldNo,
}

/// Whether the ids of the type are those of records of the model.
fn is_of_model(m: ModelNo, t: TTy) -> bool
    ensures { result ≡ is_of_model m t }
{
    match model_named(t) {
        Some(n) => n == m,
        None => false,
    }
}

/// Whether the value holds the id.
fn holds_id(v: &Value, id: u64) -> bool
    ensures { result ≡ list_any (λ i. i == id) (ids_in (value_data v.now)) }
{
    match v {
        Value::Id(this) => *this == id,
        Value::Ids(ids) => ids.as_slice().contains(&id),
        Value::Just(inner) => holds_id(inner.get(), id),
        Value::Flag(_) | Value::Num(_) | Value::Str(_) | Value::Nothing => false,
    }
}

/// Whether the field of the record names the record of model `m` with the id.
fn names(m: ModelNo, id: u64, from: &Record, field: &FieldInfo) -> bool
    ensures { result ≡ names m id (record_data from.now) (field_info_of field.now) }
{
    if !is_of_model(m, field.ty) {
        return false;
    }
    match from.value(field.number) {
        Some(value) => holds_id(value, id),
        None => false,
    }
}

/// The first field of the record that names the record of model `m` with the id.
fn naming<'f>(m: ModelNo, id: u64, from: &Record, fields: &'f [FieldInfo]) -> Option<&'f FieldInfo>
    ensures { option_copied result
        ≡ find (λ f. names m id (record_data from.now) (field_info_of f)) fields.now }
{
    fields.iter().find(|field| names(m, id, from, field))
}

/// Whether the record is the one of model `m` with the id.
fn is_itself(m: ModelNo, id: u64, info: &ModelInfo, from: &Record) -> bool
    ensures { result ≡ ((info.now.number == m) && (from.now.id == id)) }
{
    info.number == m && from.id == id
}

/// The first field of another record that names the record of model `m` with the id.
fn reference_from(m: ModelNo, id: u64, info: &ModelInfo, from: &Record) -> Option<Reference>
    ensures { result
        ≡ reference_from m id (model_info_of info.now) (record_data from.now) }
{
    if is_itself(m, id, info, from) {
        return None;
    }
    match naming(m, id, from, info.fields.as_slice()) {
        Some(field) => Some(Reference {
            model: info.number,
            id: from.id,
            field: field.number,
        }),
        None => None,
    }
}

/// The first field of these records of a model that names the record of model `m` with the id.
fn first_among(m: ModelNo, id: u64, info: &ModelInfo, records: &[Record]) -> Option<Reference>
    ensures { result ≡ first_given (reference_from m id (model_info_of info.now))
        (map record_data records.now) }
{
    for record in records {
        let reference = reference_from(m, id, info, record);
        if reference.is_some() {
            return reference;
        }
    }
    None
}

/// Whether a field may name a record of the model.
fn may_name(m: ModelNo, fields: &[FieldInfo]) -> bool
    ensures { result ≡ list_any (λ f. is_of_model m f.ty) fields.now }
{
    fields.iter().any(|field| is_of_model(m, field.ty))
}

/// The first field of a record of the model that names the record of model `m` with the id. Only
/// the records of a model whose fields may name it are looked at.
fn first_in(database: &Database, m: ModelNo, id: u64, info: &ModelInfo) -> Option<Reference>
    ensures { result ≡ first_given (reference_from m id (model_info_of info.now))
        (records_of database.now info.now.number) }
{
    if may_name(m, info.fields.as_slice()) {
        first_among(m, id, info, database.records(info.number))
    } else {
        None
    }
}

/// The first field of another record of these models that names the record of model `m` with the
/// id.
pub(crate) fn first_reference(
    database: &Database,
    models: &[ModelInfo],
    m: ModelNo,
    id: u64,
) -> Option<Reference>
    ensures { result ≡ first_given (λ info. first_given (reference_from m id info)
        (records_of database.now info.number)) (map model_info_of models.now) }
{
    for info in models {
        let reference = first_in(database, m, id, info);
        if reference.is_some() {
            return reference;
        }
    }
    None
}
