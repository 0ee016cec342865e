//! What names and numbers name in a schema.

ghost use Rattle.std.specs.Prelude.{◌≡◌, ◌==◌, map, option_copied};
ghost use Rattle.std.specs.List.{find};
ghost use Rattle.std.specs.Option.{option_map};
ghost use Rattle.std.specs.Str.{bytes_eq};
ghost use Rattle.data_judge.specs.Faults as spec;
ghost use Rattle.door_meaning.specs.Names.{principal_named, static_named};
ghost use Rattle.door_requests.specs.declared.requests.Who.TheVariants as Who;
ghost use Rattle.door_judge.specs.Coming.{Names};
ghost use Rattle.type_schema.specs.Schema.{model_of};
ghost use Rattle.type_schema.specs.SchemaViews.{field_info_of, model_info_of, schema_of};
ghost use Rattle.type_schema.specs.SchemaViews.{static_info_of};

use data_meaning::Principal;
use data_tree::WrittenId;
use door_meaning::Reply;
use door_requests::Who;
use text_tree::Named;
use type_schema::{FieldInfo, ModelInfo, ModelNo, Schema, StaticInfo};

/// The first field of that name.
fn field_among<'s>(fields: &'s [FieldInfo], name: &[u8]) -> Option<&'s FieldInfo>
    ensures { option_copied result ≡ find (λ f. bytes_eq f.name name.now) fields.now }
{
    fields.iter().find(|f| f.name.bytes() == name)
}

/// The field of a model that the name names.
pub(crate) fn field_named<'s>(fields: &'s [FieldInfo], name: &[u8]) -> Option<&'s FieldInfo>
    ensures { option_map field_info_of (option_copied result)
        ≡ spec.field_named (map field_info_of fields.now) name.now }
{
    field_among(fields, name)
}

/// The first model of that name.
fn model_among<'s>(models: &'s [ModelInfo], name: &[u8]) -> Option<&'s ModelInfo>
    ensures { option_copied result ≡ find (λ m. bytes_eq m.name name.now) models.now }
{
    models.iter().find(|m| m.name.bytes() == name)
}

/// The model that the name names.
pub(crate) fn model_named<'s>(models: &'s [ModelInfo], name: &[u8]) -> Option<&'s ModelInfo>
    ensures { option_map model_info_of (option_copied result)
        ≡ spec.model_named (map model_info_of models.now) name.now }
{
    model_among(models, name)
}

/// The first static of that name.
fn static_among<'s>(statics: &'s [StaticInfo], name: &[u8]) -> Option<&'s StaticInfo>
    ensures { option_copied result ≡ find (λ info. bytes_eq info.name name.now) statics.now }
{
    statics.iter().find(|info| info.name.bytes() == name)
}

/// The static that the name names.
fn static_named<'s>(s: &'s Schema, name: &[u8]) -> Option<&'s StaticInfo>
    ensures { option_map static_info_of (option_copied result)
        ≡ static_named (schema_of s.now) name.now }
{
    static_among(s.statics.as_slice(), name)
}

/// The static that a request names.
fn static_principal(s: &Schema, name: &Named) -> Result<Principal, Reply>
    ensures { Names (principal_named (schema_of s.now) (Who.Static name.now)) result }
{
    match static_named(s, name.name.bytes()) {
        Some(info) => Ok(Principal::Static(info.number)),
        None => Err(Reply::Unknown { at: name.at }),
    }
}

/// The record of a model that a request names.
fn record_principal(s: &Schema, model: &Named, id: WrittenId) -> Result<Principal, Reply>
    ensures { Names (principal_named (schema_of s.now) (Who.Record model.now id)) result }
{
    match model_named(s.models.as_slice(), model.name.bytes()) {
        Some(info) => Ok(Principal::Rec(info.number, id.number)),
        None => Err(Reply::Unknown { at: model.at }),
    }
}

/// The principal that a request names, or the reply that its name is unknown at its place. The record
/// need not be there, and its model need not be marked as principal.
pub fn principal_named(s: &Schema, who: &Who) -> Result<Principal, Reply>
    ensures { Names (principal_named (schema_of s.now) who.now) result }
{
    match who {
        Who::Static(name) => static_principal(s, name),
        Who::Record(model, id) => record_principal(s, model, *id),
    }
}

/// The model of the number.
fn model_numbered(models: &[ModelInfo], m: ModelNo) -> Option<&ModelInfo>
    ensures { option_copied result ≡ find (λ info. info.number == m) models.now }
{
    models.iter().find(|info| info.number == m)
}

/// The model of that number.
pub(crate) fn model_of_number(s: &Schema, m: ModelNo) -> Option<&ModelInfo>
    ensures { option_map model_info_of (option_copied result) ≡ model_of (schema_of s.now) m }
{
    model_numbered(s.models.as_slice(), m)
}
