//! What a name names in a schema.

ghost use Rattle.std.specs.Prelude.{◌≡◌, ◌==◌};
ghost use Rattle.std.specs.List.{find};
ghost use Rattle.std.specs.Option.{option_copied};
ghost use Rattle.std.specs.Str.{bytes_eq};
ghost use Rattle.type_schema.specs.Schema.{is_principal_model};
ghost use Rattle.type_typing.specs.Names as spec;
ghost use Rattle.type_typing.specs.Names.{plain_of};
ghost use Rattle.type_typing.specs.Outcome.{or_else};
ghost use Rattle.type_typing.specs.declared.type_err.TypeErr.TheVariants.{Unknown};

use crate::type_err::TypeErr;
use text_tree::Named;
use type_schema::{FieldInfo, FieldNo, ModelInfo, ModelNo, Schema, StaticInfo, StaticNo, TTy};

/// Whether two names are the same bytes.
pub fn same_name(a: &[u8], b: &[u8]) -> bool
    ensures { result ≡ bytes_eq a.now b.now }
{
    a == b
}

/// The first model of that name.
fn model_among<'s>(models: &'s [ModelInfo], name: &[u8]) -> Option<&'s ModelInfo>
    ensures { option_copied result ≡ find (λ m. bytes_eq m.name name.now) models.now }
{
    models.iter().find(|m| same_name(m.name.bytes(), name))
}

/// The model of that number.
fn model_at<'s>(models: &'s [ModelInfo], number: ModelNo) -> Option<&'s ModelInfo>
    ensures { option_copied result ≡ find (λ m. m.number == number) models.now }
{
    models.iter().find(|m| m.number == number)
}

/// The first field of that name.
fn field_among<'s>(fields: &'s [FieldInfo], name: &[u8]) -> Option<&'s FieldInfo>
    ensures { option_copied result ≡ find (λ f. bytes_eq f.name name.now) fields.now }
{
    fields.iter().find(|f| same_name(f.name.bytes(), name))
}

/// The first static of that name.
fn static_among<'s>(statics: &'s [StaticInfo], name: &[u8]) -> Option<&'s StaticInfo>
    ensures { option_copied result ≡ find (λ n. bytes_eq n.name name.now) statics.now }
{
    statics.iter().find(|n| same_name(n.name.bytes(), name))
}

/// The number of the model of that name.
pub fn model_named(schema: &Schema, name: &[u8]) -> Option<ModelNo>
    ensures { result ≡ spec.model_named (plain_of schema.now) name.now }
{
    let model = model_among(schema.models.as_slice(), name)?;
    Some(model.number)
}

/// The number of the static of that name.
pub fn static_named(schema: &Schema, name: &[u8]) -> Option<StaticNo>
    ensures { result ≡ spec.static_named (plain_of schema.now) name.now }
{
    let known = static_among(schema.statics.as_slice(), name)?;
    Some(known.number)
}

/// The number and the type of the field of that name of the model of that number.
pub fn field_named(schema: &Schema, model: ModelNo, name: &[u8]) -> Option<(FieldNo, TTy)>
    ensures { result ≡ spec.field_named (plain_of schema.now) model name.now }
{
    let model = model_at(schema.models.as_slice(), model)?;
    let field = field_among(model.fields.as_slice(), name)?;
    Some((field.number, field.ty))
}

/// The same, or that the name is unknown, at its place.
pub fn field_of_model(
    schema: &Schema,
    model: ModelNo,
    field: &Named,
) -> Result<(FieldNo, TTy), TypeErr>
    ensures { result
        ≡ or_else (spec.field_named (plain_of schema.now) model field.now.name)
        (Unknown field.now.at) }
{
    match field_named(schema, model, field.name.bytes()) {
        Some(found) => Ok(found),
        None => Err(TypeErr::Unknown { at: field.at }),
    }
}

/// Whether the model is there and marked as principal.
pub fn is_principal(schema: &Schema, model: ModelNo) -> bool
    ensures { result ≡ is_principal_model (plain_of schema.now) model }
{
    match model_at(schema.models.as_slice(), model) {
        Some(model) => model.principal,
        None => false,
    }
}
