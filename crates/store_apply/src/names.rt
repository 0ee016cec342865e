//! The names of the models and fields that a command names.

ghost use Rattle.std.specs.Prelude.{◌≡◌, ◌==◌};
ghost use Rattle.std.specs.List.{find};
ghost use Rattle.std.specs.Option.{option_copied};
ghost use Rattle.type_schema.specs.Commands.{HasField};
ghost use Rattle.type_schema.specs.SchemaViews.{schema_of};
ghost use Rattle.type_schema.specs.Typing.{HasModel};
ghost use Rattle.type_anew.specs.Names.{names_in};

use text_ast::Name;
use type_schema::{FieldInfo, FieldNo, ModelInfo, ModelNo, Schema};

/// The model of that number.
fn model_among(models: &[ModelInfo], number: ModelNo) -> Option<&ModelInfo>
    ensures { option_copied result ≡ find (λ m. m.number == number) models.now }
{
    models.iter().find(|m| m.number == number)
}

/// The field of that number.
fn field_among(fields: &[FieldInfo], number: FieldNo) -> Option<&FieldInfo>
    ensures { option_copied result ≡ find (λ f. f.number == number) fields.now }
{
    fields.iter().find(|f| f.number == number)
}

/// The name of a model that is there.
pub(crate) fn model_name(s: &Schema, m: ModelNo) -> &Name
    requires { HasModel (schema_of s.now) m }
    ensures { result.now ≡ (names_in (schema_of s.now)).model m }
{
    match model_among(s.models.as_slice(), m) {
        Some(info) => &info.name,
        None => unreachable!(),
    }
}

/// The name of a field that is there.
pub(crate) fn field_name(s: &Schema, m: ModelNo, f: FieldNo) -> &Name
    requires { HasField (schema_of s.now) m f }
    ensures { result.now ≡ (names_in (schema_of s.now)).field m f }
{
    let info = match model_among(s.models.as_slice(), m) {
        Some(info) => info,
        None => unreachable!(),
    };
    match field_among(info.fields.as_slice(), f) {
        Some(field) => &field.name,
        None => unreachable!(),
    }
}
