//! The names of what has a number in a schema.

ghost use Rattle.std.specs.Prelude.{◌≡◌, ◌==◌, IfOk};
ghost use Rattle.std.specs.List.{find};
ghost use Rattle.std.specs.Option.{option_copied};
ghost use Rattle.type_schema.specs.SchemaViews.{schema_of};
ghost use Rattle.type_anew.specs.Names as spec;

use std::alloc::{AllocError, Global};
use text_ast::Name;
use text_tree::Named;
use type_schema::{FieldInfo, FieldNo, ModelInfo, ModelNo, Schema, StaticInfo, StaticNo};

/// The model of that number.
fn model_among(models: &[ModelInfo], number: ModelNo) -> Option<&ModelInfo>
    ensures { option_copied result ≡ find (λ m. m.number == number) models.now }
{
    models.iter().find(|m| m.number == number)
}

/// The field of that number.
fn field_among(fields: &[FieldInfo], number: FieldNo) -> Option<&FieldInfo>
    ensures { option_copied result ≡ find (λ f. f.number == number) fields.now }
{
    fields.iter().find(|f| f.number == number)
}

/// The static of that number.
fn static_among(statics: &[StaticInfo], number: StaticNo) -> Option<&StaticInfo>
    ensures { option_copied result ≡ find (λ n. n.number == number) statics.now }
{
    statics.iter().find(|n| n.number == number)
}

/// The name in a tree. All offsets are 0.
pub fn named(alloc: Global, name: &Name) -> Result<Named, AllocError>
    ensures { IfOk result (λ x. x ≡ spec.named name.now) }
{
    let name = name.copy(alloc)?;
    Ok(Named { name, at: 0 })
}

/// The name of the model. A number that is no model's counts as memory that is not there, here and
/// below.
pub fn model_name(alloc: Global, s: &Schema, m: ModelNo) -> Result<Named, AllocError>
    ensures { IfOk result (λ x. x ≡ spec.named ((spec.names_in (schema_of s.now)).model m)) }
{
    match model_among(s.models.as_slice(), m) {
        Some(info) => named(alloc, &info.name),
        None => Err(AllocError),
    }
}

/// The name of the field of a model.
pub fn field_name(alloc: Global, s: &Schema, m: ModelNo, f: FieldNo) -> Result<Named, AllocError>
    ensures { IfOk result (λ x. x ≡ spec.named ((spec.names_in (schema_of s.now)).field m f)) }
{
    let Some(info) = model_among(s.models.as_slice(), m) else {
        return Err(AllocError);
    };
    match field_among(info.fields.as_slice(), f) {
        Some(info) => named(alloc, &info.name),
        None => Err(AllocError),
    }
}

/// The name of the static.
pub fn static_name(alloc: Global, s: &Schema, n: StaticNo) -> Result<Named, AllocError>
    ensures { IfOk result (λ x. x ≡ spec.named ((spec.names_in (schema_of s.now)).static n)) }
{
    match static_among(s.statics.as_slice(), n) {
        Some(info) => named(alloc, &info.name),
        None => Err(AllocError),
    }
}
