//! Fields that commands remove.

ghost use Rattle.std.specs.Prelude.{◌≡◌, ◌==◌, ◌++◌, IfOk, filter, map};
ghost use Rattle.type_schema.specs.Commands as effect;
ghost use Rattle.type_schema.specs.SchemaViews.{field_info_of};
ghost use Rattle.type_typing.specs.Names.{plain_of};

use crate::parts::model_at;
use sqlite_items::Items;
use std::alloc::{AllocError, Global};
use type_schema::{FieldInfo, FieldNo, ModelNo, RemovedField, Schema};

/// The fields of the model of this number, and none where there is no such model.
fn fields_in(schema: &Schema, model: ModelNo) -> &[FieldInfo]
    ensures { map field_info_of result.now ≡ effect.fields_in (plain_of schema.now) model }
{
    match model_at(schema.models.as_slice(), model) {
        Some(info) => info.fields.as_slice(),
        None => &[],
    }
}

/// The field of the model as one that is removed.
fn as_removed(model: ModelNo, field: &FieldInfo) -> RemovedField
    ensures { result ≡ effect.as_removed model (field_info_of field.now) }
{
    RemovedField {
        model,
        field: field.number,
        ty: field.ty,
    }
}

/// These removed fields, and those removed before.
fn followed_by(
    mut removed: Vec<RemovedField>,
    before: &[RemovedField],
) -> Result<Items<RemovedField>, AllocError>
    ensures { IfOk result (λ all. all ≡ removed.items ++ before.now) }
{
    removed.extend_from_slice(before)?;
    Ok(Items::from_vec(removed))
}

/// What is removed once the model goes.
#[tactic(auto, unfolding(type_typing::specs::Names::plain_of))]
pub fn removed_with_model(
    alloc: Global,
    schema: &Schema,
    model: ModelNo,
) -> Result<Items<RemovedField>, AllocError>
    ensures { let s = plain_of schema.now in IfOk result (λ removed.
        removed ≡ effect.removed_with model (effect.fields_in s model) s.removed) }
{
    let fields = fields_in(schema, model);
    let mut removed = Vec::new(alloc);
    for field in fields {
        removed.push(as_removed(model, field))?;
    }
    followed_by(removed, schema.removed.as_slice())
}

/// What is removed once the field of this number goes.
#[tactic(auto, unfolding(type_typing::specs::Names::plain_of))]
pub fn removed_with_field(
    alloc: Global,
    schema: &Schema,
    model: ModelNo,
    number: FieldNo,
) -> Result<Items<RemovedField>, AllocError>
    ensures { let s = plain_of schema.now in IfOk result (λ removed.
        removed ≡ effect.removed_with model
        (filter (λ f. f.number == number) (effect.fields_in s model)) s.removed) }
{
    let fields = fields_in(schema, model);
    let mut removed = Vec::new(alloc);
    for field in fields {
        if field.number == number {
            removed.push(as_removed(model, field))?;
        }
    }
    followed_by(removed, schema.removed.as_slice())
}
