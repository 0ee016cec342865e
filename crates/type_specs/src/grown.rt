//! Copies of schemas, and schemas with one more static or model.

ghost use Rattle.std.specs.Prelude.{◌≡◌, IfOk, Ok};
ghost use Rattle.type_schema.specs.Commands.{add_static, create_model, schema_after};
ghost use Rattle.type_schema.specs.SchemaViews.{model_info_of, static_info_of};
ghost use Rattle.type_typing.specs.Names.{plain_of};
ghost use Rattle.type_specs.specs.InTurn.{Becomes};

use std::alloc::{AllocError, Global};
use type_schema::{ModelInfo, Schema, StaticInfo};
use type_typing::TypeErr;

/// An equal schema, which shares the policies and initialisers.
#[tactic(auto, unfolding(type_typing::specs::Names::plain_of))]
pub fn copied(alloc: Global, schema: &Schema) -> Result<Schema, AllocError>
    ensures { IfOk result (λ copy. plain_of copy ≡ plain_of schema.now) }
{
    schema.copy(alloc)
}

/// Adds a static.
#[tactic(auto, using(crate::proofs::Plain::pushed_static))]
pub fn push_static(schema: &mut Schema, info: StaticInfo) -> Result<(), TypeErr>
    ensures { Becomes (Ok (schema_after (plain_of schema.old) (add_static (static_info_of info))))
        (plain_of schema.new) result }
{
    // So many statics do not fit in memory.
    let Some(next) = schema.next_static.checked_add(1) else {
        return Err(TypeErr::OutOfMemory);
    };
    schema.statics.push(info)?;
    schema.next_static = next;
    Ok(())
}

/// Adds a model.
#[tactic(auto, using(crate::proofs::Plain::pushed_model))]
pub fn push_model(schema: &mut Schema, info: ModelInfo) -> Result<(), TypeErr>
    ensures { Becomes (Ok (schema_after (plain_of schema.old) (create_model (model_info_of info))))
        (plain_of schema.new) result }
{
    // So many models and fields do not fit in memory.
    let Some(next_model) = schema.next_model.checked_add(1) else {
        return Err(TypeErr::OutOfMemory);
    };
    let Ok(count) = u32::try_from(info.fields.len()) else {
        return Err(TypeErr::OutOfMemory);
    };
    let Some(next_field) = schema.next_field.checked_add(count) else {
        return Err(TypeErr::OutOfMemory);
    };
    schema.models.push(info)?;
    schema.next_model = next_model;
    schema.next_field = next_field;
    Ok(())
}
