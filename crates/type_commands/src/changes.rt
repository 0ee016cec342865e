//! What commands change of a schema.

ghost use Rattle.std.specs.Prelude.{◌≡◌, ◌==◌, IfOk, filter, map, not};
ghost use Rattle.std.specs.Option.{option_map};
ghost use Rattle.type_schema.specs.Commands as effect;
ghost use Rattle.type_schema.specs.SchemaViews.{field_info_of, model_info_of, static_info_of};
ghost use Rattle.type_schema.specs.Views.{policy_of};
ghost use Rattle.type_typing.specs.Names.{plain_of};
ghost use Rattle.type_commands.specs.Changes.{as_principal, change_of, changed_schema, with_given};

use crate::change::Change;
use crate::parts::Given;
use crate::removed::removed_with_model;
use sqlite_items::Items;
use std::alloc::{AllocError, Global};
use std::rc::Rc;
use type_schema::{FieldInfo, FieldNo, ModelInfo, ModelNo, Schema, StaticInfo, StaticNo, TPolicy};

/// The policy that is given, or the one before.
fn given_or(given: &Given, before: &Rc<TPolicy>) -> Result<Rc<TPolicy>, AllocError>
    ensures { IfOk result (λ p. policy_of p.value ≡ effect.given_or
        (option_map (λ q. policy_of q.value) given.now) (policy_of before.now.value)) }
{
    match given {
        Some(policy) => policy.clone(),
        None => before.clone(),
    }
}

/// The fields without the one of this number.
fn fields_without(
    alloc: Global,
    fields: &[FieldInfo],
    number: FieldNo,
) -> Result<Items<FieldInfo>, AllocError>
    ensures { IfOk result (λ rest. map field_info_of rest
        ≡ filter (λ f. not (f.number == number)) (map field_info_of fields.now)) }
{
    let mut rest = Vec::new(alloc);
    for field in fields {
        if field.number != number {
            let copy = field.copy(alloc)?;
            rest.push(copy)?;
        }
    }
    Ok(Items::from_vec(rest))
}

/// The field with the policies that are given.
fn field_with(
    alloc: Global,
    field: &FieldInfo,
    read: &Given,
    write: &Given,
) -> Result<FieldInfo, AllocError>
    ensures { IfOk result (λ changed. field_info_of changed ≡ with_given
        (option_map (λ p. policy_of p.value) read.now)
        (option_map (λ p. policy_of p.value) write.now) (field_info_of field.now)) }
{
    let name = field.name.copy(alloc)?;
    let read = given_or(read, &field.read)?;
    let write = given_or(write, &field.write)?;
    Ok(FieldInfo {
        number: field.number,
        name,
        ty: field.ty,
        read,
        write,
    })
}

/// The fields, of which the one of this number has the policies that are given.
fn fields_with(
    alloc: Global,
    fields: &[FieldInfo],
    number: FieldNo,
    read: &Given,
    write: &Given,
) -> Result<Items<FieldInfo>, AllocError>
    ensures { IfOk result (λ changed. map field_info_of changed ≡ effect.change_field number
        (with_given (option_map (λ p. policy_of p.value) read.now)
        (option_map (λ p. policy_of p.value) write.now)) (map field_info_of fields.now)) }
{
    let mut changed = Vec::new(alloc);
    for field in fields {
        let next = if field.number == number {
            field_with(alloc, field, read, write)?
        } else {
            field.copy(alloc)?
        };
        changed.push(next)?;
    }
    Ok(Items::from_vec(changed))
}

/// The model as a principal.
fn as_principal(alloc: Global, info: &ModelInfo) -> Result<ModelInfo, AllocError>
    ensures { IfOk result (λ changed.
        model_info_of changed ≡ as_principal (model_info_of info.now)) }
{
    let mut changed = info.copy(alloc)?;
    changed.principal = true;
    Ok(changed)
}

/// The model with one more field.
fn model_with_field(
    alloc: Global,
    info: &ModelInfo,
    field: &FieldInfo,
) -> Result<ModelInfo, AllocError>
    ensures { IfOk result (λ changed. model_info_of changed
        ≡ effect.with_field (field_info_of field.now) (model_info_of info.now)) }
{
    let mut changed = info.copy(alloc)?;
    let field = field.copy(alloc)?;
    changed.fields.push(field)?;
    Ok(changed)
}

/// The model without the field of this number.
fn model_without_field(
    alloc: Global,
    info: &ModelInfo,
    number: FieldNo,
) -> Result<ModelInfo, AllocError>
    ensures { IfOk result (λ changed.
        model_info_of changed ≡ effect.without_field number (model_info_of info.now)) }
{
    let fields = fields_without(alloc, info.fields.as_slice(), number)?;
    let mut changed = info.copy(alloc)?;
    changed.fields = fields;
    Ok(changed)
}

/// The model, of which the field of this number has the policies that are given.
fn model_with_field_policies(
    alloc: Global,
    info: &ModelInfo,
    number: FieldNo,
    read: &Given,
    write: &Given,
) -> Result<ModelInfo, AllocError>
    ensures { IfOk result (λ changed. model_info_of changed
        ≡ effect.with_field_policies number (option_map (λ p. policy_of p.value) read.now)
        (option_map (λ p. policy_of p.value) write.now) (model_info_of info.now)) }
{
    let fields = fields_with(alloc, info.fields.as_slice(), number, read, write)?;
    let mut changed = info.copy(alloc)?;
    changed.fields = fields;
    Ok(changed)
}

/// The model with the policies that are given.
fn model_with_policies(
    alloc: Global,
    info: &ModelInfo,
    create: &Given,
    delete: &Given,
) -> Result<ModelInfo, AllocError>
    ensures { IfOk result (λ changed. model_info_of changed
        ≡ effect.with_model_policies (option_map (λ p. policy_of p.value) create.now)
        (option_map (λ p. policy_of p.value) delete.now) (model_info_of info.now)) }
{
    let create = given_or(create, &info.create)?;
    let delete = given_or(delete, &info.delete)?;
    let mut changed = info.copy(alloc)?;
    changed.create = create;
    changed.delete = delete;
    Ok(changed)
}

/// The model, changed.
fn changed_model(alloc: Global, info: &ModelInfo, change: &Change) -> Result<ModelInfo, AllocError>
    ensures { IfOk result (λ changed.
        model_info_of changed ≡ change_of change.now (model_info_of info.now)) }
{
    match change {
        Change::Principal => as_principal(alloc, info),
        Change::Field(field) => model_with_field(alloc, info, field),
        Change::WithoutField(number) => model_without_field(alloc, info, *number),
        Change::FieldPolicies(number, read, write) => {
            model_with_field_policies(alloc, info, *number, read, write)
        }
        Change::Policies(create, delete) => model_with_policies(alloc, info, create, delete),
    }
}

/// The models, of which the one of this number is changed.
fn changed_models(
    alloc: Global,
    models: &[ModelInfo],
    number: ModelNo,
    change: &Change,
) -> Result<Items<ModelInfo>, AllocError>
    ensures { IfOk result (λ changed. map model_info_of changed
        ≡ effect.change_model number (change_of change.now) (map model_info_of models.now)) }
{
    let mut changed = Vec::new(alloc);
    for info in models {
        let next = if info.number == number {
            changed_model(alloc, info, change)?
        } else {
            info.copy(alloc)?
        };
        changed.push(next)?;
    }
    Ok(Items::from_vec(changed))
}

/// The schema, of which the model of this number is changed.
pub fn changed(
    alloc: Global,
    schema: &Schema,
    number: ModelNo,
    change: &Change,
) -> Result<Schema, AllocError>
    ensures { IfOk result (λ after. plain_of after
        ≡ changed_schema (plain_of schema.now) number (change_of change.now)) }
{
    let models = changed_models(alloc, schema.models.as_slice(), number, change)?;
    let mut after = schema.copy(alloc)?;
    after.models = models;
    Ok(after)
}

/// The models without the one of this number.
fn models_without(
    alloc: Global,
    models: &[ModelInfo],
    number: ModelNo,
) -> Result<Items<ModelInfo>, AllocError>
    ensures { IfOk result (λ rest. map model_info_of rest
        ≡ filter (λ m. not (m.number == number)) (map model_info_of models.now)) }
{
    let mut rest = Vec::new(alloc);
    for info in models {
        if info.number != number {
            let copy = info.copy(alloc)?;
            rest.push(copy)?;
        }
    }
    Ok(Items::from_vec(rest))
}

/// The schema without the model of this number.
pub fn without_model(alloc: Global, schema: &Schema, number: ModelNo) -> Result<Schema, AllocError>
    ensures { IfOk result (λ after. plain_of after
        ≡ effect.schema_after (plain_of schema.now) (effect.delete_model number)) }
{
    let models = models_without(alloc, schema.models.as_slice(), number)?;
    let removed = removed_with_model(alloc, schema, number)?;
    let mut after = schema.copy(alloc)?;
    after.models = models;
    after.removed = removed;
    Ok(after)
}

/// The statics without the one of this number.
fn statics_without(
    alloc: Global,
    statics: &[StaticInfo],
    number: StaticNo,
) -> Result<Items<StaticInfo>, AllocError>
    ensures { IfOk result (λ rest. map static_info_of rest
        ≡ filter (λ n. not (n.number == number)) (map static_info_of statics.now)) }
{
    let mut rest = Vec::new(alloc);
    for info in statics {
        if info.number == number {
            continue;
        }
        let copy = info.copy(alloc)?;
        rest.push(copy)?;
    }
    Ok(Items::from_vec(rest))
}

/// The schema without the static of this number.
pub fn without_static(
    alloc: Global,
    schema: &Schema,
    number: StaticNo,
) -> Result<Schema, AllocError>
    ensures { IfOk result (λ after. plain_of after
        ≡ effect.schema_after (plain_of schema.now) (effect.remove_static number)) }
{
    let statics = statics_without(alloc, schema.statics.as_slice(), number)?;
    let mut after = schema.copy(alloc)?;
    after.statics = statics;
    Ok(after)
}
