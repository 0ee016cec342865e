//! The schema after a command.

ghost use Rattle.std.specs.Prelude.{◌≡◌, IfOk, Ok};
ghost use Rattle.std.specs.Option.{option_map};
ghost use Rattle.type_schema.specs.Commands as effect;
ghost use Rattle.type_schema.specs.SchemaViews.{command_of, field_info_of};
ghost use Rattle.type_schema.specs.SchemaViews.{model_info_of, static_info_of};
ghost use Rattle.type_schema.specs.Views.{init_of, policy_of};
ghost use Rattle.type_typing.specs.Names.{plain_of};
ghost use Rattle.type_specs.specs.InTurn.{Becomes, GivesSeen};
ghost use Rattle.type_commands.specs.Changes.{with_added};

use crate::change::Change;
use crate::changes::{changed, without_model, without_static};
use crate::parts::Given;
use crate::removed::removed_with_field;
use std::alloc::{AllocError, Global};
use std::rc::Rc;
use type_schema::{FieldInfo, FieldNo, ModelInfo, ModelNo, Schema, StaticInfo, TCommand, TInit};
use type_specs::{copied, push_model, push_static};
use type_typing::TypeErr;

/// The same policy, if one is given. It is shared.
fn copy_given(given: &Given) -> Result<Given, AllocError>
    ensures { IfOk result (λ copy. option_map (λ p. policy_of p.value) copy
        ≡ option_map (λ p. policy_of p.value) given.now) }
{
    match given {
        Some(policy) => Ok(Some(policy.clone()?)),
        None => Ok(None),
    }
}

/// The schema with a new model.
fn after_model(alloc: Global, schema: &Schema, info: &ModelInfo) -> Result<Schema, TypeErr>
    ensures { GivesSeen plain_of
        (Ok (effect.schema_after (plain_of schema.now)
        (effect.create_model (model_info_of info.now)))) result }
{
    let mut after = copied(alloc, schema)?;
    let info = info.copy(alloc)?;
    push_model(&mut after, info)?;
    Ok(after)
}

/// The schema with a new static.
fn after_static(alloc: Global, schema: &Schema, info: &StaticInfo) -> Result<Schema, TypeErr>
    ensures { GivesSeen plain_of
        (Ok (effect.schema_after (plain_of schema.now)
        (effect.add_static (static_info_of info.now)))) result }
{
    let mut after = copied(alloc, schema)?;
    let info = info.copy(alloc)?;
    push_static(&mut after, info)?;
    Ok(after)
}

/// Adds a field that the script added, and its initialiser.
fn push_added(
    schema: &mut Schema,
    model: ModelNo,
    field: FieldNo,
    init: Rc<TInit>,
) -> Result<(), TypeErr>
    ensures { Becomes (Ok (with_added (plain_of schema.old)
        (record { model = model; field = field; init = init_of init.value })))
        (plain_of schema.new) result }
{
    // So many fields do not fit in memory.
    let Some(next) = schema.next_field.checked_add(1) else {
        return Err(TypeErr::OutOfMemory);
    };
    schema.added.push((model, field, init))?;
    schema.next_field = next;
    Ok(())
}

/// The schema with a new field of a model, which it notes with its initialiser.
fn after_field(
    alloc: Global,
    schema: &Schema,
    model: ModelNo,
    field: &FieldInfo,
    init: &Rc<TInit>,
) -> Result<Schema, TypeErr>
    ensures { GivesSeen plain_of (Ok (effect.schema_after (plain_of schema.now)
        (effect.add_field model (field_info_of field.now) (init_of init.now.value)))) result }
{
    let copy = field.copy(alloc)?;
    let init = init.clone()?;
    let mut after = changed(alloc, schema, model, &Change::Field(copy))?;
    push_added(&mut after, model, field.number, init)?;
    Ok(after)
}

/// The schema without a field of a model.
fn after_removed_field(
    alloc: Global,
    schema: &Schema,
    model: ModelNo,
    field: FieldNo,
) -> Result<Schema, AllocError>
    ensures { IfOk result (λ after. plain_of after
        ≡ effect.schema_after (plain_of schema.now) (effect.remove_field model field)) }
{
    let removed = removed_with_field(alloc, schema, model, field)?;
    let mut after = changed(alloc, schema, model, &Change::WithoutField(field))?;
    after.removed = removed;
    Ok(after)
}

/// The schema with the policies of a field that are given.
fn after_field_policies(
    alloc: Global,
    schema: &Schema,
    model: ModelNo,
    field: FieldNo,
    read: &Given,
    write: &Given,
) -> Result<Schema, AllocError>
    ensures { IfOk result (λ after. plain_of after ≡ effect.schema_after (plain_of schema.now)
        (effect.update_field model field (option_map (λ p. policy_of p.value) read.now)
        (option_map (λ p. policy_of p.value) write.now))) }
{
    let read = copy_given(read)?;
    let write = copy_given(write)?;
    changed(
        alloc,
        schema,
        model,
        &Change::FieldPolicies(field, read, write),
    )
}

/// The schema with the policies of a model that are given.
fn after_policies(
    alloc: Global,
    schema: &Schema,
    model: ModelNo,
    create: &Given,
    delete: &Given,
) -> Result<Schema, AllocError>
    ensures { IfOk result (λ after. plain_of after ≡ effect.schema_after (plain_of schema.now)
        (effect.update_model model (option_map (λ p. policy_of p.value) create.now)
        (option_map (λ p. policy_of p.value) delete.now))) }
{
    let create = copy_given(create)?;
    let delete = copy_given(delete)?;
    changed(alloc, schema, model, &Change::Policies(create, delete))
}

/// The schema after a command. It shares the policies and initialisers of both.
pub fn schema_after(alloc: Global, schema: &Schema, c: &TCommand) -> Result<Schema, TypeErr>
    ensures { GivesSeen plain_of (Ok (effect.schema_after (plain_of schema.now) (command_of c.now)))
        result }
{
    match c {
        TCommand::CreateModel(info) => after_model(alloc, schema, info),
        TCommand::DeleteModel(m) => Ok(without_model(alloc, schema, *m)?),
        TCommand::AddStatic(info) => after_static(alloc, schema, info),
        TCommand::RemoveStatic(n) => Ok(without_static(alloc, schema, *n)?),
        TCommand::AddPrincipal(m) => Ok(changed(alloc, schema, *m, &Change::Principal)?),
        TCommand::AddField(m, f, init) => after_field(alloc, schema, *m, f, init),
        TCommand::RemoveField(m, f) => Ok(after_removed_field(alloc, schema, *m, *f)?),
        TCommand::UpdateFieldPolicy(m, f, read, write)
        | TCommand::WeakenFieldPolicy(m, f, read, write, _) => {
            Ok(after_field_policies(alloc, schema, *m, *f, read, write)?)
        }
        TCommand::UpdatePolicy(m, create, delete) | TCommand::WeakenPolicy(m, create, delete, _) =>
            { Ok(after_policies(alloc, schema, *m, create, delete)?) }
    }
}
