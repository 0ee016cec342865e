//! The schema of start databases.

ghost use Rattle.std.specs.Prelude.{◌≡◌, ◌++◌, IfOk, OnOk, map};
ghost use Rattle.type_schema.specs.Script as script;
ghost use Rattle.type_schema.specs.SchemaViews.{command_of, field_info_of, model_info_of};
ghost use Rattle.type_schema.specs.SchemaViews.{schema_of};
ghost use Rattle.type_scripts.specs.Running.{start_from};

use sqlite_items::Items;
use std::alloc::{AllocError, Global};
use std::rc::Rc;
use type_schema::{FieldInfo, ModelInfo, Schema, TCommand, TPolicy};

/// The field with policies that allow nobody.
fn closed_field(alloc: Global, field: &FieldInfo) -> Result<FieldInfo, AllocError>
    ensures { IfOk result (λ closed.
        field_info_of closed ≡ script.closed_field (field_info_of field.now)) }
{
    let name = field.name.copy(alloc)?;
    let read = Rc::new(alloc, TPolicy::Nobody)?;
    let write = Rc::new(alloc, TPolicy::Nobody)?;
    Ok(FieldInfo {
        number: field.number,
        name,
        ty: field.ty,
        read,
        write,
    })
}

/// The fields with policies that allow nobody.
fn closed_fields(alloc: Global, fields: &[FieldInfo]) -> Result<Items<FieldInfo>, AllocError>
    ensures { IfOk result (λ closed.
        map field_info_of closed ≡ map script.closed_field (map field_info_of fields.now)) }
{
    let mut closed = Vec::new(alloc);
    for field in fields {
        let next = closed_field(alloc, field)?;
        closed.push(next)?;
    }
    Ok(Items::from_vec(closed))
}

/// The model with policies that allow nobody.
fn closed_model(alloc: Global, model: &ModelInfo) -> Result<ModelInfo, AllocError>
    ensures { IfOk result (λ closed.
        model_info_of closed ≡ script.closed_model (model_info_of model.now)) }
{
    let name = model.name.copy(alloc)?;
    let create = Rc::new(alloc, TPolicy::Nobody)?;
    let delete = Rc::new(alloc, TPolicy::Nobody)?;
    let fields = closed_fields(alloc, model.fields.as_slice())?;
    Ok(ModelInfo {
        number: model.number,
        name,
        principal: model.principal,
        create,
        delete,
        fields,
    })
}

/// Puts the model that a command creates last, if it does, with policies that allow nobody.
fn add_created(
    alloc: Global,
    models: &mut Items<ModelInfo>,
    command: &TCommand,
) -> Result<(), AllocError>
    ensures { OnOk result (map model_info_of models.new
        ≡ map model_info_of models.old ++ script.created_by (command_of command.now)) }
{
    match command {
        TCommand::CreateModel(model) => {
            let closed = closed_model(alloc, model)?;
            models.push(closed)
        }
        TCommand::DeleteModel(_)
        | TCommand::AddStatic(_)
        | TCommand::RemoveStatic(_)
        | TCommand::AddPrincipal(_)
        | TCommand::AddField(..)
        | TCommand::RemoveField(..)
        | TCommand::UpdateFieldPolicy(..)
        | TCommand::WeakenFieldPolicy(..)
        | TCommand::UpdatePolicy(..)
        | TCommand::WeakenPolicy(..) => Ok(()),
    }
}

/// Puts the models that commands create last, with policies that allow nobody.
fn add_all_created(
    alloc: Global,
    models: &mut Items<ModelInfo>,
    commands: &[TCommand],
) -> Result<(), AllocError>
    ensures { OnOk result (map model_info_of models.new
        ≡ map model_info_of models.old ++ script.created (map command_of commands.now)) }
{
    for command in commands {
        add_created(alloc, models, command)?;
    }
    Ok(())
}

/// The schema of the databases that may be there before commands that lead from the first schema
/// to the last: the statics and models of the first, the models that the commands create, with
/// policies that allow nobody, and the next numbers of the last.
pub(crate) fn start_schema(
    alloc: Global,
    first: &Schema,
    commands: &[TCommand],
    last: &Schema,
) -> Result<Schema, AllocError>
    ensures { IfOk result (λ start. schema_of start ≡ start_from
        (schema_of first.now) (map command_of commands.now) (schema_of last.now)) }
{
    let mut start = first.copy(alloc)?;
    add_all_created(alloc, &mut start.models, commands)?;
    start.next_static = last.next_static;
    start.next_model = last.next_model;
    start.next_field = last.next_field;
    start.added = Items::new(alloc);
    start.removed = Items::new(alloc);
    Ok(start)
}
