//! What one command changes.

ghost use Rattle.std.specs.Prelude.{◌≡◌, [], ◌∷◌, ◌++◌, map, nat_eq, IfOk, OnErr, OnOk};
ghost use Rattle.std.specs.List.{IsDistinct};
ghost use Rattle.data_meaning.specs.Database as plain;
ghost use Rattle.data_meaning.specs.Database.{records_of};
ghost use Rattle.data_meaning.specs.Run.{after_command, change_slots, init_value};
ghost use Rattle.data_records.specs.Inserted.{empty_table};
ghost use Rattle.data_records.specs.Views.{value_data};
ghost use Rattle.type_schema.specs.Script.{created_by};
ghost use Rattle.type_schema.specs.SchemaViews.{command_of};
ghost use Rattle.type_schema.specs.Views.{init_of};

use data_members::init_value;
use data_records::{Database, Value};
use std::alloc::{AllocError, Global};
use type_schema::{FieldNo, ModelNo, TCommand, TInit};

/// What the initialiser gives at each record of the model, in their order.
fn values_at(
    alloc: Global,
    database: &Database,
    m: ModelNo,
    init: &TInit,
) -> Result<Vec<Value>, AllocError>
    ensures { IfOk result (λ values. map value_data values.items
        ≡ map (λ (r : plain.Record). init_value database.now (init_of init.now) r.id)
        (records_of database.now m)) }
{
    let mut values = Vec::new(alloc);
    let records = database.records(m);
    for made in records {
        let value = init_value(alloc, database, init, made.id)?;
        values.push(value)?;
    }
    Ok(values)
}

/// Adds a field to the records of the model, each with what the initialiser gives at it before.
/// After an error the database is as it was.
fn add_field(
    alloc: Global,
    database: &mut Database,
    m: ModelNo,
    f: FieldNo,
    init: &TInit,
) -> Result<(), AllocError>
    requires { IsDistinct nat_eq (map (λ (t : plain.Table). t.model) database.old) }
    ensures ok { OnOk result (database.new ≡ change_slots m (λ (r : plain.Record). r.slots
        ++ (record { field = f; value = init_value database.old (init_of init.now) r.id }) ∷ [])
        database.old) }
    ensures err { OnErr result (database.new ≡ database.old) }
{
    let values = values_at(alloc, database, m, init)?;
    database.add_field(m, f, values)
}

/// The database after the command, in its place. After an error it is as it was.
pub(crate) fn apply(
    alloc: Global,
    database: &mut Database,
    command: &TCommand,
) -> Result<(), AllocError>
    requires { IsDistinct nat_eq (map (λ (t : plain.Table). t.model) database.old) }
    ensures ok { OnOk result (database.new ≡ after_command (command_of command.now) database.old) }
    ensures err { OnErr result (database.new ≡ database.old) }
{
    match command {
        TCommand::AddField(m, field, init) => add_field(alloc, database, *m, field.number, init),
        TCommand::RemoveField(m, f) => {
            database.take_field(*m, *f);
            Ok(())
        }
        TCommand::DeleteModel(m) => {
            database.drop_table(*m);
            Ok(())
        }
        TCommand::CreateModel(_)
        | TCommand::AddStatic(_)
        | TCommand::RemoveStatic(_)
        | TCommand::AddPrincipal(_)
        | TCommand::UpdateFieldPolicy(..)
        | TCommand::WeakenFieldPolicy(..)
        | TCommand::UpdatePolicy(..)
        | TCommand::WeakenPolicy(..) => Ok(()),
    }
}

/// Adds an empty table for the model that the command creates, if it creates one. After an error
/// the database is as it was.
pub(crate) fn add_created(
    alloc: Global,
    database: &mut Database,
    command: &TCommand,
) -> Result<(), AllocError>
    ensures ok { OnOk result (database.new
        ≡ database.old ++ map empty_table (created_by (command_of command.now))) }
    ensures err { OnErr result (database.new ≡ database.old) }
{
    match command {
        TCommand::CreateModel(info) => database.add_table(alloc, info),
        TCommand::DeleteModel(_)
        | TCommand::AddStatic(_)
        | TCommand::RemoveStatic(_)
        | TCommand::AddPrincipal(_)
        | TCommand::AddField(..)
        | TCommand::RemoveField(..)
        | TCommand::UpdateFieldPolicy(..)
        | TCommand::WeakenFieldPolicy(..)
        | TCommand::UpdatePolicy(..)
        | TCommand::WeakenPolicy(..) => Ok(()),
    }
}
