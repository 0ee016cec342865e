//! Slow records: those of models to which the script adds fields.

ghost use Rattle.std.specs.Prelude.{◌≡◌, ◌==◌, ◌++◌, [], false, map, IfOk, OnOk, if◌then◌else◌};
ghost use Rattle.std.specs.Option.{option_map_or};
ghost use Rattle.data_meaning.specs.Database.{ids_of, Record as StoredRecord};
ghost use Rattle.data_records.specs.Views.{record_data};
ghost use Rattle.online_meaning.specs.Deep.{added_by};
ghost use Rattle.online_meaning.specs.Marks as marks;
ghost use Rattle.online_meaning.proofs.Waits.{named};
ghost use Rattle.type_schema.specs.Schema.{Added};
ghost use Rattle.type_schema.specs.Script.{IsScript};
ghost use Rattle.type_schema.specs.SchemaViews.{command_of, script_of};

use data_records::{Database, Record};
use online_queue::RecordId;
use std::alloc::{AllocError, Global};
use type_schema::{ModelNo, TCommand, TScript};

/// Whether the command adds a field to the model.
pub(crate) fn adds_to(command: &TCommand, m: ModelNo) -> bool
    ensures { result ≡ option_map_or (λ (a : Added). a.model == m) (added_by (command_of command.now)) false }
{
    match command {
        TCommand::AddField(n, _, _) => *n == m,
        TCommand::CreateModel(_)
        | TCommand::DeleteModel(_)
        | TCommand::AddStatic(_)
        | TCommand::RemoveStatic(_)
        | TCommand::AddPrincipal(_)
        | TCommand::RemoveField(..)
        | TCommand::UpdateFieldPolicy(..)
        | TCommand::WeakenFieldPolicy(..)
        | TCommand::UpdatePolicy(..)
        | TCommand::WeakenPolicy(..) => false,
    }
}

/// Whether a command adds a field to the model.
pub fn is_slow(t: &TScript, m: ModelNo) -> bool
    ensures { result ≡ marks.is_slow (script_of t.now) m }
{
    let commands = t.commands.as_slice();
    let mut slow = false;
    for at in 0..commands.len() {
        slow = slow || adds_to(&commands[at], m);
    }
    slow
}

/// Puts the names of the records last.
fn add_names(
    names: &mut Vec<RecordId>,
    model: ModelNo,
    records: &[Record],
) -> Result<(), AllocError>
    ensures { OnOk result (names.new.items ≡ names.old.items
        ++ map (named model) (map (λ (r : StoredRecord). r.id) (map record_data records.now))) }
{
    for made in records {
        names.push(RecordId { model, id: made.id })?;
    }
    Ok(())
}

/// Puts the names of the records of the model last, if it is slow.
fn add_slow(
    names: &mut Vec<RecordId>,
    t: &TScript,
    d: &Database,
    m: ModelNo,
) -> Result<(), AllocError>
    ensures { OnOk result (names.new.items ≡ names.old.items
        ++ (if marks.is_slow (script_of t.now) m then map (named m) (ids_of d.now m) else [])) }
{
    if is_slow(t, m) {
        add_names(names, m, d.records(m))?;
    }
    Ok(())
}

/// The slow records of the database, by model and id.
pub fn slow_names(alloc: Global, t: &TScript, d: &Database) -> Result<Vec<RecordId>, AllocError>
    requires { IsScript (script_of t.now) }
    ensures { IfOk result (λ names. names.items ≡ marks.slow_records (script_of t.now) d.now) }
{
    let mut names = Vec::new(alloc);
    let models = t.schemas.as_slice()[0].models.as_slice();
    for info in models {
        add_slow(&mut names, t, d, info.number)?;
    }
    Ok(names)
}
