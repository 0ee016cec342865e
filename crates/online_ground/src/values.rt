//! What initialisers give at a record.

ghost use Rattle.std.specs.Prelude.{◌≡◌, ◌==◌, ◌++◌, false, map, true, IfOk, OnOk, if◌then◌else◌};
ghost use Rattle.std.specs.Option.{option_map_or};
ghost use Rattle.data_meaning.specs.Database.{HasNoFurtherTables, IsDatabase};
ghost use Rattle.data_records.specs.Views.{value_data};
ghost use Rattle.online_counted.specs.Counted.{risen};
ghost use Rattle.online_ground.specs.Grounds.{AreGrounds, rises, value_by};
ghost use Rattle.online_meaning.specs.Deep.{added_by};
ghost use Rattle.online_meaning.specs.Known as known;
ghost use Rattle.online_meaning.specs.Marks.{is_among, slow_records};
ghost use Rattle.online_meaning.specs.Rollouts.{added_count};
ghost use Rattle.type_schema.specs.Schema.{Added};
ghost use Rattle.type_schema.specs.Script.{count, IsScript, schema_at};
ghost use Rattle.type_schema.specs.SchemaViews.{command_of, script_of};

use crate::grounds::Grounds;
use data_records::{Database, Value};
use online_counted::{Evaluations, value_counted};
use online_queue::RecordId;
use std::alloc::{AllocError, Global};
use type_schema::{TCommand, TScript};

/// Puts what the initialiser of the command gives at the record last, if the command adds a field to
/// its model.
fn add_value(
    alloc: Global,
    command: &TCommand,
    ground: &Database,
    r: RecordId,
    values: &mut Vec<Value>,
    evaluations: &mut Evaluations,
) -> Result<(), AllocError>
    ensures values { OnOk result (map value_data values.new.items
        ≡ map value_data values.old.items ++ value_by (command_of command.now) ground.now r) }
    ensures counted { evaluations.new
        ≡ (if option_map_or (λ (a : Added). a.model == r.model) (added_by (command_of command.now)) false
        then risen evaluations.old else evaluations.old) }
{
    match command {
        TCommand::AddField(m, _, init) if *m == r.model => {
            let value = value_counted(alloc, ground, init, r.id, evaluations)?;
            values.push(value)?;
        }
        _ => {}
    }
    Ok(())
}

/// What the initialisers of the fields that the script adds to its model give at the slow record, each
/// when its command comes.
pub fn added_values(
    alloc: Global,
    t: &TScript,
    grounds: &Grounds,
    d: &Database,
    r: RecordId,
    evaluations: &mut Evaluations,
) -> Result<Vec<Value>, AllocError>
    requires script { IsScript (script_of t.now) }
    requires over { IsDatabase (schema_at (script_of t.now) 0) d.now }
    requires only { HasNoFurtherTables (schema_at (script_of t.now) 0) d.now }
    requires grounds { AreGrounds (script_of t.now) d.now grounds.now }
    requires slow { is_among r (slow_records (script_of t.now) d.now) ≡ true }
    ensures values { IfOk result (λ values. map value_data values.items
        ≡ known.added_values (script_of t.now) d.now r (count (script_of t.now))) }
    ensures counted { OnOk result (evaluations.new
        ≡ rises (added_count (script_of t.now) r.model) evaluations.old) }
{
    let mut values = Vec::new(alloc);
    let commands = t.commands.as_slice();
    for k in 0..commands.len() {
        add_value(
            alloc,
            &commands[k],
            grounds.at(d, k),
            r,
            &mut values,
            evaluations,
        )?;
    }
    Ok(values)
}
