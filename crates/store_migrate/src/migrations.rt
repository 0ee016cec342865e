//! Databases before and after commands of a script.

ghost use Rattle.std.specs.Prelude.{◌≡◌, ◌≤◌, ◌++◌, map, IfOk, OnOk};
ghost use Rattle.data_meaning.specs.Database.{HasNoFurtherTables, IsDatabase, IsInOrder};
ghost use Rattle.data_meaning.specs.Gain.{IsStart};
ghost use Rattle.data_meaning.specs.Run.{run_to, widened};
ghost use Rattle.data_records.specs.Inserted.{empty_table};
ghost use Rattle.type_schema.specs.Script.{count, created, schema_at, IsScript};
ghost use Rattle.type_schema.specs.SchemaViews.{command_of, script_of};

use crate::commands::{add_created, apply};
use data_records::Database;
use std::alloc::{AllocError, Global};
use type_schema::{TCommand, TScript};

/// Adds an empty table for each model that the commands create.
fn add_all_created(
    alloc: Global,
    database: &mut Database,
    commands: &[TCommand],
) -> Result<(), AllocError>
    ensures { OnOk result (database.new
        ≡ database.old ++ map empty_table (created (map command_of commands.now))) }
{
    for command in commands {
        add_created(alloc, database, command)?;
    }
    Ok(())
}

/// The start database after the first k commands, in its place. An error leaves it after some of
/// them.
fn run(alloc: Global, database: &mut Database, t: &TScript, k: usize) -> Result<(), AllocError>
    requires script { IsScript (script_of t.now) }
    requires start { IsStart (script_of t.now) database.old }
    requires within { k ≤ count (script_of t.now) }
    ensures { OnOk result (database.new ≡ run_to (script_of t.now) k database.old) }
{
    let commands = t.commands.as_slice();
    for at in 0..k {
        apply(alloc, database, &commands[at])?;
    }
    Ok(())
}

/// The database with an empty table for each model that the script creates. It is over the schema
/// before the script, with no further tables.
pub fn widen(alloc: Global, t: &TScript, d: &Database) -> Result<Database, AllocError>
    requires script { IsScript (script_of t.now) }
    requires over { IsDatabase (schema_at (script_of t.now) 0) d.now }
    requires only { HasNoFurtherTables (schema_at (script_of t.now) 0) d.now }
    ensures widened { IfOk result (λ after. after ≡ widened (script_of t.now) d.now) }
    ensures start { IfOk result (IsStart (script_of t.now)) }
{
    let mut database = d.copy(alloc)?;
    add_all_created(alloc, &mut database, t.commands.as_slice())?;
    Ok(database)
}

/// The start database after the first k commands.
pub fn prefix(alloc: Global, t: &TScript, k: u32, d: &Database) -> Result<Database, AllocError>
    requires script { IsScript (script_of t.now) }
    requires start { IsStart (script_of t.now) d.now }
    requires within { k ≤ count (script_of t.now) }
    ensures run { IfOk result (λ after. after ≡ run_to (script_of t.now) k d.now) }
    ensures database { IfOk result (IsDatabase (schema_at (script_of t.now) k)) }
{
    let mut database = d.copy(alloc)?;
    run(alloc, &mut database, t, k as usize)?;
    Ok(database)
}

/// The database after all commands, where the models that the script creates have no records at
/// first. It is over the schema before the script, with no further tables. It may grow heavier than
/// a database that records are inserted into.
pub fn migrate(alloc: Global, t: &TScript, d: &Database) -> Result<Database, AllocError>
    requires script { IsScript (script_of t.now) }
    requires over { IsDatabase (schema_at (script_of t.now) 0) d.now }
    requires only { HasNoFurtherTables (schema_at (script_of t.now) 0) d.now }
    ensures run { IfOk result (λ after. after
        ≡ run_to (script_of t.now) (count (script_of t.now)) (widened (script_of t.now) d.now)) }
    ensures database { IfOk result
        (IsDatabase (schema_at (script_of t.now) (count (script_of t.now)))) }
    ensures only { IfOk result
        (HasNoFurtherTables (schema_at (script_of t.now) (count (script_of t.now)))) }
    ensures order { IsInOrder (schema_at (script_of t.now) 0) d.now →
        IfOk result (IsInOrder (schema_at (script_of t.now) (count (script_of t.now)))) }
{
    let mut database = widen(alloc, t, d)?;
    run(alloc, &mut database, t, t.commands.len())?;
    Ok(database)
}
