//! Databases before and after commands of scripts, worked out by hand.

ghost use Rattle.std.specs.Prelude.{◌≡◌, IfOk, IsTrue};
ghost use Rattle.std.specs.List.{AllByRecursion};
ghost use Rattle.data_meaning.specs.Database.{HasNoFurtherTables, IsDatabase};
ghost use Rattle.data_meaning.specs.Gain.{IsStart};
ghost use Rattle.type_commands.specs.CommandLaw.{IsWritten};
ghost use Rattle.type_schema.specs.Script.{schema_at, IsScript};
ghost use Rattle.type_schema.specs.SchemaViews.{schema_of, script_of};

use data_print::print_database;
use data_read::read_database;
use data_records::Database;
use std::alloc::Global;
use std::test::Fail;
use store_migrate::{migrate, prefix, widen};
use text_parse::{parse_script, parse_spec};
use text_tree::Command;
use type_schema::{Schema, TScript};
use type_scripts::{type_script, type_spec};

mod company;
mod users;

/// How long a text of these tests may be.
const LONGEST_TEXT: usize = 65_536;

/// Whether the command is one that the grammar spells.
fn is_written(command: &Command) -> bool
    ensures { IsTrue result → IsWritten command.now }
{
    match command {
        Command::UpdateFieldPolicy(_, _, read, write, _) => read.is_some() || write.is_some(),
        Command::UpdatePolicy(_, create, delete, _) => create.is_some() || delete.is_some(),
        Command::WeakenFieldPolicy(_, _, read, write, reason, _) => {
            let _text = reason.text.bytes();
            read.is_some() || write.is_some()
        }
        Command::WeakenPolicy(_, create, delete, reason, _) => {
            let _text = reason.text.bytes();
            create.is_some() || delete.is_some()
        }
        Command::CreateModel(..)
        | Command::DeleteModel(..)
        | Command::AddStatic(..)
        | Command::RemoveStatic(..)
        | Command::AddPrincipal(..)
        | Command::AddField(..)
        | Command::RemoveField(..) => true,
    }
}

/// Whether the commands are.
fn are_written(commands: &[Command]) -> bool
    ensures { IsTrue result → AllByRecursion IsWritten commands.now }
{
    for command in commands {
        if !is_written(command) {
            return false;
        }
    }
    true
}

/// The script that one text spells, over the schema that the other spells.
fn typed(alloc: Global, spec: &[u8], text: &[u8]) -> Result<TScript, Fail>
    ensures { IfOk result (λ t. IsScript (script_of t)) }
{
    if spec.len() > LONGEST_TEXT || text.len() > LONGEST_TEXT {
        return Err(Fail::new("too long"));
    }
    let spec = parse_spec(alloc, spec)?;
    let schema = type_spec(alloc, &spec)?;
    let script = parse_script(alloc, text)?;
    let commands = script.commands.as_slice();
    if commands.len() > 256 || !are_written(commands) {
        return Err(Fail::new("no script of these tests"));
    }
    Ok(type_script(alloc, &schema, &script)?)
}

/// The schema after the first k commands.
fn schema_after(t: &TScript, k: usize) -> &Schema
    ensures { schema_of result.now ≡ schema_at (script_of t.now) k }
{
    match t.schemas.get(k) {
        Some(schema) => schema,
        None => &t.start,
    }
}

/// The database before the script that the text writes.
fn database_of(alloc: Global, t: &TScript, text: &[u8]) -> Result<Database, Fail>
    requires { IsScript (script_of t.now) }
    ensures over { IfOk result (IsDatabase (schema_at (script_of t.now) 0)) }
    ensures only { IfOk result (HasNoFurtherTables (schema_at (script_of t.now) 0)) }
{
    if text.len() > LONGEST_TEXT {
        return Err(Fail::new("too long"));
    }
    let database = read_database(alloc, text, schema_after(t, 0))?;
    Ok(database)
}

/// Whether the database is printed so after the first k commands.
fn is_printed_after(
    alloc: Global,
    t: &TScript,
    k: u32,
    start: &Database,
    wanted: &[u8],
) -> Result<bool, Fail>
    requires script { IsScript (script_of t.now) }
    requires start { IsStart (script_of t.now) start.now }
{
    if k as usize > t.commands.len() {
        return Err(Fail::new("no such command"));
    }
    let after = prefix(alloc, t, k, start)?;
    let text = print_database(alloc, &after, schema_after(t, k as usize))?;
    Ok(text.as_slice() == wanted)
}

/// How many of the cases are printed as they say: after how many commands, and the text.
fn printed_after(
    alloc: Global,
    t: &TScript,
    text: &[u8],
    cases: &[(u32, &[u8])],
) -> Result<usize, Fail>
    requires { IsScript (script_of t.now) }
{
    let database = database_of(alloc, t, text)?;
    let start = widen(alloc, t, &database)?;
    let mut so: usize = 0;
    for (k, wanted) in cases {
        if is_printed_after(alloc, t, *k, &start, wanted)? {
            so = so.saturating_add(1);
        }
    }
    Ok(so)
}

/// Whether the script makes of the database that one text writes the one that the other does.
fn is_migrated(alloc: Global, t: &TScript, text: &[u8], wanted: &[u8]) -> Result<bool, Fail>
    requires { IsScript (script_of t.now) }
{
    let database = database_of(alloc, t, text)?;
    let after = migrate(alloc, t, &database)?;
    let text = print_database(alloc, &after, schema_after(t, t.commands.len()))?;
    Ok(text.as_slice() == wanted)
}
