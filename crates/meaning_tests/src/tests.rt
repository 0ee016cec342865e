//! Specifications and scripts whose meaning on a worked database is known.

ghost use Rattle.std.specs.Prelude.{◌≡◌, ◌≤◌, [], IfOk, IsTrue, length};
ghost use Rattle.std.specs.List.{AllByRecursion};
ghost use Rattle.text_ast.specs.Limits.{most_commands};
ghost use Rattle.type_commands.specs.CommandLaw.{IsWritten};
ghost use Rattle.type_proper.specs.Steady.{IsSteady};
ghost use Rattle.type_schema.specs.Script.{IsScript};
ghost use Rattle.type_schema.specs.SchemaViews as view;
ghost use Rattle.type_schema.specs.SchemaViews.{schema_of};

use std::alloc::Global;
use std::test::Fail;
use text_parse::{parse_script, parse_spec};
use text_tree::{Command, Script, Spec};
use type_schema::{Schema, TScript};
use type_scripts::{type_script, type_spec};

mod databases;
mod formulas;
mod members;
mod moved;
mod obligations;
mod pieces;
mod read_back;
mod written;

/// How long a text of these tests may be.
const LONGEST_TEXT: usize = 65_536;

/// Users with a secret for admins, and a manager who may read who manages them.
const SECRETS: &[u8] = b"principal model User {
  create: public,
  delete: none,
  email: Text {read: public, write: u -> [u]},
  age: Int {read: none, write: none},
  isAdmin: Bool {read: public, write: none},
  secret: Text {read: u -> User::Find({isAdmin: true}), write: none},
  manager: Id(User) {read: u -> [u.manager], write: none},
}";

/// The specification that the text spells.
fn spec_of(alloc: Global, text: &[u8]) -> Result<Spec, Fail> {
    if text.len() > LONGEST_TEXT {
        return Err(Fail::new("too long"));
    }
    Ok(parse_spec(alloc, text)?)
}

/// The script that the text spells.
fn script_of(alloc: Global, text: &[u8]) -> Result<Script, Fail> {
    if text.len() > LONGEST_TEXT {
        return Err(Fail::new("too long"));
    }
    Ok(parse_script(alloc, text)?)
}

/// The schema of the specification that the text spells.
fn schema_of_text(alloc: Global, text: &[u8]) -> Result<Schema, Fail>
    ensures steady { IfOk result (λ s. IsSteady (schema_of s)) }
    ensures nothing_added { IfOk result (λ s. (schema_of s).added ≡ []) }
{
    let spec = spec_of(alloc, text)?;
    Ok(type_spec(alloc, &spec)?)
}

/// Whether the command is one that the grammar spells, and does not weaken.
fn is_written(command: &Command) -> bool
    ensures { IsTrue result → IsWritten command.now }
{
    match command {
        Command::UpdateFieldPolicy(_, _, read, write, _) => read.is_some() || write.is_some(),
        Command::UpdatePolicy(_, create, delete, _) => create.is_some() || delete.is_some(),
        Command::WeakenFieldPolicy(..) | Command::WeakenPolicy(..) => false,
        Command::CreateModel(..)
        | Command::DeleteModel(..)
        | Command::AddStatic(..)
        | Command::RemoveStatic(..)
        | Command::AddPrincipal(..)
        | Command::AddField(..)
        | Command::RemoveField(..) => true,
    }
}

/// Whether the commands are.
fn are_written(commands: &[Command]) -> bool
    ensures { IsTrue result → AllByRecursion IsWritten commands.now }
{
    for command in commands {
        if !is_written(command) {
            return false;
        }
    }
    true
}

/// The script over the schema of a specification.
fn script_over(alloc: Global, schema: &Schema, script: &Script) -> Result<TScript, Fail>
    requires steady { IsSteady (schema_of schema.now) }
    requires nothing_added { (schema_of schema.now).added ≡ [] }
    ensures { IfOk result (λ t. IsScript (view.script_of t)) }
{
    let commands = script.commands.as_slice();
    if commands.len() > 256 || !are_written(commands) {
        return Err(Fail::new("no script of these tests"));
    }
    Ok(type_script(alloc, schema, script)?)
}

/// The script that the text spells, over the users.
fn typed(alloc: Global, text: &[u8]) -> Result<TScript, Fail>
    ensures { IfOk result (λ t. IsScript (view.script_of t)) }
{
    let schema = schema_of_text(alloc, SECRETS)?;
    let script = script_of(alloc, text)?;
    script_over(alloc, &schema, &script)
}
