//! A script with its weakenings taken for updates.

ghost use Rattle.std.specs.Prelude.{◌≡◌, IfOk, map};
ghost use Rattle.impact_meaning.specs.Undeclared as rule;
ghost use Rattle.type_schema.specs.SchemaViews.{command_of, schema_of, script_of};

use sqlite_items::Items;
use std::alloc::{AllocError, Global};
use type_schema::{Schema, TCommand, TScript};

/// Whether the command declares a weakening.
pub fn is_weakening(command: &TCommand) -> bool
    ensures { result ≡ rule.is_weakening (command_of command.now) }
{
    match command {
        TCommand::WeakenFieldPolicy(..) | TCommand::WeakenPolicy(..) => true,
        TCommand::CreateModel(_)
        | TCommand::DeleteModel(_)
        | TCommand::AddStatic(_)
        | TCommand::RemoveStatic(_)
        | TCommand::AddPrincipal(_)
        | TCommand::AddField(..)
        | TCommand::RemoveField(..)
        | TCommand::UpdateFieldPolicy(..)
        | TCommand::UpdatePolicy(..) => false,
    }
}

/// The command without that it declares a weakening, which shares the policies of the command.
fn as_update(alloc: Global, command: &TCommand) -> Result<TCommand, AllocError>
    ensures { IfOk result (λ c. command_of c ≡ rule.as_update (command_of command.now)) }
{
    match command {
        TCommand::CreateModel(info) => Ok(TCommand::CreateModel(info.copy(alloc)?)),
        TCommand::DeleteModel(m) => Ok(TCommand::DeleteModel(*m)),
        TCommand::AddStatic(info) => Ok(TCommand::AddStatic(info.copy(alloc)?)),
        TCommand::RemoveStatic(n) => Ok(TCommand::RemoveStatic(*n)),
        TCommand::AddPrincipal(m) => Ok(TCommand::AddPrincipal(*m)),
        TCommand::AddField(m, f, init) => {
            Ok(TCommand::AddField(*m, f.copy(alloc)?, init.clone()?))
        }
        TCommand::RemoveField(m, f) => Ok(TCommand::RemoveField(*m, *f)),
        TCommand::UpdateFieldPolicy(m, f, read, write)
        | TCommand::WeakenFieldPolicy(m, f, read, write, _) => {
            Ok(TCommand::UpdateFieldPolicy(*m, *f, read.clone()?, write.clone()?))
        }
        TCommand::UpdatePolicy(m, create, delete) | TCommand::WeakenPolicy(m, create, delete, _) =>
            { Ok(TCommand::UpdatePolicy(*m, create.clone()?, delete.clone()?)) }
    }
}

/// The commands without that they declare weakenings.
fn as_updates(alloc: Global, commands: &[TCommand]) -> Result<Items<TCommand>, AllocError>
    ensures { IfOk result (λ made. map command_of made ≡ map rule.as_update (map command_of commands.now)) }
{
    let mut made = Vec::new(alloc);
    for command in commands {
        let update = as_update(alloc, command)?;
        made.push(update)?;
    }
    Ok(Items::from_vec(made))
}

/// Equal schemas, in the same order.
fn copy_schemas(alloc: Global, schemas: &[Schema]) -> Result<Items<Schema>, AllocError>
    ensures { IfOk result (λ copies. map schema_of copies ≡ map schema_of schemas.now) }
{
    let mut copies = Vec::new(alloc);
    for s in schemas {
        let copy = s.copy(alloc)?;
        copies.push(copy)?;
    }
    Ok(Items::from_vec(copies))
}

/// The script with its weakenings taken for updates. It shares the policies and initialisers of the
/// script.
pub fn undeclared(alloc: Global, t: &TScript) -> Result<TScript, AllocError>
    ensures { IfOk result (λ u. script_of u ≡ rule.undeclared (script_of t.now)) }
{
    let start = t.start.copy(alloc)?;
    let commands = as_updates(alloc, t.commands.as_slice())?;
    let schemas = copy_schemas(alloc, t.schemas.as_slice())?;
    Ok(TScript {
        start,
        commands,
        schemas,
    })
}
