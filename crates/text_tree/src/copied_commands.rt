//! Copies of scripts.

ghost use Rattle.std.specs.Prelude.{◌≡◌, IfOk};

use crate::copied::{Copied, copy_both, copy_items};
use crate::{Command, Script};
use std::alloc::{AllocError, Global};

impl Copied for Command {
    // Long, since each command has its own arm.
    fn copy(&self, alloc: Global) -> Result<Command, AllocError> {
        match self {
            Command::CreateModel(model, at) => {
                let model = model.copy(alloc)?;
                Ok(Command::CreateModel(model, *at))
            }
            Command::DeleteModel(model, at) => {
                let model = model.copy(alloc)?;
                Ok(Command::DeleteModel(model, *at))
            }
            Command::AddStatic(known, at) => {
                let known = known.copy(alloc)?;
                Ok(Command::AddStatic(known, *at))
            }
            Command::RemoveStatic(known, at) => {
                let known = known.copy(alloc)?;
                Ok(Command::RemoveStatic(known, *at))
            }
            Command::AddPrincipal(model, at) => {
                let model = model.copy(alloc)?;
                Ok(Command::AddPrincipal(model, *at))
            }
            Command::AddField(model, field, name, init, at) => {
                let model = model.copy(alloc)?;
                let name = name.copy(alloc)?;
                let (field, init) = copy_both(alloc, field, init)?;
                Ok(Command::AddField(model, field, name, init, *at))
            }
            Command::RemoveField(model, field, at) => {
                let model = model.copy(alloc)?;
                let field = field.copy(alloc)?;
                Ok(Command::RemoveField(model, field, *at))
            }
            Command::UpdateFieldPolicy(model, field, read, write, at) => {
                let model = model.copy(alloc)?;
                let field = field.copy(alloc)?;
                let (read, write) = copy_both(alloc, read, write)?;
                Ok(Command::UpdateFieldPolicy(model, field, read, write, *at))
            }
            Command::WeakenFieldPolicy(model, field, read, write, reason, at) => {
                let model = model.copy(alloc)?;
                let field = field.copy(alloc)?;
                let reason = reason.copy(alloc)?;
                let (read, write) = copy_both(alloc, read, write)?;
                Ok(Command::WeakenFieldPolicy(model, field, read, write, reason, *at))
            }
            Command::UpdatePolicy(model, create, delete, at) => {
                let model = model.copy(alloc)?;
                let (create, delete) = copy_both(alloc, create, delete)?;
                Ok(Command::UpdatePolicy(model, create, delete, *at))
            }
            Command::WeakenPolicy(model, create, delete, reason, at) => {
                let model = model.copy(alloc)?;
                let reason = reason.copy(alloc)?;
                let (create, delete) = copy_both(alloc, create, delete)?;
                Ok(Command::WeakenPolicy(model, create, delete, reason, *at))
            }
        }
    }
}

impl Copied for Script {
    fn copy(&self, alloc: Global) -> Result<Script, AllocError> {
        let commands = copy_items(alloc, self.commands.as_slice())?;
        Ok(Script { commands })
    }
}
