//! The notes of the rights that a script weakens.

ghost use Rattle.std.specs.Prelude.{◌≡◌, ◌+◌, ◌++◌, ◌<◌, ◌^◌, IfOk, OnOk};
ghost use Rattle.std.specs.Option.{option_copied, option_map};
ghost use Rattle.type_schema.specs.Commands.{IsCommand};
ghost use Rattle.type_schema.specs.Script.{IsScript};
ghost use Rattle.type_schema.specs.SchemaViews.{command_of, schema_of, script_of};
ghost use Rattle.type_schema.specs.Views.{policy_of};
ghost use Rattle.store_apply.specs.Notes.{new_notes, notes_of, where_given};

use crate::names::{field_name, model_name};
use std::alloc::{AllocError, Global};
use std::rc::Rc;
use store_keeper::Note;
use text_ast::{Name, Txt};
use type_schema::{Right, Schema, TCommand, TPolicy, TScript};

/// The name, in memory of its own, or none.
fn copied_name(alloc: Global, name: Option<&Name>) -> Result<Option<Name>, AllocError>
    ensures { IfOk result (λ copy. copy ≡ option_copied name.entry) }
{
    match name {
        Some(name) => Ok(Some(name.copy(alloc)?)),
        None => Ok(None),
    }
}

/// A command that weakens rights, as its notes tell of it.
#[derive(Clone, Copy)]
struct Weakening<'a> {
    version: u64,
    command: u32,
    model: &'a Name,
    field: Option<&'a Name>,
    reason: &'a Txt,
}

impl Weakening<'_> {
    /// The note of a right.
    fn note(&self, alloc: Global, right: Right) -> Result<Note, AllocError>
        ensures { IfOk result (λ note. note ≡ record {
          version = self.now.version;
          command = self.now.command;
          model = self.now.model.now;
          field = option_copied self.now.field;
          right = right;
          reason = self.now.reason.now;
        }) }
    {
        let model = self.model.copy(alloc)?;
        let field = copied_name(alloc, self.field)?;
        let reason = self.reason.copy(alloc)?;
        Ok(Note {
            version: self.version,
            command: self.command,
            model,
            field,
            right,
            reason,
        })
    }

    /// Adds the note of a right, where a policy of it is given.
    fn add(
        &self,
        alloc: Global,
        notes: &mut Vec<Note>,
        right: Right,
        given: &Option<Rc<TPolicy>>,
    ) -> Result<(), AllocError>
        ensures { OnOk result (notes.new.items ≡ notes.old.items
            ++ where_given (option_map (λ p. policy_of p.value) given.now) (record {
              version = self.now.version;
              command = self.now.command;
              model = self.now.model.now;
              field = option_copied self.now.field;
              right = right;
              reason = self.now.reason.now;
            })) }
    {
        match given {
            Some(_) => {
                let note = self.note(alloc, right)?;
                notes.push(note)?;
                Ok(())
            }
            None => Ok(()),
        }
    }
}

/// Adds the notes of the command with this number over the schema before it.
// Long, since each form of a command is named.
fn add_notes<'a>(
    alloc: Global,
    notes: &mut Vec<Note>,
    s: &'a Schema,
    version: u64,
    number: u32,
    command: &'a TCommand,
) -> Result<(), AllocError>
    requires { IsCommand (schema_of s.now) (command_of command.now) }
    ensures { OnOk result (notes.new.items ≡ notes.old.items
        ++ notes_of (schema_of s.now) version number (command_of command.now)) }
{
    match command {
        TCommand::WeakenFieldPolicy(m, f, read, write, reason) => {
            let weakening = Weakening {
                version,
                command: number,
                model: model_name(s, *m),
                field: Some(field_name(s, *m, *f)),
                reason,
            };
            weakening.add(alloc, notes, Right::Read, read)?;
            weakening.add(alloc, notes, Right::Write, write)
        }
        TCommand::WeakenPolicy(m, create, delete, reason) => {
            let weakening = Weakening {
                version,
                command: number,
                model: model_name(s, *m),
                field: None,
                reason,
            };
            weakening.add(alloc, notes, Right::Create, create)?;
            weakening.add(alloc, notes, Right::Delete, delete)
        }
        TCommand::CreateModel(_)
        | TCommand::DeleteModel(_)
        | TCommand::AddStatic(_)
        | TCommand::RemoveStatic(_)
        | TCommand::AddPrincipal(_)
        | TCommand::AddField(..)
        | TCommand::RemoveField(..)
        | TCommand::UpdateFieldPolicy(..)
        | TCommand::UpdatePolicy(..) => Ok(()),
    }
}

/// Adds the notes of all commands.
pub(crate) fn add_all_notes(
    alloc: Global,
    notes: &mut Vec<Note>,
    t: &TScript,
    version: u64,
) -> Result<(), AllocError>
    requires { IsScript (script_of t.now) }
    ensures { OnOk result (notes.new.items
        ≡ notes.old.items ++ new_notes (script_of t.now) version) }
{
    let commands = t.commands.as_slice();
    let schemas = t.schemas.as_slice();
    for at in 0..commands.len() {
        let number = at as u32 + 1;
        add_notes(alloc, notes, &schemas[at], version, number, &commands[at])?;
    }
    Ok(())
}

/// Equal notes, in the same order.
pub(crate) fn copied_notes(alloc: Global, notes: &[Note]) -> Result<Vec<Note>, AllocError>
    ensures { IfOk result (λ copies. copies.items ≡ notes.now) }
{
    let mut copies = Vec::new(alloc);
    for note in notes {
        let copy = note.copy(alloc)?;
        copies.push(copy)?;
    }
    Ok(copies)
}
