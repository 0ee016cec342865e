//! What a store holds.

ghost use Rattle.std.specs.Prelude.{◌≡◌, ◌≤◌, IfOk};
ghost use Rattle.data_meaning.specs.Database.{IsDatabase, IsInOrder};
ghost use Rattle.type_schema.specs.SchemaViews.{schema_of};
ghost use Rattle.store_keeper.specs.Stored.{IsSettled, IsStored, last_version, stored_of};

use data_records::Database;
use sqlite_items::Items;
use std::alloc::{AllocError, Global};
use text_ast::{Name, Txt};
use type_schema::{Right, Schema};

/// A right that a migration weakened.
#[derive(Drop)]
pub struct Note {
    /// The version that the migration made.
    pub version: u64,
    /// The number of the command in its script, from 1 on.
    pub command: u32,
    /// The model, as it was called at the command.
    pub model: Name,
    /// The field, as it was called at the command; None where the right is on the model.
    pub field: Option<Name>,
    pub right: Right,
    pub reason: Txt,
}

/// A schema and a database over it, the version, from 1 on, and the rights that migrations
/// weakened, in their order.
#[derive(Drop)]
pub struct Stored {
    pub schema: Schema,
    pub version: u64,
    pub base: Database,
    pub notes: Items<Note>,
}

/// An equal name, or none.
fn copy_field(alloc: Global, field: &Option<Name>) -> Result<Option<Name>, AllocError>
    ensures { IfOk result (λ copy. copy ≡ field.now) }
{
    match field {
        Some(name) => Ok(Some(name.copy(alloc)?)),
        None => Ok(None),
    }
}

impl Note {
    /// An equal note.
    pub fn copy(&self, alloc: Global) -> Result<Note, AllocError>
        ensures { IfOk result (λ copy. copy ≡ self.now) }
    {
        let model = self.model.copy(alloc)?;
        let field = copy_field(alloc, &self.field)?;
        let reason = self.reason.copy(alloc)?;
        Ok(Note {
            version: self.version,
            command: self.command,
            model,
            field,
            right: self.right,
            reason,
        })
    }
}

/// Equal notes, in the same order.
fn copy_notes(alloc: Global, notes: &[Note]) -> Result<Items<Note>, AllocError>
    ensures { IfOk result (λ copies. copies ≡ notes.now) }
{
    let mut copies = Vec::new(alloc);
    for note in notes {
        let copy = note.copy(alloc)?;
        copies.push(copy)?;
    }
    Ok(Items::from_vec(copies))
}

impl Stored {
    /// What these parts make, which a store may hold.
    pub fn new(schema: Schema, version: u64, base: Database, notes: Items<Note>) -> Stored
        requires first { 1 ≤ version }
        requires last { version ≤ last_version }
        requires settled { IsSettled (schema_of schema) }
        requires database { IsDatabase (schema_of schema) base }
        requires order { IsInOrder (schema_of schema) base }
        ensures made { stored_of result ≡ record {
          schema = schema_of schema;
          version = version;
          base = base;
          notes = notes;
        } }
        ensures stored { IsStored (stored_of result) }
    {
        Stored {
            schema,
            version,
            base,
            notes,
        }
    }

    /// An equal value.
    pub fn copy(&self, alloc: Global) -> Result<Stored, AllocError>
        ensures { IfOk result (λ copy. stored_of copy ≡ stored_of self.now) }
    {
        let schema = self.schema.copy(alloc)?;
        let base = self.base.copy(alloc)?;
        let notes = copy_notes(alloc, self.notes.as_slice())?;
        Ok(Stored {
            schema,
            version: self.version,
            base,
            notes,
        })
    }
}
