//! The notes.

use crate::cause::Cause;
use crate::columns::{
    integer, name_at, name_if_at, number_at, reason_at, right_at, right_word, text_at,
};
use crate::session::{Session, Writing, change_one};
use crate::tables::NOTES;
use sqlite::Row;
use sqlite::types::ValueRef;
use sqlite_items::Items;
use std::alloc::Global;
use store_keeper::Note;
use text_ast::Name;
use type_schema::Right;

/// The number of a command in a column.
fn command_at(row: &Row, at: usize) -> Result<u32, Cause> {
    u32::try_from(number_at(row, at)?).map_err(|_| Cause::Refused)
}

/// Whether a right is on a field.
fn is_on_field(right: Right) -> bool {
    match right {
        Right::Read | Right::Write => true,
        Right::Create | Right::Delete => false,
    }
}

/// The note that a row says.
fn note_of(alloc: Global, row: &Row) -> Result<Note, Cause> {
    let version = number_at(row, 1)?;
    let command = command_at(row, 2)?;
    let model = name_at(alloc, row, 3)?;
    let field = name_if_at(alloc, row, 4)?;
    let right = right_at(row, 5)?;
    let reason = reason_at(alloc, row, 6)?;
    if field.is_some() != is_on_field(right) {
        return Err(Cause::Refused);
    }
    Ok(Note {
        version,
        command,
        model,
        field,
        right,
        reason,
    })
}

/// The notes that rows say, whose places are those from 0 on.
fn notes_of(alloc: Global, rows: &[Row]) -> Result<Items<Note>, Cause> {
    let mut notes = Vec::new(alloc);
    for (place, row) in rows.iter().enumerate() {
        if number_at(row, 0)? != place as u64 {
            return Err(Cause::Refused);
        }
        let note = note_of(alloc, row)?;
        notes.push(note)?;
    }
    Ok(Items::from_vec(notes))
}

/// The notes, in their order.
pub(crate) fn read_notes<T: Session>(alloc: Global, session: &mut T) -> Result<Items<Note>, Cause> {
    let rows = session.rows(NOTES, &[])?;
    notes_of(alloc, rows.as_slice())
}

/// The name of a field, as a column holds it.
fn field_value(field: &Option<Name>) -> ValueRef<'_> {
    match field {
        Some(name) => ValueRef::Text(name.bytes()),
        None => ValueRef::Null,
    }
}

/// Whether a row says what the note is on.
fn names_target(row: &Row, note: &Note) -> Result<bool, Cause> {
    let model = text_at(row, 3)? == note.model.bytes();
    let field = match (row.get_ref(4)?, &note.field) {
        (ValueRef::Text(bytes), Some(name)) => bytes == name.bytes(),
        (ValueRef::Null, None) => true,
        _ => false,
    };
    Ok(model && field)
}

/// Whether a row says the note at its place.
fn says(row: &Row, place: usize, note: &Note) -> Result<bool, Cause> {
    let at = number_at(row, 0)? == place as u64;
    let when = number_at(row, 1)? == note.version && number_at(row, 2)? == u64::from(note.command);
    let what = text_at(row, 5)? == right_word(note.right)
        && text_at(row, 6)? == note.reason.bytes();
    Ok(at && when && what && names_target(row, note)?)
}

/// Whether the rows say the first notes.
fn are_first(rows: &[Row], notes: &[Note]) -> Result<bool, Cause> {
    for (place, row) in rows.iter().enumerate() {
        let Some(note) = notes.get(place) else {
            return Ok(false);
        };
        if !says(row, place, note)? {
            return Ok(false);
        }
    }
    Ok(true)
}

/// Writes the note at its place.
fn write_note<T: Writing>(tx: &mut T, place: usize, note: &Note) -> Result<(), Cause> {
    if note.field.is_some() != is_on_field(note.right) {
        return Err(Cause::Refused);
    }
    let values = [
        integer(place as u64)?,
        integer(note.version)?,
        ValueRef::Int(i64::from(note.command)),
        ValueRef::Text(note.model.bytes()),
        field_value(&note.field),
        ValueRef::Text(right_word(note.right)),
        ValueRef::Text(note.reason.bytes()),
    ];
    change_one(
        tx,
        "INSERT INTO note (place, version, command, model, field, access, reason) VALUES (?1, ?2, ?3, ?4, ?5, ?6, ?7)",
        &values,
    )
}

/// Writes the notes that no row says yet.
pub(crate) fn write_notes<T: Writing>(tx: &mut T, notes: &[Note]) -> Result<(), Cause> {
    let rows = tx.rows(NOTES, &[])?;
    let mut known = rows.len();
    if !are_first(rows.as_slice(), notes)? {
        tx.change("DELETE FROM note", &[])?;
        known = 0;
    }
    for (place, note) in notes.iter().enumerate() {
        if known <= place {
            write_note(tx, place, note)?;
        }
    }
    Ok(())
}
