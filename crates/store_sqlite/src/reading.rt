//! What the rows say.

ghost use Rattle.std.specs.Prelude.{IfOk, IfSome};
ghost use Rattle.data_meaning.specs.Database.{IsDatabase, IsInOrder};
ghost use Rattle.type_schema.specs.Proper.{IsProper};
ghost use Rattle.type_schema.specs.SchemaViews.{schema_of};
ghost use Rattle.store_keeper.specs.Stored.{IsStored, stored_of};

use crate::cause::Cause;
use crate::columns::{number_at, text_at};
use crate::known::{Known, read_known};
use crate::lines::is_line;
use crate::notes::read_notes;
use crate::session::{Session, only_row};
use crate::tables::{HEAD, MODELS, has_tables};
use crate::texts::{base_of_text, schema_of_text, stored_of_parts};
use data_print::write_id;
use data_records::Database;
use sqlite::Row;
use std::alloc::Global;
use store_keeper::Stored;
use text_print::Printer;
use type_schema::{ModelInfo, Schema};

/// Writes the line of a record, of its id and the text between braces.
fn push_record(out: &mut Printer, alloc: Global, row: &Row) -> Result<(), Cause> {
    let id = number_at(row, 1)?;
    let line = text_at(row, 2)?;
    if !is_line(line) {
        return Err(Cause::Refused);
    }
    out.put(b"  ")?;
    write_id(out, alloc, id)?;
    out.put(b" ")?;
    out.put(line)?;
    out.put(b"\n")?;
    Ok(())
}

/// Writes the lines of records.
fn push_records(out: &mut Printer, alloc: Global, rows: &[Row]) -> Result<(), Cause> {
    for row in rows {
        push_record(out, alloc, row)?;
    }
    Ok(())
}

/// Writes the first line of a table, if the row is that of the model at this place.
fn push_head(
    out: &mut Printer,
    alloc: Global,
    row: &Row,
    place: usize,
    info: &ModelInfo,
) -> Result<(), Cause> {
    if number_at(row, 0)? != place as u64 || text_at(row, 1)? != info.name.bytes() {
        return Err(Cause::Refused);
    }
    let next = number_at(row, 2)?;
    out.put(info.name.bytes())?;
    out.put(b" ")?;
    write_id(out, alloc, next)?;
    out.put(b" {\n")?;
    Ok(())
}

/// The text of the tables of the models.
fn text_of<T: Session>(
    alloc: Global,
    session: &mut T,
    models: &[ModelInfo],
    known: &Known,
) -> Result<Vec<u8>, Cause> {
    let rows = session.rows(MODELS, &[])?;
    if rows.len() != models.len() || !known.are_all_of(models) {
        return Err(Cause::Refused);
    }
    let mut out = Printer::new(alloc);
    for (place, info) in models.iter().enumerate() {
        let Some(row) = rows.get(place) else {
            return Err(Cause::Refused);
        };
        push_head(&mut out, alloc, row, place, info)?;
        push_records(&mut out, alloc, known.rows_of(info.name.bytes()))?;
        out.put(b"}\n")?;
    }
    Ok(out.into_bytes())
}

/// How many rows there are.
fn row_count(known: &Known) -> usize {
    let mut count = 0usize;
    for it in known.models() {
        count = count.saturating_add(it.rows.len());
    }
    count
}

/// How many records of the models there are.
fn record_count(base: &Database, models: &[ModelInfo]) -> usize {
    let mut count = 0usize;
    for info in models {
        count = count.saturating_add(base.records(info.number).len());
    }
    count
}

/// The database, if each row is a record of it.
fn read_base<T: Session>(
    alloc: Global,
    session: &mut T,
    s: &Schema,
    known: &Known,
) -> Result<Database, Cause>
    requires { IsProper (schema_of s.now) }
    ensures database { IfOk result (λ d. IsDatabase (schema_of s.now) d) }
    ensures order { IfOk result (λ d. IsInOrder (schema_of s.now) d) }
{
    let text = text_of(alloc, session, s.models.as_slice(), known)?;
    let base = base_of_text(alloc, text.as_slice(), s)?;
    if record_count(&base, s.models.as_slice()) != row_count(known) {
        return Err(Cause::Refused);
    }
    Ok(base)
}

/// What is stored, and the rows of its records.
#[derive(Drop)]
pub(crate) struct Found {
    /// What is stored.
    pub stored: Stored,
    /// The rows of its records.
    pub known: Known,
}

/// What is stored, where the tables are there.
fn read_found<T: Session>(alloc: Global, session: &mut T) -> Result<Found, Cause>
    ensures { IfOk result (λ found. IsStored (stored_of found.stored)) }
{
    let head = only_row(session, HEAD)?;
    let version = number_at(&head, 0)?;
    let schema = schema_of_text(alloc, text_at(&head, 1)?)?;
    let known = read_known(alloc, session)?;
    let base = read_base(alloc, session, &schema, &known)?;
    let notes = read_notes(alloc, session)?;
    let stored = stored_of_parts(schema, version, base, notes)?;
    Ok(Found { stored, known })
}

/// What is stored, or None where there is no table.
pub(crate) fn read_stored<T: Session>(
    alloc: Global,
    session: &mut T,
) -> Result<Option<Found>, Cause>
    ensures { IfOk result (λ found. IfSome found (λ it. IsStored (stored_of it.stored))) }
{
    if has_tables(session)? {
        Ok(Some(read_found(alloc, session)?))
    } else {
        Ok(None)
    }
}
