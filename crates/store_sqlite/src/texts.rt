//! What is stored from its texts, and its texts.

ghost use Rattle.std.specs.Prelude.{◌<◌, IfOk};
ghost use Rattle.data_meaning.specs.Database.{IsDatabase, IsInOrder};
ghost use Rattle.type_schema.specs.Proper.{IsProper};
ghost use Rattle.type_schema.specs.SchemaViews.{schema_of};
ghost use Rattle.store_keeper.specs.Stored.{IsSettled, IsStored, stored_of};

use crate::cause::Cause;
use data_print::{print_database, write_table};
use data_read::reload_database;
use data_records::{Database, Record, Table};
use sqlite_items::Items;
use std::alloc::{AllocError, Global};
use store_keeper::limits::LAST_VERSION;
use store_keeper::{Note, Stored, renumbered_are_settled};
use text_parse::parse_spec;
use text_print::{Printer, print_spec};
use text_tree::Spec;
use type_anew::{renumber, spec_of};
use type_schema::{ModelInfo, ModelNo, Schema};
use type_scripts::type_spec;

/// Texts from this length on count as memory that is not there.
const TOO_LONG: usize = 4_294_967_296;

/// The specification that the text spells.
fn spec_of_text(alloc: Global, text: &[u8]) -> Result<Spec, Cause> {
    if text.len() >= TOO_LONG {
        return Err(Cause::OutOfMemory);
    }
    Ok(parse_spec(alloc, text)?)
}

/// The schema numbered anew.
fn settled(alloc: Global, schema: &Schema) -> Result<Schema, Cause>
    ensures { IfOk result (λ s. IsSettled (schema_of s)) }
{
    let anew = renumber(alloc, schema)?;
    renumbered_are_settled();
    Ok(anew)
}

/// The schema of the specification that the text spells.
pub(crate) fn schema_of_text(alloc: Global, text: &[u8]) -> Result<Schema, Cause>
    ensures { IfOk result (λ s. IsSettled (schema_of s)) }
{
    let spec = spec_of_text(alloc, text)?;
    let schema = type_spec(alloc, &spec)?;
    settled(alloc, &schema)
}

/// The database that the text writes.
pub(crate) fn base_of_text(alloc: Global, text: &[u8], s: &Schema) -> Result<Database, Cause>
    requires { IsProper (schema_of s.now) }
    ensures database { IfOk result (λ d. IsDatabase (schema_of s.now) d) }
    ensures order { IfOk result (λ d. IsInOrder (schema_of s.now) d) }
{
    if text.len() >= TOO_LONG {
        return Err(Cause::OutOfMemory);
    }
    Ok(reload_database(alloc, text, s)?)
}

/// What is stored, of its parts.
pub(crate) fn stored_of_parts(
    schema: Schema,
    version: u64,
    base: Database,
    notes: Items<Note>,
) -> Result<Stored, Cause>
    requires settled { IsSettled (schema_of schema) }
    requires database { IsDatabase (schema_of schema) base }
    requires order { IsInOrder (schema_of schema) base }
    ensures { IfOk result (λ s. IsStored (stored_of s)) }
{
    if version < 1 || version > LAST_VERSION {
        return Err(Cause::Refused);
    }
    Ok(Stored::new(schema, version, base, notes))
}

/// The canonical text of the specification that the schema is written as.
pub(crate) fn spec_text(alloc: Global, s: &Schema) -> Result<Vec<u8>, Cause> {
    let spec = spec_of(alloc, s)?;
    let text = print_spec(alloc, &spec)?;
    if text.len() >= TOO_LONG {
        return Err(Cause::OutOfMemory);
    }
    Ok(text)
}

/// The text of the database.
pub(crate) fn base_text(alloc: Global, s: &Schema, base: &Database) -> Result<Vec<u8>, Cause> {
    let text = print_database(alloc, base, s)?;
    if text.len() >= TOO_LONG {
        return Err(Cause::OutOfMemory);
    }
    Ok(text)
}

/// A database with just this record, which is below the next one.
fn base_of(alloc: Global, model: ModelNo, next: u64, made: Record) -> Result<Database, AllocError>
    requires { made.id < next }
{
    let mut records = Vec::new(alloc);
    records.push(made)?;
    let mut tables = Vec::new(alloc);
    tables.push(Table {
        model,
        next,
        records,
    })?;
    Database::of_tables(tables)
}

/// The text of the table of a model with just this record.
pub(crate) fn record_text(
    alloc: Global,
    info: &ModelInfo,
    made: &Record,
) -> Result<Vec<u8>, Cause> {
    let copy = made.copy(alloc)?;
    let Some(next) = copy.id.checked_add(1) else {
        return Err(Cause::Refused);
    };
    let base = base_of(alloc, info.number, next, copy)?;
    let mut out = Printer::new(alloc);
    write_table(&mut out, alloc, info.name.bytes(), info, &base)?;
    Ok(out.into_bytes())
}
