//! What is written, each write in one transaction.

use crate::cause::Cause;
use crate::columns::{integer, number_at, text_at};
use crate::known::{Known, is_named, read_known};
use crate::lines::Lines;
use crate::notes::write_notes;
use crate::records::{delete, insert, only_line, update, write_rows};
use crate::session::{Writing, begin, change_one};
use crate::tables::{MODELS, has_tables, make_tables};
use crate::texts::{base_text, record_text, spec_text};
use data_records::{Database, Record};
use sqlite::types::ValueRef;
use sqlite::{Alter, Connection, Row};
use std::alloc::Global;
use store_keeper::Stored;
use type_schema::ModelInfo;

/// Writes the version and the specification.
fn write_head<T: Writing>(tx: &mut T, version: u64, spec: &[u8]) -> Result<(), Cause> {
    let values = [integer(version)?, ValueRef::Text(spec)];
    if has_tables(tx)? {
        return change_one(tx, "UPDATE head SET version = ?1, spec = ?2", &values);
    }
    make_tables(tx)?;
    change_one(
        tx,
        "INSERT INTO head (one, version, spec) VALUES (1, ?1, ?2)",
        &values,
    )
}

/// Whether the row says the model and its next id.
fn says(row: &Row, place: usize, info: &ModelInfo, base: &Database) -> Result<bool, Cause> {
    let at = number_at(row, 0)? == place as u64;
    let name = text_at(row, 1)? == info.name.bytes();
    let next = number_at(row, 2)? == base.next(info.number);
    Ok(at && name && next)
}

/// Whether the rows say the models and their next ids.
fn say_all(rows: &[Row], models: &[ModelInfo], base: &Database) -> Result<bool, Cause> {
    if rows.len() != models.len() {
        return Ok(false);
    }
    for (place, info) in models.iter().enumerate() {
        let Some(row) = rows.get(place) else {
            return Ok(false);
        };
        if !says(row, place, info, base)? {
            return Ok(false);
        }
    }
    Ok(true)
}

/// Writes the row of a model.
fn write_model<T: Writing>(
    tx: &mut T,
    place: usize,
    info: &ModelInfo,
    base: &Database,
) -> Result<(), Cause> {
    let values = [
        integer(place as u64)?,
        ValueRef::Text(info.name.bytes()),
        integer(base.next(info.number))?,
    ];
    change_one(
        tx,
        "INSERT INTO model (place, name, next) VALUES (?1, ?2, ?3)",
        &values,
    )
}

/// Drops the records of what is no model.
fn drop_others<T: Writing>(tx: &mut T, models: &[ModelInfo], known: &Known) -> Result<(), Cause> {
    for before in known.models() {
        let name = before.name.as_slice();
        if !is_named(models, name) {
            tx.change(
                "DELETE FROM record WHERE model = ?1",
                &[ValueRef::Text(name)],
            )?;
        }
    }
    Ok(())
}

/// Writes the models, unless the rows say them.
fn write_models<T: Writing>(
    tx: &mut T,
    models: &[ModelInfo],
    base: &Database,
) -> Result<(), Cause> {
    let rows = tx.rows(MODELS, &[])?;
    if say_all(rows.as_slice(), models, base)? {
        return Ok(());
    }
    tx.change("DELETE FROM model", &[])?;
    for (place, info) in models.iter().enumerate() {
        write_model(tx, place, info, base)?;
    }
    Ok(())
}

/// Writes the records of the models, whose database has these lines.
fn write_tables<T: Writing>(
    tx: &mut T,
    models: &[ModelInfo],
    base: &Database,
    lines: &mut Lines<'_>,
    known: &Known,
) -> Result<(), Cause> {
    for info in models {
        let _head = lines.next();
        let name = info.name.bytes();
        let rows = known.rows_of(name);
        write_rows(tx, name, base.records(info.number), lines, rows)?;
        let _end = lines.next();
    }
    Ok(())
}

/// The texts of what is stored.
#[derive(Drop)]
struct Texts {
    spec: Vec<u8>,
    base: Vec<u8>,
}

/// Prints what is stored.
fn texts_of(alloc: Global, s: &Stored) -> Result<Texts, Cause> {
    let spec = spec_text(alloc, &s.schema)?;
    let base = base_text(alloc, &s.schema, &s.base)?;
    Ok(Texts { spec, base })
}

/// Writes all records, over the rows that are known.
fn write_base<T: Writing>(tx: &mut T, text: &[u8], s: &Stored, known: &Known) -> Result<(), Cause> {
    let models = s.schema.models.as_slice();
    let mut lines = Lines::new(text);
    drop_others(tx, models, known)?;
    write_tables(tx, models, &s.base, &mut lines, known)
}

/// Writes all that is stored, over the rows that are known, or else read.
fn write_all<T: Writing>(
    alloc: Global,
    tx: &mut T,
    texts: &Texts,
    s: &Stored,
    known: Option<Known>,
) -> Result<(), Cause> {
    write_head(tx, s.version, texts.spec.as_slice())?;
    write_models(tx, s.schema.models.as_slice(), &s.base)?;
    let known = match known {
        Some(known) => known,
        None => read_known(alloc, tx)?,
    };
    write_base(tx, texts.base.as_slice(), s, &known)?;
    write_notes(tx, s.notes.as_slice())
}

/// Stores this in place of what is stored, whose rows are those that are known, if any are. No row
/// is written that says already what it is to say.
pub(crate) fn write_stored<S: Alter>(
    alloc: Global,
    conn: &mut Connection<S>,
    s: &Stored,
    known: Option<Known>,
) -> Result<(), Cause> {
    let texts = texts_of(alloc, s)?;
    let mut tx = begin(conn)?;
    write_all(alloc, &mut tx, &texts, s, known)?;
    Ok(tx.commit()?)
}

/// Writes the line of a record, which is new where its id is the next one.
fn put_line<T: Writing>(tx: &mut T, model: &[u8], id: u64, line: &[u8]) -> Result<(), Cause> {
    let Some(next) = id.checked_add(1) else {
        return Err(Cause::Refused);
    };
    let raised = tx.change(
        "UPDATE model SET next = ?3 WHERE name = ?1 AND next = ?2",
        &[ValueRef::Text(model), integer(id)?, integer(next)?],
    )?;
    match raised {
        0 => update(tx, model, id, line),
        1 => insert(tx, model, id, line),
        _ => Err(Cause::Refused),
    }
}

/// Stores the record.
pub(crate) fn write_record<S: Alter>(
    alloc: Global,
    conn: &mut Connection<S>,
    info: &ModelInfo,
    made: &Record,
) -> Result<(), Cause> {
    let text = record_text(alloc, info, made)?;
    let line = only_line(text.as_slice())?;
    let mut tx = begin(conn)?;
    put_line(&mut tx, info.name.bytes(), made.id, line)?;
    Ok(tx.commit()?)
}

/// Drops the record.
pub(crate) fn delete_record<S: Alter>(
    conn: &mut Connection<S>,
    info: &ModelInfo,
    id: u64,
) -> Result<(), Cause> {
    let mut tx = begin(conn)?;
    delete(&mut tx, info.name.bytes(), id)?;
    Ok(tx.commit()?)
}
