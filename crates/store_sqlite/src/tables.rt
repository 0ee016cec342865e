//! The tables, and the queries.

use crate::cause::Cause;
use crate::columns::text_at;
use crate::session::{Session, Writing};
use sqlite::Row;

/// The texts that make the tables, in the order of their names. They are made with the first write.
///
/// `head` has one row: the version, and the specification in its canonical spelling. `model` has
/// the models in their order, each with its next id. `note` has the notes in their order; `field`
/// is NULL where the right is on the model. `record` has each record under the name of its model:
/// its text from the opening brace to the closing one.
const TABLES: [&str; 4] = [
    "CREATE TABLE head (one INTEGER PRIMARY KEY, version INTEGER NOT NULL, spec TEXT NOT NULL) STRICT",
    "CREATE TABLE model (place INTEGER PRIMARY KEY, name TEXT NOT NULL, next INTEGER NOT NULL) STRICT",
    "CREATE TABLE note (place INTEGER PRIMARY KEY, version INTEGER NOT NULL, command INTEGER NOT NULL, model TEXT NOT NULL, field TEXT, access TEXT NOT NULL, reason TEXT NOT NULL) STRICT",
    "CREATE TABLE record (model TEXT NOT NULL, id INTEGER NOT NULL, line TEXT NOT NULL, PRIMARY KEY (model, id)) STRICT",
];

/// The texts that made the tables that are there, but for those of the library itself.
const TEXTS: &str =
    "SELECT sql FROM sqlite_schema WHERE type = 'table' AND substr(name, 1, 7) <> 'sqlite_' ORDER BY name";

/// The version and the specification.
pub(crate) const HEAD: &str = "SELECT version, spec FROM head";

/// The models in their order.
pub(crate) const MODELS: &str = "SELECT place, name, next FROM model ORDER BY place";

/// The records by model and rising id, each with the number under which the library keeps its row.
pub(crate) const RECORDS: &str = "SELECT model, id, line, rowid FROM record ORDER BY model, id";

/// The notes in their order.
pub(crate) const NOTES: &str =
    "SELECT place, version, command, model, field, access, reason FROM note ORDER BY place";

/// Whether the rows are the texts that make the tables.
fn are_texts(rows: &[Row]) -> Result<bool, Cause> {
    if rows.len() != TABLES.len() {
        return Ok(false);
    }
    for (row, text) in rows.iter().zip(TABLES) {
        if text_at(row, 0)? != text.as_bytes() {
            return Ok(false);
        }
    }
    Ok(true)
}

/// Whether the tables are there, or none at all. A database with others is refused.
pub(crate) fn has_tables<T: Session>(session: &mut T) -> Result<bool, Cause> {
    let rows = session.rows(TEXTS, &[])?;
    if rows.is_empty() {
        return Ok(false);
    }
    if are_texts(rows.as_slice())? {
        Ok(true)
    } else {
        Err(Cause::Refused)
    }
}

/// Makes the tables.
pub(crate) fn make_tables<T: Writing>(tx: &mut T) -> Result<(), Cause> {
    for text in TABLES {
        tx.change(text, &[])?;
    }
    Ok(())
}
