//! Rows of one table, as the store keeps records: a name, a number and a text.

use sqlite::types::ValueRef;
use sqlite::{Alter, Connection, Error, Transaction};

/// The table.
const TABLE: &str =
    "CREATE TABLE record (model TEXT NOT NULL, id INTEGER NOT NULL, line TEXT NOT NULL, PRIMARY KEY (model, id)) STRICT";

/// The parts of a line: a name, a number and a text, with tabs between them.
fn parts(line: &str) -> Option<(&str, i64, &str)> {
    let (model, rest) = line.split_once('\t')?;
    let (id, text) = rest.split_once('\t')?;
    let id = id.parse().ok()?;
    Some((model, id, text))
}

/// Writes a row by the statement, unless the line is none.
fn write_row<S: Alter>(tx: &mut Transaction<'_, S>, sql: &str, line: &str) -> Result<usize, Error> {
    let Some((model, id, text)) = parts(line) else {
        return Ok(0);
    };
    let values = [
        ValueRef::Text(model.as_bytes()),
        ValueRef::Int(id),
        ValueRef::Text(text.as_bytes()),
    ];
    tx.execute(sql, &values)
}

/// Writes a row for each line by the statement, in one transaction.
fn write_each<S: Alter>(conn: &mut Connection<S>, sql: &str, rows: &str) -> Result<usize, Error> {
    if !conn.is_autocommit() {
        return Ok(0);
    }
    let mut tx = conn.transaction();
    let mut count = 0usize;
    for line in rows.lines() {
        count = count.saturating_add(write_row(&mut tx, sql, line)?);
    }
    tx.commit()?;
    Ok(count)
}

/// Makes the table, with a row for each line.
pub fn write_rows<S: Alter>(conn: &mut Connection<S>, rows: &str) -> Result<usize, Error> {
    conn.execute(TABLE, &[])?;
    write_each(
        conn,
        "INSERT INTO record (model, id, line) VALUES (?1, ?2, ?3)",
        rows,
    )
}

/// Reads all rows.
pub fn count_rows<S: Alter>(conn: &mut Connection<S>) -> Result<usize, Error> {
    let rows = conn.query_all("SELECT model, id, line FROM record ORDER BY model, id", &[])?;
    Ok(rows.len())
}

/// Gives the rows of these lines their texts.
fn change_each<S: Alter>(conn: &mut Connection<S>, rows: &str) -> Result<usize, Error> {
    write_each(
        conn,
        "UPDATE record SET line = ?3 WHERE model = ?1 AND id = ?2",
        rows,
    )
}

/// Reads all rows, and gives those of these lines their texts.
pub fn change_rows<S: Alter>(conn: &mut Connection<S>, rows: &str) -> Result<usize, Error> {
    let _all = count_rows(conn)?;
    change_each(conn, rows)
}
