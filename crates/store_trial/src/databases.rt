//! Databases in memory, and what a query prints.

use sqlite::types::ValueRef;
use sqlite::{Alter, Connection, Error, MemStore, Row};
use std::alloc::{AllocError, Global};

/// A database in memory that the statements make.
pub fn database_of(alloc: Global, sql: &str) -> Result<Connection<MemStore>, Error> {
    let mut conn = Connection::open_in_memory(alloc)?;
    conn.execute_batch(sql)?;
    Ok(conn)
}

/// Appends a value in the form of `sqlite3`: nothing for a NULL.
fn push_value(alloc: Global, text: &mut Vec<u8>, value: ValueRef<'_>) -> Result<(), AllocError> {
    match value {
        ValueRef::Int(number) => {
            let digits = number.to_string(alloc)?;
            text.extend_from_slice(digits.as_bytes())?;
        }
        ValueRef::Text(bytes) => text.extend_from_slice(bytes)?,
        _ => {}
    }
    Ok(())
}

/// Appends the columns of the row, and a newline.
fn push_row(alloc: Global, text: &mut Vec<u8>, row: &Row) -> Result<(), Error> {
    for at in 0..row.column_count() {
        if at > 0 {
            text.push(b'|')?;
        }
        push_value(alloc, text, row.get_ref(at)?)?;
    }
    text.push(b'\n')?;
    Ok(())
}

/// The rows, in the form of `sqlite3`.
fn table_of(alloc: Global, rows: &[Row]) -> Result<Vec<u8>, Error> {
    let mut text = Vec::new(alloc);
    for row in rows {
        push_row(alloc, &mut text, row)?;
    }
    Ok(text)
}

/// Whether the query prints this table, in the form of `sqlite3`.
pub fn prints<S: Alter>(alloc: Global, conn: &mut Connection<S>, sql: &str, table: &[u8]) -> bool {
    let Ok(rows) = conn.query_all(sql, &[]) else {
        return false;
    };
    match table_of(alloc, rows.as_slice()) {
        Ok(text) => text.as_slice() == table,
        Err(_) => false,
    }
}

/// Whether the query prints this table of a database file, which is opened and closed.
pub fn file_prints(rt: &HostRuntime, path: &str, sql: &str, table: &[u8]) -> bool {
    let Ok(mut conn) = Connection::open(rt, path) else {
        return false;
    };
    prints(rt.alloc(), &mut conn, sql, table) && conn.close().is_ok()
}
