//! Where statements run: queries in a connection or in a transaction of it, and changes in a
//! transaction alone.
//!
//! The modules above are written over [`Session`] and [`Writing`], which have no clauses: what the
//! library promises of its calls would be carried through each of their proofs.

use crate::cause::Cause;
use sqlite::types::ValueRef;
use sqlite::{Alter, Connection, Row, Transaction};

/// Where queries run.
pub(crate) trait Session {
    /// All rows of an answer.
    fn rows(&mut self, sql: &str, values: &[ValueRef<'_>]) -> Result<Vec<Row>, Cause>;
}

/// Where changes run. A connection is no such place, so nothing is written outside a transaction.
pub(crate) trait Writing: Session {
    /// Makes a change, and says how many rows it changed.
    fn change(&mut self, sql: &str, values: &[ValueRef<'_>]) -> Result<usize, Cause>;
}

impl<S: Alter> Session for Connection<S> {
    fn rows(&mut self, sql: &str, values: &[ValueRef<'_>]) -> Result<Vec<Row>, Cause> {
        Ok(self.query_all(sql, values)?)
    }
}

impl<S: Alter> Session for Transaction<'_, S> {
    fn rows(&mut self, sql: &str, values: &[ValueRef<'_>]) -> Result<Vec<Row>, Cause> {
        Ok(self.query_all(sql, values)?)
    }
}

impl<S: Alter> Writing for Transaction<'_, S> {
    fn change(&mut self, sql: &str, values: &[ValueRef<'_>]) -> Result<usize, Cause> {
        Ok(self.execute(sql, values)?)
    }
}

/// Changes just one row.
pub(crate) fn change_one<T: Writing>(
    tx: &mut T,
    sql: &str,
    values: &[ValueRef<'_>],
) -> Result<(), Cause> {
    match tx.change(sql, values)? {
        1 => Ok(()),
        _ => Err(Cause::Refused),
    }
}

/// The only row of an answer.
pub(crate) fn only_row<T: Session>(session: &mut T, sql: &str) -> Result<Row, Cause> {
    let mut rows = session.rows(sql, &[])?;
    match rows.pop() {
        Some(row) if rows.is_empty() => Ok(row),
        _ => Err(Cause::Refused),
    }
}

/// A transaction, if none is open. It rolls back where it is dropped.
pub(crate) fn begin<S: Alter>(conn: &mut Connection<S>) -> Result<Transaction<'_, S>, Cause> {
    if !conn.is_autocommit() {
        return Err(Cause::Refused);
    }
    Ok(conn.transaction())
}
