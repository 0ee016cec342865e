//! The rows of records that change.

use crate::cause::Cause;
use crate::columns::{integer, number_at, row_number_at, text_at};
use crate::lines::{Lines, from_brace};
use crate::session::{Writing, change_one};
use data_records::Record;
use sqlite::Row;
use sqlite::types::ValueRef;

/// The rows of a model that were there, by rising id; those before `done` are behind.
#[derive(Drop)]
struct Earlier<'r> {
    rows: &'r [Row],
    done: usize,
}

/// Makes the row of a record.
pub(crate) fn insert<T: Writing>(
    tx: &mut T,
    model: &[u8],
    id: u64,
    line: &[u8],
) -> Result<(), Cause> {
    let id = integer(id)?;
    change_one(
        tx,
        "INSERT INTO record (model, id, line) VALUES (?1, ?2, ?3)",
        &[ValueRef::Text(model), id, ValueRef::Text(line)],
    )
}

/// Changes the row of a record that was read.
fn update_row<T: Writing>(tx: &mut T, row: &Row, line: &[u8]) -> Result<(), Cause> {
    let number = row_number_at(row, 3)?;
    change_one(
        tx,
        "UPDATE record SET line = ?2 WHERE rowid = ?1",
        &[number, ValueRef::Text(line)],
    )
}

/// Changes the row of a record.
pub(crate) fn update<T: Writing>(
    tx: &mut T,
    model: &[u8],
    id: u64,
    line: &[u8],
) -> Result<(), Cause> {
    let id = integer(id)?;
    change_one(
        tx,
        "UPDATE record SET line = ?3 WHERE model = ?1 AND id = ?2",
        &[ValueRef::Text(model), id, ValueRef::Text(line)],
    )
}

/// Drops the row of a record.
pub(crate) fn delete<T: Writing>(tx: &mut T, model: &[u8], id: u64) -> Result<(), Cause> {
    let id = integer(id)?;
    change_one(
        tx,
        "DELETE FROM record WHERE model = ?1 AND id = ?2",
        &[ValueRef::Text(model), id],
    )
}

/// Gives the row that was read the line, unless it has it.
fn write_line<T: Writing>(tx: &mut T, row: &Row, line: &[u8]) -> Result<(), Cause> {
    if text_at(row, 2)? == line {
        return Ok(());
    }
    update_row(tx, row, line)
}

impl Earlier<'_> {
    /// The id of the next row.
    fn id(&self) -> Result<Option<u64>, Cause> {
        match self.rows.get(self.done) {
            Some(row) => Ok(Some(number_at(row, 1)?)),
            None => Ok(None),
        }
    }

    /// Drops the rows with an id below this one, or all where there is none.
    fn drop_below<T: Writing>(
        &mut self,
        tx: &mut T,
        model: &[u8],
        end: Option<u64>,
    ) -> Result<(), Cause> {
        for _ in 0..self.rows.len() {
            let Some(id) = self.id()? else {
                return Ok(());
            };
            if end.is_some_and(|end| end <= id) {
                return Ok(());
            }
            delete(tx, model, id)?;
            self.done = self.done.saturating_add(1);
        }
        Ok(())
    }

    /// Writes the line of a record, unless its row has it.
    fn write<T: Writing>(
        &mut self,
        tx: &mut T,
        model: &[u8],
        id: u64,
        line: &[u8],
    ) -> Result<(), Cause> {
        self.drop_below(tx, model, Some(id))?;
        if self.id()? != Some(id) {
            return insert(tx, model, id, line);
        }
        let at = self.done;
        self.done = self.done.saturating_add(1);
        match self.rows.get(at) {
            Some(row) => write_line(tx, row, line),
            None => Err(Cause::Refused),
        }
    }
}

/// The text of the next record, of the lines of its table.
fn next_line<'a>(lines: &mut Lines<'a>) -> Result<&'a [u8], Cause> {
    let Some(line) = lines.next() else {
        return Err(Cause::Refused);
    };
    match from_brace(line) {
        Some(line) => Ok(line),
        None => Err(Cause::Refused),
    }
}

/// The text of the only record, of the text of its table.
pub(crate) fn only_line(text: &[u8]) -> Result<&[u8], Cause> {
    let mut lines = Lines::new(text);
    let _head = lines.next();
    next_line(&mut lines)
}

/// Makes the rows of a model, which are these, those of the records, whose texts are the next lines.
pub(crate) fn write_rows<T: Writing>(
    tx: &mut T,
    model: &[u8],
    records: &[Record],
    lines: &mut Lines<'_>,
    rows: &[Row],
) -> Result<(), Cause> {
    let mut rows = Earlier { rows, done: 0 };
    for made in records {
        let line = next_line(lines)?;
        rows.write(tx, model, made.id, line)?;
    }
    rows.drop_below(tx, model, None)
}
