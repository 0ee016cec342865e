//! The values of a row, and those that a row is to hold.

use crate::cause::Cause;
use sqlite::Row;
use sqlite::types::ValueRef;
use std::alloc::Global;
use text_ast::{Name, Txt};
use type_schema::Right;

/// The number in a column, which is not below 0.
pub(crate) fn number_at(row: &Row, at: usize) -> Result<u64, Cause> {
    match row.get_ref(at)? {
        ValueRef::Int(number) => u64::try_from(number).map_err(|_| Cause::Refused),
        _ => Err(Cause::Refused),
    }
}

/// The number of a row, under which the library keeps it.
pub(crate) fn row_number_at(row: &Row, at: usize) -> Result<ValueRef<'static>, Cause> {
    match row.get_ref(at)? {
        ValueRef::Int(number) => Ok(ValueRef::Int(number)),
        _ => Err(Cause::Refused),
    }
}

/// A number, as a column holds it.
pub(crate) fn integer(number: u64) -> Result<ValueRef<'static>, Cause> {
    match i64::try_from(number) {
        Ok(number) => Ok(ValueRef::Int(number)),
        Err(_) => Err(Cause::Refused),
    }
}

/// The text in a column.
pub(crate) fn text_at<'a>(row: &'a Row, at: usize) -> Result<&'a [u8], Cause> {
    match row.get_ref(at)? {
        ValueRef::Text(bytes) => Ok(bytes),
        _ => Err(Cause::Refused),
    }
}

/// The name that the bytes are.
fn name_of(alloc: Global, bytes: &[u8]) -> Result<Name, Cause> {
    match Name::make(alloc, bytes)? {
        Some(name) => Ok(name),
        None => Err(Cause::Refused),
    }
}

/// The name in a column.
pub(crate) fn name_at(alloc: Global, row: &Row, at: usize) -> Result<Name, Cause> {
    let bytes = text_at(row, at)?;
    name_of(alloc, bytes)
}

/// The name in a column, or None where the column is NULL.
pub(crate) fn name_if_at(alloc: Global, row: &Row, at: usize) -> Result<Option<Name>, Cause> {
    match row.get_ref(at)? {
        ValueRef::Null => Ok(None),
        ValueRef::Text(bytes) => Ok(Some(name_of(alloc, bytes)?)),
        _ => Err(Cause::Refused),
    }
}

/// The text value in a column.
pub(crate) fn reason_at(alloc: Global, row: &Row, at: usize) -> Result<Txt, Cause> {
    let bytes = text_at(row, at)?;
    match Txt::make(Vec::from_slice(alloc, bytes)?) {
        Some(text) => Ok(text),
        None => Err(Cause::Refused),
    }
}

/// The right whose word is in a column.
pub(crate) fn right_at(row: &Row, at: usize) -> Result<Right, Cause> {
    match text_at(row, at)? {
        b"read" => Ok(Right::Read),
        b"write" => Ok(Right::Write),
        b"create" => Ok(Right::Create),
        b"delete" => Ok(Right::Delete),
        _ => Err(Cause::Refused),
    }
}

/// The word of a right.
pub(crate) fn right_word(right: Right) -> &'static [u8] {
    match right {
        Right::Read => b"read",
        Right::Write => b"write",
        Right::Create => b"create",
        Right::Delete => b"delete",
    }
}
