//! The records that hold an id.

ghost use Rattle.std.specs.Prelude.{◌≡◌, filter, map, IfOk};
ghost use Rattle.data_meaning.specs.Database.{field_at, ids_of};
ghost use Rattle.data_meaning.specs.Meaning.{are_equal};
ghost use Rattle.data_meaning.specs.Values as plain;
ghost use Rattle.data_records.specs.Removed.{held};
ghost use Rattle.data_records.specs.Views.{record_data, value_data};

use super::Database;
use crate::index::Index;
use crate::record::Record;
use crate::shape::is_rising;
use crate::value::Value;
use std::alloc::{AllocError, Global};
use type_schema::{FieldNo, ModelNo};

/// Whether a value is equal to an id, as a filter compares them: but for an id, only of a value
/// that is not of the field's type.
fn is_equal(v: &Value, id: u64) -> bool
    ensures { result ≡ are_equal (value_data v.now) (plain.Id id) }
{
    match v {
        Value::Id(named) => *named == id,
        Value::Flag(b) => !*b,
        Value::Num(n) => *n == 0,
        Value::Str(text) => text.bytes().is_empty(),
        Value::Ids(_) | Value::Nothing | Value::Just(_) => false,
    }
}

/// Whether the field of the record is equal to the id.
fn is_held_in(made: &Record, f: FieldNo, id: u64) -> bool
    ensures { result ≡ are_equal (held (record_data made.now) f) (plain.Id id) }
{
    match made.value(f) {
        Some(value) => is_equal(value, id),
        None => false,
    }
}

/// The ids of the records whose field is equal to the id.
fn ids_in(alloc: Global, records: &[Record], f: FieldNo, id: u64) -> Result<Vec<u64>, AllocError>
    ensures { IfOk result (λ ids. ids.items ≡ map (λ r. r.id)
        (filter (λ r. are_equal (held (record_data r) f) (plain.Id id)) records.now)) }
{
    records
        .iter()
        .filter(|made| is_held_in(made, f, id))
        .map(|made| made.id)
        .collect(alloc)
}

impl Database {
    /// Whether the field of the record is equal to the id.
    fn is_held(&self, m: ModelNo, f: FieldNo, id: u64, by: u64) -> bool
        ensures { result ≡ are_equal (field_at self.now m by f) (plain.Id id) }
    {
        match self.value(m, by, f) {
            Some(value) => is_equal(value, id),
            None => false,
        }
    }

    /// Those of the ids whose records hold the id.
    fn held_among(
        &self,
        alloc: Global,
        m: ModelNo,
        f: FieldNo,
        id: u64,
        ids: &[u64],
    ) -> Result<Vec<u64>, AllocError>
        ensures { IfOk result (λ found. found.items
            ≡ filter (λ i. are_equal (field_at self.now m i f) (plain.Id id)) ids.now) }
    {
        ids.iter()
            .copied()
            .filter(|by| self.is_held(m, f, id, *by))
            .collect(alloc)
    }

    /// The same as `ids_holding`, by going through all records.
    fn ids_sought(
        &self,
        alloc: Global,
        m: ModelNo,
        f: FieldNo,
        id: u64,
    ) -> Result<Vec<u64>, AllocError>
        ensures { IfOk result (λ found. found.items
            ≡ filter (λ i. are_equal (field_at self.now m i f) (plain.Id id)) (ids_of self.now m)) }
    {
        ids_in(alloc, self.records(m), f, id)
    }

    /// The ids of the records of the model whose field is equal to the id, rising.
    ///
    /// It takes the order of their number where the references of the database are indexed, and
    /// else that of the number of records.
    pub fn ids_holding(
        &self,
        alloc: Global,
        m: ModelNo,
        f: FieldNo,
        id: u64,
    ) -> Result<Vec<u64>, AllocError>
        ensures { IfOk result (λ found. found.items
            ≡ filter (λ i. are_equal (field_at self.now m i f) (plain.Id id)) (ids_of self.now m)) }
    {
        match self.index.holding(m, f, id) {
            Some(ids) if is_rising(ids) => self.held_among(alloc, m, f, id, ids),
            _ => self.ids_sought(alloc, m, f, id),
        }
    }

    /// Notes which records hold which ids, so that `ids_holding` is quick from then on. It is slow
    /// again where memory is wanting, and once models or fields come or go, or are numbered anew.
    pub fn index_references(&mut self, alloc: Global)
        ensures { self.new ≡ self.old }
    {
        self.index = Index::of_tables(alloc, self.tables.as_slice());
    }
}
