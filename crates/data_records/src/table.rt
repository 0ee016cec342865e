//! Tables.

ghost use Rattle.std.specs.Prelude.{◌≡◌, ◌==◌, ◌<◌, ◌^◌, length, map, option_copied};
ghost use Rattle.std.specs.Prelude.{MatchOption, IfOk, IfSome, OnOk, OnErr, Some};
ghost use Rattle.std.specs.List.{find};
ghost use Rattle.std.specs.Option.{option_map};
ghost use Rattle.std.specs.List.Sorted.{IsStrictlyIncreasing};
ghost use Rattle.data_records.specs.Inserted.{with_record};
ghost use Rattle.data_records.specs.Changed.{with_value_in};
ghost use Rattle.data_records.specs.Removed.{without_record_in};
ghost use Rattle.data_records.specs.Renumbered.{field_count, new_field, record_numbered_by};
ghost use Rattle.data_records.specs.Renumbered.{renumbered_table};
ghost use Rattle.data_records.specs.Rising.{IsFirstAt};
ghost use Rattle.data_records.specs.Undone.{last_of, without_newest_in};
ghost use Rattle.data_records.specs.Views.{record_data, table_data, value_data};
ghost use Rattle.type_schema.specs.SchemaViews.{model_info_of};

use crate::numbers::new_model;
use crate::record::{Record, Slot};
use std::alloc::{AllocError, Global};
use type_schema::{ModelInfo, ModelNo};

/// The records of a model by rising id, and an id above all that were given so far.
#[derive(Drop)]
pub struct Table {
    pub model: ModelNo,
    pub next: u64,
    pub records: Vec<Record>,
}

/// The record with the id, if it stands where it does when no id before it was left out.
fn record_at(records: &[Record], id: u64) -> Option<&Record>
    requires { IsStrictlyIncreasing (map (λ r. r.id) records.now) }
    ensures { IfSome result (λ it. find (λ r. r.id == id) records.now ≡ Some it.now) }
{
    match records.get(id.checked_sub(1)? as usize) {
        Some(record) if record.id == id => Some(record),
        _ => None,
    }
}

/// The record with the id, sought among all.
fn record_sought(records: &[Record], id: u64) -> Option<&Record>
    requires { IsStrictlyIncreasing (map (λ r. r.id) records.now) }
    ensures { option_copied result ≡ find (λ r. r.id == id) records.now }
{
    match records.binary_search_by_key(&id, |record| record.id) {
        Ok(at) => Some(&records[at]),
        Err(_) => None,
    }
}

/// The record with the id among records by rising id.
pub(crate) fn record_in(records: &[Record], id: u64) -> Option<&Record>
    requires { IsStrictlyIncreasing (map (λ r. r.id) records.now) }
    ensures { option_copied result ≡ find (λ r. r.id == id) records.now }
{
    match record_at(records, id) {
        Some(record) => Some(record),
        None => record_sought(records, id),
    }
}

/// The place of the record with the id among records by rising id.
fn place_of(records: &[Record], id: u64) -> Option<usize>
    requires { IsStrictlyIncreasing (map (λ r. r.id) records.now) }
    ensures { MatchOption result (find (λ r. r.id == id) records.now ≡ None)
        (λ at. IsFirstAt (λ r. r.id == id) records.now at) }
{
    match records.binary_search_by_key(&id, |record| record.id) {
        Ok(at) => Some(at),
        Err(_) => None,
    }
}

/// Equal records, in the same order.
fn copy_records(alloc: Global, records: &[Record]) -> Result<Vec<Record>, AllocError>
    ensures { IfOk result (λ copies. map record_data copies.items ≡ map record_data records.now) }
{
    let mut copies = Vec::new(alloc);
    for record in records {
        let copy = record.copy(alloc)?;
        copies.push(copy)?;
    }
    Ok(copies)
}

/// Gives each value of records of the model the new number of its field.
fn renumber_records(records: &mut [Record], models: &[ModelInfo], m: ModelNo)
    requires { field_count (map model_info_of models.now) < 2 ^ 32 }
    ensures { map record_data records.new
        ≡ map (record_numbered_by (new_field (map model_info_of models.now) m))
        (map record_data records.old) }
{
    for made in records.iter_mut() {
        made.renumber(models, m);
    }
}

impl Table {
    /// An equal table, in memory of its own.
    pub fn copy(&self, alloc: Global) -> Result<Table, AllocError>
        ensures { IfOk result (λ copy. table_data copy ≡ table_data self.now) }
    {
        let records = copy_records(alloc, self.records.as_slice())?;
        Ok(Table {
            model: self.model,
            next: self.next,
            records,
        })
    }

    /// Puts the value into its field of the record, if it is there.
    pub(crate) fn put(&mut self, id: u64, slot: Slot)
        requires { IsStrictlyIncreasing (map (λ r. r.id) self.old.records.items) }
        ensures { table_data self.new
            ≡ with_value_in id slot.field (value_data slot.value) (table_data self.old) }
    {
        match place_of(self.records.as_slice(), id) {
            Some(at) => {
                let record = &mut self.records[at];
                record.put(slot);
            }
            None => {}
        }
    }

    /// Takes out the record, if it is there.
    pub(crate) fn take(&mut self, id: u64) -> Option<Record>
        requires { IsStrictlyIncreasing (map (λ r. r.id) self.old.records.items) }
        ensures left { table_data self.new ≡ without_record_in id (table_data self.old) }
        ensures taken { IfSome result (λ r. r.id ≡ id) }
    {
        match place_of(self.records.as_slice(), id) {
            Some(at) => Some(self.records.remove(at)),
            None => None,
        }
    }

    /// Takes out the last record, if there is one, and lowers the next id.
    pub(crate) fn take_newest(&mut self) -> Option<Record>
        ensures left { table_data self.new ≡ without_newest_in (table_data self.old) }
        ensures taken { option_map record_data result
            ≡ last_of (map record_data self.old.records.items) }
    {
        let taken = self.records.pop()?;
        self.next = self.next.saturating_sub(1);
        Some(taken)
    }

    /// Puts a record at the end, and raises the next id.
    pub(crate) fn push(&mut self, made: Record) -> Result<(), AllocError>
        requires { self.old.next < 18446744073709551615 }
        ensures ok { OnOk result (table_data self.new
            ≡ with_record (record_data made) (table_data self.old)) }
        ensures err { OnErr result (table_data self.new ≡ table_data self.old) }
    {
        self.records.push(made)?;
        self.next += 1;
        Ok(())
    }

    /// Gives the table, and each value in it, the new number of its model and field.
    pub(crate) fn renumber(&mut self, models: &[ModelInfo])
        requires models { length models.now < 2 ^ 32 }
        requires fields { field_count (map model_info_of models.now) < 2 ^ 32 }
        ensures { table_data self.new
            ≡ renumbered_table (map model_info_of models.now) (table_data self.old) }
    {
        renumber_records(self.records.as_mut_slice(), models, self.model);
        self.model = new_model(models, self.model);
    }
}
