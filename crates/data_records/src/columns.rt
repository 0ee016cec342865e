//! A field of all records of a table.

ghost use Rattle.std.specs.Prelude.{◌≡◌, ◌≤◌, length, map, OnErr, OnOk};
ghost use Rattle.data_meaning.specs.Database as plain;
ghost use Rattle.data_records.specs.Moved.{with_slots, with_slots_in, without_field_in};
ghost use Rattle.data_records.specs.Moved.{without_slot};
ghost use Rattle.data_records.specs.TakenBack.{taken_back};
ghost use Rattle.data_records.specs.Views.{record_data, table_data, value_data};

use crate::record::{Record, Slot};
use crate::table::Table;
use crate::value::Value;
use std::alloc::AllocError;
use type_schema::{FieldNo, ModelNo};

/// Takes the values of the field out of records.
fn take_values(records: &mut [Record], f: FieldNo)
    ensures { map record_data records.new
        ≡ map (λ (r : plain.Record). record r { slots = without_slot f r })
        (map record_data records.old) }
{
    for made in records.iter_mut() {
        made.take_field(f);
    }
}

/// Takes the last value out of each record behind the first so many.
fn take_back(records: &mut [Record], stay: usize)
    requires { stay ≤ length records.old }
    ensures { map record_data records.new ≡ taken_back stay (map record_data records.old) }
{
    for at in stay..records.len() {
        let made = &mut records[at];
        made.take_last();
    }
}

/// Adds a value of the field to each record, in their order, the last one first. After an error
/// the records are as they were.
fn add_values(records: &mut [Record], f: FieldNo, mut values: Vec<Value>) -> Result<(), AllocError>
    requires { length values.items ≡ length records.old }
    ensures ok { OnOk result (map record_data records.new
        ≡ with_slots f (map value_data values.items) (map record_data records.old)) }
    ensures err { OnErr result (map record_data records.new ≡ map record_data records.old) }
{
    while let Some(value) = values.pop() {
        let at = values.len();
        let made = &mut records[at];
        if made.push(Slot { field: f, value }).is_err() {
            take_back(records, at + 1);
            return Err(AllocError);
        }
    }
    Ok(())
}

impl Table {
    /// Takes the values of the field out of the records, if the table is that of the model.
    pub(crate) fn take_field(&mut self, m: ModelNo, f: FieldNo)
        ensures { table_data self.new ≡ without_field_in m f (table_data self.old) }
    {
        if self.model == m {
            take_values(self.records.as_mut_slice(), f);
        }
    }

    /// Adds a value of the field to each record, in their order. After an error the table is as it
    /// was.
    pub(crate) fn add_field(&mut self, f: FieldNo, values: Vec<Value>) -> Result<(), AllocError>
        requires { length values.items ≡ length self.old.records.items }
        ensures ok { OnOk result (table_data self.new
            ≡ with_slots_in f (map value_data values.items) (table_data self.old)) }
        ensures err { OnErr result (table_data self.new ≡ table_data self.old) }
    {
        add_values(self.records.as_mut_slice(), f, values)
    }
}
