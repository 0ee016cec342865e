//! Whether tables are a database over a schema.

ghost use Rattle.std.specs.Prelude.{◌≡◌, ◌↔◌, ◌<◌, IsTrue, IfOk, length, map, nat_eq, nat_lt};
ghost use Rattle.std.specs.List.{AllByRecursion, IsDistinct, list_all, slice_index};
ghost use Rattle.std.specs.List.Sorted.{IsStrictlyIncreasing};
ghost use Rattle.std.specs.Option.{SomeIff};
ghost use Rattle.data_meaning.specs.Database.{AreSlots};
ghost use Rattle.data_back.specs.Printed.{IsStandard};
ghost use Rattle.data_back.specs.Standard.{IsKeptTable, IsRecordOf, IsSlotOf, IsWhole};
ghost use Rattle.data_records.specs.Views.{record_data, slot_data, table_data};
ghost use Rattle.type_schema.specs.Proper.{model_numbers};
ghost use Rattle.type_schema.specs.SchemaViews.{field_info_of, model_info_of, schema_of};

use crate::shapes::{is_intact, is_value};
use data_meaning::limits::LAST_ID;
use data_records::{Database, Record, Slot, Table};
use std::alloc::AllocError;
use type_schema::{FieldInfo, ModelInfo, Schema};

/// The last id of a record, and one more.
const LAST_NEXT: u64 = LAST_ID + 1;

/// The id of the record at the place.
fn id_at(records: &[Record], place: usize) -> u64
    requires { place < length records.now }
    ensures { result ≡ slice_index (map (λ r. r.id) (map record_data records.now)) place }
{
    records[place].id
}

/// Whether the ids of the records rise.
fn is_rising(records: &[Record]) -> bool
    ensures { IsTrue result
        ↔ IsStrictlyIncreasing (map (λ r. r.id) (map record_data records.now)) }
{
    let mut place = 1;
    while place < records.len() {
        if id_at(records, place) <= id_at(records, place - 1) {
            return false;
        }
        place += 1;
    }
    true
}

/// Whether each id is below the next one to be given.
fn are_below(records: &[Record], next: u64) -> bool
    ensures { result ≡ list_all (λ r. nat_lt r.id next) records.now }
{
    records.iter().all(|row| row.id < next)
}

/// Whether the ids of the records are below the next.
fn are_given(records: &[Record], next: u64) -> bool
    ensures { IsTrue result ↔ AllByRecursion (λ r. r.id < next) (map record_data records.now) }
{
    are_below(records, next)
}

/// Whether the ids of the records rise and are below the next.
fn is_kept(table: &Table) -> bool
    ensures { IsTrue result ↔ IsKeptTable (table_data table.now) }
{
    let records = table.records.as_slice();
    is_rising(records) && are_given(records, table.next)
}

/// Whether in each table the ids of the records rise and are below the next.
fn are_kept(tables: &[Table]) -> bool
    ensures { IsTrue result ↔ AllByRecursion IsKeptTable (map table_data tables.now) }
{
    match tables {
        [] => true,
        [table, tables @ ..] => is_kept(table) && are_kept(tables),
    }
}

/// Whether the slot is one of the field.
fn is_slot(database: &Database, info: &FieldInfo, slot: &Slot) -> bool
    ensures { IsTrue result
        ↔ IsSlotOf database.now (field_info_of info.now) (slot_data slot.now) }
{
    slot.field == info.number
        && is_value(&slot.value, info.ty)
        && is_intact(database, info.ty, &slot.value)
}

/// Whether the slots are those of the fields.
fn are_slots(database: &Database, fields: &[FieldInfo], slots: &[Slot]) -> bool
    ensures { IsTrue result ↔ AreSlots database.now
        (map field_info_of fields.now) (map slot_data slots.now) }
{
    match fields {
        [] => slots.is_empty(),
        [info, fields @ ..] => match slots {
            [] => false,
            [slot, slots @ ..] => {
                is_slot(database, info, slot) && are_slots(database, fields, slots)
            }
        },
    }
}

/// Whether the record is one of a model with these fields.
fn is_record(database: &Database, fields: &[FieldInfo], row: &Record) -> bool
    ensures { IsTrue result
        ↔ IsRecordOf database.now (map field_info_of fields.now) (record_data row.now) }
{
    row.id >= 1 && are_slots(database, fields, row.slots.as_slice())
}

/// Whether the records are those of a model with these fields.
fn are_records(database: &Database, fields: &[FieldInfo], records: &[Record]) -> bool
    ensures { IsTrue result ↔ AllByRecursion
        (IsRecordOf database.now (map field_info_of fields.now)) (map record_data records.now) }
{
    for row in records {
        if !is_record(database, fields, row) {
            return false;
        }
    }
    true
}

/// Whether the records of the model hold values of its fields.
fn is_whole(database: &Database, info: &ModelInfo) -> bool
    ensures { IsTrue result ↔ IsWhole database.now (model_info_of info.now) }
{
    let next = database.next(info.number);
    let records = database.records(info.number);
    1 <= next && next <= LAST_NEXT && are_records(database, info.fields.as_slice(), records)
}

/// Whether the records of each model hold values of its fields.
fn are_whole(database: &Database, models: &[ModelInfo]) -> bool
    ensures { IsTrue result
        ↔ AllByRecursion (IsWhole database.now) (map model_info_of models.now) }
{
    match models {
        [] => true,
        [info, models @ ..] => is_whole(database, info) && are_whole(database, models),
    }
}

/// The database of the tables of a schema's models, or None where they are no database over it.
pub fn database_of(tables: Vec<Table>, s: &Schema) -> Result<Option<Database>, AllocError>
    requires models { IsDistinct nat_eq (model_numbers (schema_of s.now).models) }
    requires order { map (λ t. t.model) (map table_data tables.items)
        ≡ model_numbers (schema_of s.now).models }
    ensures { IfOk result (λ d. SomeIff d
        (IsStandard (schema_of s.now) (map table_data tables.items))
        (map table_data tables.items)) }
{
    if !are_kept(tables.as_slice()) {
        return Ok(None);
    }
    let database = Database::of_tables(tables)?;
    if are_whole(&database, s.models.as_slice()) {
        Ok(Some(database))
    } else {
        Ok(None)
    }
}
