//! Records and tables at the front of a text.

ghost use Rattle.std.specs.Prelude.{◌≡◌, ◌++◌, ◌∷◌, [], OnOk, length, map};
ghost use Rattle.data_back.specs.Back.{record_at, records_from, slot_at, slots_from};
ghost use Rattle.data_back.specs.Back.{table_at, tables_from};
ghost use Rattle.data_records.specs.Views.{record_data, slot_data, table_data};
ghost use Rattle.data_back.specs.Reading.{Reads, ReadsAs};
ghost use Rattle.type_schema.specs.SchemaViews.{field_info_of, model_info_of};

use crate::values::{read_id, read_value};
use crate::{Scanner, Stop};
use data_records::{Record, Slot, Slots, Table};
use std::alloc::{AllocError, Global};
use type_schema::{FieldInfo, ModelInfo};

/// The slot of a field at the front.
fn read_slot(alloc: Global, scanner: &mut Scanner<'_>, info: &FieldInfo) -> Result<Slot, Stop>
    ensures { ReadsAs slot_data
        (slot_at (field_info_of info.now) scanner.old) result scanner.new }
{
    scanner.word(info.name.bytes())?;
    scanner.word(b": ")?;
    let value = read_value(alloc, scanner, info.ty)?;
    Ok(Slot {
        field: info.number,
        value,
    })
}

/// Adds the slots of fields, the first behind the separator and each further one behind a comma.
#[tactic(auto, using(crate::proofs::Turns::map_one))]
fn push_slots(
    alloc: Global,
    scanner: &mut Scanner<'_>,
    separator: &[u8],
    fields: &[FieldInfo],
    slots: &mut Slots,
) -> Result<(), Stop>
    ensures { ReadsAs (λ _. map slot_data slots.new)
        (slots_from (map slot_data slots.old) separator.now (map field_info_of fields.now)
        scanner.old) result scanner.new }
{
    match fields {
        [] => Ok(()),
        [info, fields @ ..] => {
            scanner.word(separator)?;
            let slot = read_slot(alloc, scanner, info)?;
            slots.push(slot)?;
            push_slots(alloc, scanner, b", ", fields, slots)
        }
    }
}

/// The record at the front, with its braces.
fn read_record(
    alloc: Global,
    scanner: &mut Scanner<'_>,
    fields: &[FieldInfo],
) -> Result<Record, Stop>
    ensures { ReadsAs record_data
        (record_at (map field_info_of fields.now) scanner.old) result scanner.new }
{
    let id = read_id(scanner)?;
    scanner.word(b" {")?;
    let mut slots = Slots::new(alloc);
    push_slots(alloc, scanner, b"", fields, &mut slots)?;
    scanner.word(b"}\n")?;
    Ok(Record { id, slots })
}

/// Adds a record at the end.
fn push_record(records: &mut Vec<Record>, made: Record) -> Result<(), AllocError>
    ensures { OnOk result (records.new.items ≡ records.old.items ++ made ∷ []) }
{
    records.push(made)?;
    Ok(())
}

/// Records, each on a line of its own, and the closing brace.
fn read_records(
    alloc: Global,
    scanner: &mut Scanner<'_>,
    fields: &[FieldInfo],
) -> Result<Vec<Record>, Stop>
    ensures { ReadsAs (λ records. map record_data records.items)
        (records_from (map field_info_of fields.now) [] (length scanner.old) scanner.old)
        result scanner.new }
{
    let mut records = Vec::new(alloc);
    for _turn in 0..scanner.len() {
        if !scanner.takes(b"  ") {
            scanner.word(b"}\n")?;
            return Ok(records);
        }
        let made = read_record(alloc, scanner, fields)?;
        push_record(&mut records, made)?;
    }
    Err(Stop::Unlike)
}

/// The table of a model at the front, behind its name.
pub fn read_table(alloc: Global, scanner: &mut Scanner<'_>, info: &ModelInfo) -> Result<Table, Stop>
    ensures { ReadsAs table_data
        (table_at (model_info_of info.now) scanner.old) result scanner.new }
{
    scanner.word(b" ")?;
    let next = read_id(scanner)?;
    scanner.word(b" {\n")?;
    let records = read_records(alloc, scanner, info.fields.as_slice())?;
    Ok(Table {
        model: info.number,
        next,
        records,
    })
}

/// Adds a table at the end.
fn push_table(tables: &mut Vec<Table>, made: Table) -> Result<(), AllocError>
    ensures { OnOk result (tables.new.items ≡ tables.old.items ++ made ∷ []) }
{
    tables.push(made)?;
    Ok(())
}

/// Adds the tables of models.
#[tactic(auto, using(crate::proofs::Turns::map_one))]
fn push_tables(
    alloc: Global,
    scanner: &mut Scanner<'_>,
    models: &[ModelInfo],
    tables: &mut Vec<Table>,
) -> Result<(), Stop>
    ensures { ReadsAs (λ _. map table_data tables.new.items)
        (tables_from (map table_data tables.old.items) (map model_info_of models.now)
        scanner.old) result scanner.new }
{
    match models {
        [] => Ok(()),
        [info, models @ ..] => {
            scanner.word(info.name.bytes())?;
            let made = read_table(alloc, scanner, info)?;
            push_table(tables, made)?;
            push_tables(alloc, scanner, models, tables)
        }
    }
}

/// The tables of models at the front, one after another, each under the name of its model.
pub(crate) fn read_tables(
    alloc: Global,
    scanner: &mut Scanner<'_>,
    models: &[ModelInfo],
) -> Result<Vec<Table>, Stop>
    ensures { ReadsAs (λ tables. map table_data tables.items)
        (tables_from [] (map model_info_of models.now) scanner.old) result scanner.new }
{
    let mut tables = Vec::new(alloc);
    push_tables(alloc, scanner, models, &mut tables)?;
    Ok(tables)
}
