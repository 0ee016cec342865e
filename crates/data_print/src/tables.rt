//! The texts of records and tables.

ghost use Rattle.std.specs.Prelude.{◌≡◌, ◌==◌, ◌++◌, OnOk, codes};
ghost use Rattle.std.specs.List.{find, flat_map, join_by};
ghost use Rattle.std.specs.Option.{option_map_or};
ghost use Rattle.data_meaning.specs.Values as plain;
ghost use Rattle.data_print.specs.Texts.{record_text, slot_text, table_text, value_text};
ghost use Rattle.data_records.specs.Views.{record_data};
ghost use Rattle.type_schema.specs.SchemaViews.{field_info_of, model_info_of};

use crate::values::{write_id, write_value};
use data_records::{Database, Record};
use std::alloc::{AllocError, Global};
use text_print::Printer;
use type_schema::{FieldInfo, FieldNo, ModelInfo};

/// Writes the value of the field of a record.
fn write_field(
    out: &mut Printer,
    alloc: Global,
    row: &Record,
    field: FieldNo,
) -> Result<(), AllocError>
    ensures { OnOk result (out.new ≡ out.old ++ value_text
        (option_map_or (λ slot. slot.value)
        (find (λ slot. slot.field == field) (record_data row.now).slots) plain.Nothing)) }
{
    match row.value(field) {
        Some(v) => write_value(out, alloc, v),
        None => out.put(b"none"),
    }
}

/// Writes a field of a record: its name, and its value after a colon.
fn write_slot(
    out: &mut Printer,
    alloc: Global,
    row: &Record,
    info: &FieldInfo,
) -> Result<(), AllocError>
    ensures { OnOk result (out.new
        ≡ out.old ++ slot_text (record_data row.now) (field_info_of info.now)) }
{
    out.put(info.name.bytes())?;
    out.put(b": ")?;
    write_field(out, alloc, row, info.number)?;
    Ok(())
}

/// Writes fields of a record, each after a comma.
fn write_more_slots(
    out: &mut Printer,
    alloc: Global,
    row: &Record,
    fields: &[FieldInfo],
) -> Result<(), AllocError>
    ensures { OnOk result (out.new ≡ out.old ++ flat_map
        (λ f. codes ", " ++ slot_text (record_data row.now) (field_info_of f)) fields.now) }
{
    for info in fields {
        out.put(b", ")?;
        write_slot(out, alloc, row, info)?;
    }
    Ok(())
}

/// Writes fields of a record with commas between.
fn write_slots(
    out: &mut Printer,
    alloc: Global,
    row: &Record,
    fields: &[FieldInfo],
) -> Result<(), AllocError>
    ensures { OnOk result (out.new ≡ out.old ++ join_by
        (λ f. slot_text (record_data row.now) (field_info_of f)) (codes ", ") fields.now) }
{
    if let Some((first, rest)) = fields.split_first() {
        write_slot(out, alloc, row, first)?;
        write_more_slots(out, alloc, row, rest)?;
    }
    Ok(())
}

/// Writes a record on a line of its own.
fn write_record(
    out: &mut Printer,
    alloc: Global,
    info: &ModelInfo,
    row: &Record,
) -> Result<(), AllocError>
    ensures { OnOk result (out.new
        ≡ out.old ++ record_text (model_info_of info.now) (record_data row.now)) }
{
    out.put(b"  ")?;
    write_id(out, alloc, row.id)?;
    out.put(b" {")?;
    write_slots(out, alloc, row, info.fields.as_slice())?;
    out.put(b"}\n")?;
    Ok(())
}

/// Writes records, each on a line of its own.
fn write_records(
    out: &mut Printer,
    alloc: Global,
    info: &ModelInfo,
    records: &[Record],
) -> Result<(), AllocError>
    ensures { OnOk result (out.new ≡ out.old ++ flat_map
        (λ r. record_text (model_info_of info.now) (record_data r)) records.now) }
{
    for row in records {
        write_record(out, alloc, info, row)?;
    }
    Ok(())
}

/// Writes the table of a model under a name: the next id, and the records by rising id.
pub fn write_table(
    out: &mut Printer,
    alloc: Global,
    name: &[u8],
    info: &ModelInfo,
    database: &Database,
) -> Result<(), AllocError>
    ensures { OnOk result (out.new
        ≡ out.old ++ table_text name.now database.now (model_info_of info.now)) }
{
    out.put(name)?;
    out.put(b" ")?;
    write_id(out, alloc, database.next(info.number))?;
    out.put(b" {\n")?;
    write_records(out, alloc, info, database.records(info.number))?;
    out.put(b"}\n")?;
    Ok(())
}
