//! Tables of what is written.

ghost use Rattle.std.specs.Prelude.{◌≡◌, ◌++◌, ◌∷◌, [], IfOk, OnOk, map};
ghost use Rattle.std.specs.List.Sorted.{IsNonDecreasingBy, IsPermutation};
ghost use Rattle.data_judge.specs.InOrder.{AreApart, AreApartEach};
ghost use Rattle.data_judge.specs.Laid.{AreLaid, IsLaid, Lays};
ghost use Rattle.data_judge.specs.Meaning as meaning;
ghost use Rattle.data_records.specs.Views.{record_data, table_data};
ghost use Rattle.type_schema.specs.SchemaViews.{field_info_of, model_info_of};

use crate::names::table_written;
use crate::rows::record_of;
use data_records::{Record, Table};
use data_tree::{RecordLit, TableLit};
use std::alloc::{AllocError, Global};
use type_schema::{FieldInfo, ModelInfo};

/// Adds a record at the end.
fn push_record(records: &mut Vec<Record>, made: Record) -> Result<(), AllocError>
    ensures { OnOk result (map record_data records.new.items
        ≡ map record_data records.old.items ++ map record_data (made ∷ [])) }
{
    records.push(made)?;
    Ok(())
}

/// The records that are written, of a model with these fields.
fn records_of(
    alloc: Global,
    fields: &[FieldInfo],
    rows: &[RecordLit],
) -> Result<Vec<Record>, AllocError>
    requires { AreApart (map field_info_of fields.now) }
    ensures { IfOk result (λ made. map record_data made.items
        ≡ map (meaning.record_of (map field_info_of fields.now)) rows.now) }
{
    let mut records = Vec::new(alloc);
    for row in rows {
        let made = record_of(alloc, fields, row)?;
        push_record(&mut records, made)?;
    }
    Ok(records)
}

/// The records in the order of their ids.
fn by_id(mut records: Vec<Record>) -> Vec<Record>
    ensures same { IsPermutation records.items result.items }
    ensures order { IsNonDecreasingBy (λ r. r.id) result.items }
{
    records.sort_unstable_by_key(|made| made.id);
    records
}

/// The table of what is written for the model.
fn table_of(alloc: Global, ts: &[TableLit], info: &ModelInfo) -> Result<Table, AllocError>
    requires { AreApart (map field_info_of info.now.fields) }
    ensures { IfOk result (λ t. IsLaid ts.now (model_info_of info.now) (table_data t)) }
{
    match table_written(ts, info.name.bytes()) {
        Some(table) => {
            let records = records_of(alloc, info.fields.as_slice(), table.records.as_slice())?;
            Ok(Table {
                model: info.number,
                next: table.next.number,
                records: by_id(records),
            })
        }
        None => Ok(Table {
            model: info.number,
            next: 1,
            records: Vec::new(alloc),
        }),
    }
}

/// Adds the tables of models.
fn push_tables(
    alloc: Global,
    ts: &[TableLit],
    models: &[ModelInfo],
    tables: &mut Vec<Table>,
) -> Result<(), AllocError>
    requires { AreApartEach (map model_info_of models.now) }
    ensures { OnOk result (Lays ts.now (map model_info_of models.now)
        (map table_data tables.old.items) (map table_data tables.new.items)) }
{
    match models {
        [] => Ok(()),
        [info, models @ ..] => {
            let made = table_of(alloc, ts, info)?;
            tables.push(made)?;
            push_tables(alloc, ts, models, tables)
        }
    }
}

/// The tables of what is written for models.
pub(crate) fn tables_of(
    alloc: Global,
    ts: &[TableLit],
    models: &[ModelInfo],
) -> Result<Vec<Table>, AllocError>
    requires { AreApartEach (map model_info_of models.now) }
    ensures { IfOk result (λ tables. AreLaid ts.now
        (map model_info_of models.now) (map table_data tables.items)) }
{
    let mut tables = Vec::new(alloc);
    push_tables(alloc, ts, models, &mut tables)?;
    Ok(tables)
}
