//! The text of a database.

ghost use Rattle.std.specs.Prelude.{◌≡◌, ◌++◌, IfOk, OnOk};
ghost use Rattle.std.specs.List.{flat_map};
ghost use Rattle.data_print.specs.Texts.{database_text, table_text};
ghost use Rattle.type_schema.specs.SchemaViews.{model_info_of, schema_of};

use crate::tables::write_table;
use data_records::Database;
use std::alloc::{AllocError, Global};
use text_print::Printer;
use type_schema::{ModelInfo, Schema};

/// Writes the tables of models.
fn write_tables(
    out: &mut Printer,
    alloc: Global,
    models: &[ModelInfo],
    database: &Database,
) -> Result<(), AllocError>
    ensures { OnOk result (out.new ≡ out.old ++ flat_map
        (λ m. table_text m.name database.now (model_info_of m)) models.now) }
{
    for info in models {
        write_table(out, alloc, info.name.bytes(), info, database)?;
    }
    Ok(())
}

/// Writes a database over the schema: models, records and fields in the order of the schema, by
/// rising id, each table with its next id.
pub fn write_database(
    out: &mut Printer,
    alloc: Global,
    database: &Database,
    s: &Schema,
) -> Result<(), AllocError>
    ensures { OnOk result (out.new ≡ out.old ++ database_text (schema_of s.now) database.now) }
{
    write_tables(out, alloc, s.models.as_slice(), database)
}

/// The text of a database over the schema.
pub fn print_database(alloc: Global, database: &Database, s: &Schema) -> Result<Vec<u8>, AllocError>
    ensures { IfOk result (λ text. text.items
        ≡ database_text (schema_of s.now) database.now) }
{
    let mut out = Printer::new(alloc);
    write_database(&mut out, alloc, database, s)?;
    Ok(out.into_bytes())
}
