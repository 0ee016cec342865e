//! A printed database, read back.

ghost use Rattle.std.specs.Prelude.{◌≡◌, [], IfOk, Some, map};
ghost use Rattle.std.specs.Option.{SomeIff, option_map};
ghost use Rattle.std.specs.Str.{bytes_eq};
ghost use Rattle.data_back.specs.Back.{found, tables_from};
ghost use Rattle.data_back.specs.Printed.{IsNumbered, IsRead};
ghost use Rattle.data_print.specs.Texts.{database_text};
ghost use Rattle.data_records.specs.Views.{table_data};
ghost use Rattle.type_schema.specs.SchemaViews.{schema_of};

use crate::standard::database_of;
use crate::tables::read_tables;
use crate::{Scanner, Stop};
use data_print::print_database;
use data_records::{Database, Table};
use std::alloc::{AllocError, Global};
use type_schema::Schema;

/// Whether two texts are the same bytes.
fn same(a: &[u8], b: &[u8]) -> bool
    ensures { result ≡ bytes_eq a.now b.now }
{
    a == b
}

/// The tables of a text, where it has them.
fn tables_in(alloc: Global, bytes: &[u8], s: &Schema) -> Result<Option<Vec<Table>>, AllocError>
    ensures { IfOk result (λ o. option_map (λ tables. map table_data tables.items) o
        ≡ found (tables_from [] (schema_of s.now).models bytes.now)) }
{
    let mut scanner = Scanner::new(bytes);
    match read_tables(alloc, &mut scanner, s.models.as_slice()) {
        Ok(tables) => Ok(Some(tables)),
        Err(Stop::Unlike) => Ok(None),
        Err(Stop::OutOfMemory) => Err(AllocError),
    }
}

/// The database over the schema, if its text is this.
fn if_printed(
    alloc: Global,
    database: Database,
    bytes: &[u8],
    s: &Schema,
) -> Result<Option<Database>, AllocError>
    ensures { IfOk result (λ o. SomeIff o
        (database_text (schema_of s.now) database ≡ bytes.now) database) }
{
    let printed = print_database(alloc, &database, s)?;
    if same(printed.as_slice(), bytes) {
        Ok(Some(database))
    } else {
        Ok(None)
    }
}

/// The database of the tables that were found, if the bytes are its text.
fn from_tables(
    alloc: Global,
    tables: Vec<Table>,
    bytes: &[u8],
    s: &Schema,
) -> Result<Option<Database>, AllocError>
    requires numbered { IsNumbered (schema_of s.now) }
    requires found { found (tables_from [] (schema_of s.now).models bytes.now)
        ≡ Some (map table_data tables.items) }
    ensures { IfOk result (λ d. IsRead (schema_of s.now) bytes.now d) }
{
    match database_of(tables, s)? {
        Some(database) => if_printed(alloc, database, bytes, s),
        None => Ok(None),
    }
}

/// The database over the schema whose printed text the bytes are, or None where they are none.
///
/// The text of a database has one spelling: another order or another blank is none.
pub fn read_printed(alloc: Global, bytes: &[u8], s: &Schema) -> Result<Option<Database>, AllocError>
    requires { IsNumbered (schema_of s.now) }
    ensures { IfOk result (λ d. IsRead (schema_of s.now) bytes.now d) }
{
    match tables_in(alloc, bytes, s)? {
        Some(tables) => from_tables(alloc, tables, bytes, s),
        None => Ok(None),
    }
}
