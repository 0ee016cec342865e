//! A printed witness, read back.

ghost use Rattle.std.specs.Prelude.{◌≡◌, IfOk, Some, map};
ghost use Rattle.std.specs.Option.{SomeIff, option_map};
ghost use Rattle.data_back.specs.Back.{found};
ghost use Rattle.data_back.specs.Printed.{IsStandard};
ghost use Rattle.data_records.specs.Views.{table_data};
ghost use Rattle.data_back.specs.Reading.{ReadsAs};
ghost use Rattle.type_schema.specs.Script.{IsScript};
ghost use Rattle.type_schema.specs.SchemaViews.{script_of};
ghost use Rattle.check_witness.specs.Printed.{witness_text};
ghost use Rattle.check_report_back.specs.Back.{witness_at, witness_of};
ghost use Rattle.check_report_back.specs.Printed.{IsReadBack, IsWitnessOn};
ghost use Rattle.check_report.specs.Views.{witness_data};
ghost use Rattle.check_report_back.specs.Told.{HasNames};

use crate::heads::{Head, read_head};
use crate::named::same;
use crate::scripts::scripts_have_names;
use crate::tables::read_tables;
use crate::there::is_witness;
use check_report::{Witness, print_witness};
use data_back::{Scanner, Stop, database_of};
use data_records::{Database, Table};
use std::alloc::{AllocError, Global};
use type_schema::TScript;

/// The lines of a witness and its tables at the front.
fn read_parts(
    alloc: Global,
    scanner: &mut Scanner<'_>,
    t: &TScript,
) -> Result<(Head, Vec<Table>), Stop>
    ensures { ReadsAs (λ parts. witness_of parts.0 (map table_data parts.1.items))
        (witness_at (script_of t.now) scanner.old) result scanner.new }
{
    let head = read_head(scanner, t)?;
    scanner.word(b"database\n")?;
    let tables = read_tables(alloc, scanner, t.start.models.as_slice())?;
    Ok((head, tables))
}

/// The lines of a witness and its tables, where the text has them.
fn parts_in(
    alloc: Global,
    text: &[u8],
    t: &TScript,
) -> Result<Option<(Head, Vec<Table>)>, AllocError>
    ensures { IfOk result (λ o.
        option_map (λ parts. witness_of parts.0 (map table_data parts.1.items)) o
        ≡ found (witness_at (script_of t.now) text.now)) }
{
    let mut scanner = Scanner::new(text);
    match read_parts(alloc, &mut scanner, t) {
        Ok(parts) => Ok(Some(parts)),
        Err(Stop::Unlike) => Ok(None),
        Err(Stop::OutOfMemory) => Err(AllocError),
    }
}

/// The witness, if it is one of the script and its text is this.
fn if_printed(
    alloc: Global,
    w: Witness,
    text: &[u8],
    t: &TScript,
) -> Result<Option<Witness>, AllocError>
    requires { IsStandard (script_of t.now).start w.base }
    ensures { IfOk result (λ o. SomeIff o (IsWitnessOn (script_of t.now) (witness_data w)
        × (witness_text (script_of t.now) (witness_data w) ≡ text.now)) w) }
{
    if !is_witness(&w, t) {
        return Ok(None);
    }
    let printed = print_witness(alloc, &w, t)?;
    if same(printed.as_slice(), text) {
        Ok(Some(w))
    } else {
        Ok(None)
    }
}

/// The witness of these lines and this database.
fn witness_from(head: Head, base: Database) -> Witness
    ensures { witness_data result ≡ witness_of head base }
{
    Witness {
        command: head.access.command,
        target: head.access.target,
        right: head.access.right,
        base,
        row: head.row,
        who: head.who,
        cell: head.cell,
    }
}

/// The witness of the parts that were found, if the text is its text.
fn from_parts(
    alloc: Global,
    head: Head,
    tables: Vec<Table>,
    text: &[u8],
    t: &TScript,
) -> Result<Option<Witness>, AllocError>
    requires script { IsScript (script_of t.now) }
    requires names { HasNames (script_of t.now) }
    requires found { found (witness_at (script_of t.now) text.now)
        ≡ Some (witness_of head (map table_data tables.items)) }
    ensures { IfOk result (λ w. IsReadBack (script_of t.now) text.now (option_map witness_data w)) }
{
    match database_of(tables, &t.start)? {
        Some(base) => if_printed(alloc, witness_from(head, base), text, t),
        None => Ok(None),
    }
}

/// The witness of the script whose printed text this is, or None where it is the text of none.
///
/// The text of a witness has one spelling: another order or another blank is none.
pub fn read_witness(alloc: Global, text: &[u8], t: &TScript) -> Result<Option<Witness>, AllocError>
    requires { IsScript (script_of t.now) }
    ensures { IfOk result (λ w. IsReadBack (script_of t.now) text.now (option_map witness_data w)) }
{
    scripts_have_names(t);
    match parts_in(alloc, text, t)? {
        Some((head, tables)) => from_parts(alloc, head, tables, text, t),
        None => Ok(None),
    }
}
