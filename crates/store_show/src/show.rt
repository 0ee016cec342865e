//! The whole text.

ghost use Rattle.std.specs.Prelude.{◌≡◌, ◌++◌, IfOk, OnOk};
ghost use Rattle.type_schema.specs.SchemaViews.{schema_of};
ghost use Rattle.store_keeper.specs.Stored.{stored_of};
ghost use Rattle.store_show.specs.Texts.{schema_text, show_text, version_text};

use crate::notes::write_notes;
use data_print::{write_database, write_decimal};
use std::alloc::{AllocError, Global};
use store_keeper::Stored;
use text_print::Printer;
use type_anew::spec_of;
use type_schema::Schema;

/// Writes the version on a line of its own.
fn write_version(out: &mut Printer, alloc: Global, version: u64) -> Result<(), AllocError>
    ensures { OnOk result (out.new ≡ out.old ++ version_text version) }
{
    out.put(b"version ")?;
    write_decimal(out, alloc, version)?;
    out.put(b"\n")?;
    Ok(())
}

/// Writes the specification that the schema is written as.
fn write_schema(out: &mut Printer, alloc: Global, s: &Schema) -> Result<(), AllocError>
    ensures { OnOk result (out.new ≡ out.old ++ schema_text (schema_of s.now)) }
{
    let spec = spec_of(alloc, s)?;
    out.spec(&spec)?;
    Ok(())
}

/// The text of what is stored: the version, the specification in its canonical spelling, the
/// database with its records by rising id, and a line for each note.
pub fn print_stored(alloc: Global, stored: &Stored) -> Result<Vec<u8>, AllocError>
    ensures { IfOk result (λ text. text.items ≡ show_text (stored_of stored.now)) }
{
    let mut out = Printer::new(alloc);
    write_version(&mut out, alloc, stored.version)?;
    write_schema(&mut out, alloc, &stored.schema)?;
    write_database(&mut out, alloc, &stored.base, &stored.schema)?;
    write_notes(&mut out, alloc, stored.notes.as_slice())?;
    Ok(out.into_bytes())
}
