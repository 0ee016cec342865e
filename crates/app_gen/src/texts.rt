//! The specification and the scripts.

ghost use Rattle.std.specs.Prelude.{◌≡◌, ◌++◌, IfOk, OnOk};
ghost use Rattle.app_gen.specs.Generated as spec;

use crate::policies::{Filters, write_decimal, write_rights};
use std::alloc::{AllocError, Global};
use text_print::Printer;

/// The text of a specification before the fields that are counted.
const HEAD: &[u8] = b"static Visitor
principal model User {create: none, delete: none}
principal model Robot {create: none, delete: none}
model Group {create: none, delete: none}
model Membership {
  create: none,
  delete: none,
  user: Id(User) {read: public, write: none},
  group: Id(Group) {read: public, write: none},
  level: Int {read: public, write: none},
}
model Note {
  create: none,
  delete: none,
  owner: Id(User) {read: public, write: none},
  group: Id(Group) {read: public, write: none},
";

/// Writes a field of notes with this number.
fn write_field(out: &mut Printer, alloc: Global, number: u32) -> Result<(), AllocError>
    ensures { OnOk result (out.new ≡ out.old ++ spec.field_text number) }
{
    out.put(b"  t")?;
    write_decimal(out, alloc, number)?;
    out.put(b": Text ")?;
    write_rights(out, alloc, Filters::Group, Filters::Group)?;
    out.put(b",\n")?;
    Ok(())
}

/// Writes the fields of notes, from 1 to this number.
fn write_fields(out: &mut Printer, alloc: Global, count: u32) -> Result<(), AllocError>
    ensures { OnOk result (out.new ≡ out.old ++ spec.fields_text count) }
{
    let mut number = 0;
    while number < count {
        number += 1;
        write_field(out, alloc, number)?;
    }
    Ok(())
}

/// The text of the specification with this number of fields.
pub fn spec_text(alloc: Global, count: u32) -> Result<Vec<u8>, AllocError>
    ensures { IfOk result (λ text. text.items ≡ spec.spec_text count) }
{
    let mut out = Printer::new(alloc);
    out.put(HEAD)?;
    write_fields(&mut out, alloc, count)?;
    out.put(b"}\n")?;
    Ok(out.into_bytes())
}

/// Writes a command that updates both policies of the field with this number.
fn write_command(
    out: &mut Printer,
    alloc: Global,
    number: u32,
    read: Filters,
    write: Filters,
) -> Result<(), AllocError>
    ensures { OnOk result (out.new ≡ out.old
        ++ spec.command_text number (spec.filters_text read) (spec.filters_text write)) }
{
    out.put(b"Note::UpdateFieldPolicy(t")?;
    write_decimal(out, alloc, number)?;
    out.put(b", ")?;
    write_rights(out, alloc, read, write)?;
    out.put(b")\n")?;
    Ok(())
}

/// Writes commands that tighten the policies of the fields from 1 to this number.
fn write_tightened(out: &mut Printer, alloc: Global, count: u32) -> Result<(), AllocError>
    ensures { OnOk result (out.new ≡ out.old ++ spec.script_text count) }
{
    let mut number = 0;
    while number < count {
        number += 1;
        let level = Filters::Level(number);
        write_command(out, alloc, number, level, level)?;
    }
    Ok(())
}

/// The text of the script that tightens the policies of this number of fields.
pub fn script_text(alloc: Global, count: u32) -> Result<Vec<u8>, AllocError>
    ensures { IfOk result (λ text. text.items ≡ spec.script_text count) }
{
    let mut out = Printer::new(alloc);
    write_tightened(&mut out, alloc, count)?;
    Ok(out.into_bytes())
}

/// The text of the script that does the same, but for reading the last field, where it leaves no
/// filter.
pub fn loosened_text(alloc: Global, count: u32) -> Result<Vec<u8>, AllocError>
    ensures { IfOk result (λ text. text.items ≡ spec.loosened_text count) }
{
    let mut out = Printer::new(alloc);
    if count == 0 {
        return Ok(out.into_bytes());
    }
    write_tightened(&mut out, alloc, count - 1)?;
    write_command(&mut out, alloc, count, Filters::None, Filters::Level(count))?;
    Ok(out.into_bytes())
}
