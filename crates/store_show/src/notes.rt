//! The lines of notes.

ghost use Rattle.std.specs.Prelude.{◌≡◌, ◌++◌, OnOk, codes};
ghost use Rattle.std.specs.List.{flat_map};
ghost use Rattle.store_show.specs.Texts.{note_text, right_text, target_text, when_text};

use data_print::write_decimal;
use std::alloc::{AllocError, Global};
use store_keeper::Note;
use text_ast::Name;
use text_print::Printer;
use type_schema::Right;

/// The word of a right.
fn right_word(right: Right) -> &'static [u8]
    ensures { result.now ≡ right_text right }
{
    match right {
        Right::Read => b"read",
        Right::Write => b"write",
        Right::Create => b"create",
        Right::Delete => b"delete",
    }
}

/// Writes what a right was on.
fn write_target(out: &mut Printer, model: &Name, field: &Option<Name>) -> Result<(), AllocError>
    ensures { OnOk result (out.new ≡ out.old ++ target_text model.now field.now) }
{
    out.put(model.bytes())?;
    match field {
        Some(name) => {
            out.put(b".")?;
            out.put(name.bytes())?;
            Ok(())
        }
        None => Ok(()),
    }
}

/// Writes when a right was weakened, and a blank.
fn write_when(
    out: &mut Printer,
    alloc: Global,
    version: u64,
    command: u32,
) -> Result<(), AllocError>
    ensures { OnOk result (out.new ≡ out.old ++ when_text version command) }
{
    out.put(b"note ")?;
    write_decimal(out, alloc, version)?;
    out.put(b" command ")?;
    write_decimal(out, alloc, u64::from(command))?;
    out.put(b" ")?;
    Ok(())
}

/// Writes the word of a right between blanks.
fn write_right(out: &mut Printer, right: Right) -> Result<(), AllocError>
    ensures { OnOk result (out.new ≡ out.old ++ codes " " ++ right_text right ++ codes " ") }
{
    out.put(b" ")?;
    out.put(right_word(right))?;
    out.put(b" ")?;
    Ok(())
}

/// Writes a note on a line of its own.
fn write_note(out: &mut Printer, alloc: Global, note: &Note) -> Result<(), AllocError>
    ensures { OnOk result (out.new ≡ out.old ++ note_text note.now) }
{
    write_when(out, alloc, note.version, note.command)?;
    write_target(out, &note.model, &note.field)?;
    write_right(out, note.right)?;
    out.text(note.reason.bytes())?;
    out.put(b"\n")?;
    Ok(())
}

/// Writes notes, each on a line of its own.
pub(crate) fn write_notes(
    out: &mut Printer,
    alloc: Global,
    notes: &[Note],
) -> Result<(), AllocError>
    ensures { OnOk result (out.new ≡ out.old ++ flat_map note_text notes.now) }
{
    for note in notes {
        write_note(out, alloc, note)?;
    }
    Ok(())
}
