//! A right on a target, at a command, at the front of a text.

ghost use Rattle.std.specs.Prelude.{◌≡◌};
ghost use Rattle.data_back.specs.Back.{id_at};
ghost use Rattle.data_back.specs.Reading.{Reads};
ghost use Rattle.type_schema.specs.SchemaViews.{script_of};
ghost use Rattle.check_report_back.specs.Back.{access_at, field_at, mark_at, model_at, number_at};
ghost use Rattle.check_report_back.specs.Back.{right_at, target_at, target_field_at};

use crate::named::{field_named, model_named};
use data_back::{Scanner, Stop};
use type_schema::{FieldNo, ModelNo, Right, TScript, Target};

/// A right on a target, at a command.
#[derive(Clone, Copy, Debug, PartialEq, Eq)]
pub(crate) struct Access {
    /// The number of the command, from 1.
    pub(crate) command: u32,
    pub(crate) target: Target,
    pub(crate) right: Right,
}

/// The number at the front, of 32 bits.
fn read_number(scanner: &mut Scanner<'_>) -> Result<u32, Stop>
    ensures { Reads (number_at scanner.old) result scanner.new }
{
    let number = scanner.number()?;
    if number > u64::from(u32::MAX) {
        return Err(Stop::Unlike);
    }
    Ok(number as u32)
}

/// The id at the front, with its `@`.
pub(crate) fn read_id(scanner: &mut Scanner<'_>) -> Result<u64, Stop>
    ensures { Reads (id_at scanner.old) result scanner.new }
{
    scanner.word(b"@")?;
    scanner.number()
}

/// The number behind an `@` at the front, if one stands there.
pub(crate) fn read_mark(scanner: &mut Scanner<'_>) -> Result<Option<u64>, Stop>
    ensures { Reads (mark_at scanner.old) result scanner.new }
{
    if !scanner.takes(b"@") {
        return Ok(None);
    }
    Ok(Some(scanner.number()?))
}

/// The model whose name is at the front.
pub(crate) fn read_model(scanner: &mut Scanner<'_>, t: &TScript) -> Result<ModelNo, Stop>
    ensures { Reads (model_at (script_of t.now) scanner.old) result scanner.new }
{
    let name = scanner.name()?;
    let mark = read_mark(scanner)?;
    model_named(t, name, mark).ok_or(Stop::Unlike)
}

/// The field of the model whose name after so many commands is at the front.
pub(crate) fn read_field(
    scanner: &mut Scanner<'_>,
    t: &TScript,
    k: u32,
    m: ModelNo,
) -> Result<FieldNo, Stop>
    ensures { Reads (field_at (script_of t.now) k m scanner.old) result scanner.new }
{
    let name = scanner.name()?;
    field_named(t, k, m, name).ok_or(Stop::Unlike)
}

/// The field at the front, behind its model and a dot.
fn read_target_field(scanner: &mut Scanner<'_>, t: &TScript, k: u32) -> Result<Target, Stop>
    ensures { Reads (target_field_at (script_of t.now) k scanner.old) result scanner.new }
{
    let m = read_model(scanner, t)?;
    scanner.word(b".")?;
    Ok(Target::Field(m, read_field(scanner, t, k, m)?))
}

/// The target at the front, as it is named after so many commands.
fn read_target(scanner: &mut Scanner<'_>, t: &TScript, k: u32) -> Result<Target, Stop>
    ensures { Reads (target_at (script_of t.now) k scanner.old) result scanner.new }
{
    if scanner.takes(b"field ") {
        return read_target_field(scanner, t, k);
    }
    scanner.word(b"model ")?;
    Ok(Target::Model(read_model(scanner, t)?))
}

/// The right whose word is at the front.
fn read_right(scanner: &mut Scanner<'_>) -> Result<Right, Stop>
    ensures { Reads (right_at scanner.old) result scanner.new }
{
    if scanner.takes(b"read") {
        return Ok(Right::Read);
    }
    if scanner.takes(b"write") {
        return Ok(Right::Write);
    }
    if scanner.takes(b"create") {
        return Ok(Right::Create);
    }
    scanner.word(b"delete")?;
    Ok(Right::Delete)
}

/// The right on a target at the front, behind the number of the command.
pub(crate) fn read_access(scanner: &mut Scanner<'_>, t: &TScript) -> Result<Access, Stop>
    ensures { Reads (access_at (script_of t.now) scanner.old) result scanner.new }
{
    let command = read_number(scanner)?;
    scanner.word(b" ")?;
    let target = read_target(scanner, t, command)?;
    scanner.word(b" right ")?;
    let right = read_right(scanner)?;
    Ok(Access {
        command,
        target,
        right,
    })
}
