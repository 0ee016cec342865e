//! The lines before the database, at the front of a text.

ghost use Rattle.std.specs.Prelude.{◌≡◌, codes};
ghost use Rattle.data_back.specs.Reading.{Reads};
ghost use Rattle.type_schema.specs.SchemaViews.{script_of};
ghost use Rattle.check_report_back.specs.Back.{access_at, cell_at, head_at, line_at, row_at};
ghost use Rattle.check_report_back.specs.Back.{touched_at, who_at};

use crate::access::{Access, read_access, read_field, read_id, read_mark, read_model};
use crate::named::{model_named, static_named};
use data_back::{Scanner, Stop};
use data_meaning::{Cell, Principal};
use type_schema::TScript;

/// What stands before the database of a witness.
#[derive(Clone, Copy, Debug, PartialEq, Eq)]
pub(crate) struct Head {
    pub(crate) access: Access,
    /// The id of the record on which the right is had.
    pub(crate) row: u64,
    /// Who has it.
    pub(crate) who: Principal,
    /// The cell that is read, of a flow leak.
    pub(crate) cell: Option<Cell>,
}

/// The line on the right that is had.
fn read_access_line(scanner: &mut Scanner<'_>, t: &TScript) -> Result<Access, Stop>
    ensures { Reads (line_at (codes "leak command ") (access_at (script_of t.now)) scanner.old)
        result scanner.new }
{
    scanner.word(b"leak command ")?;
    let access = read_access(scanner, t)?;
    scanner.word(b"\n")?;
    Ok(access)
}

/// The id of the record at the front, behind the name of its model.
fn read_row(scanner: &mut Scanner<'_>) -> Result<u64, Stop>
    ensures { Reads (row_at scanner.old) result scanner.new }
{
    let _name = scanner.name()?;
    let _mark = read_mark(scanner)?;
    scanner.word(b" ")?;
    read_id(scanner)
}

/// The line on the record.
fn read_row_line(scanner: &mut Scanner<'_>) -> Result<u64, Stop>
    ensures { Reads (line_at (codes "row ") row_at scanner.old) result scanner.new }
{
    scanner.word(b"row ")?;
    let row = read_row(scanner)?;
    scanner.word(b"\n")?;
    Ok(row)
}

/// The principal at the front: a record of a model, or a static.
fn read_who(scanner: &mut Scanner<'_>, t: &TScript) -> Result<Principal, Stop>
    ensures { Reads (who_at (script_of t.now) scanner.old) result scanner.new }
{
    let name = scanner.name()?;
    let mark = read_mark(scanner)?;
    if scanner.takes(b" ") {
        let m = model_named(t, name, mark).ok_or(Stop::Unlike)?;
        return Ok(Principal::Rec(m, read_id(scanner)?));
    }
    let n = static_named(t, name, mark).ok_or(Stop::Unlike)?;
    Ok(Principal::Static(n))
}

/// The line on who has the right.
fn read_who_line(scanner: &mut Scanner<'_>, t: &TScript) -> Result<Principal, Stop>
    ensures { Reads (line_at (codes "principal ") (who_at (script_of t.now)) scanner.old)
        result scanner.new }
{
    scanner.word(b"principal ")?;
    let who = read_who(scanner, t)?;
    scanner.word(b"\n")?;
    Ok(who)
}

/// The cell at the front: a record, and the field as it is named after so many commands.
fn read_touched(scanner: &mut Scanner<'_>, t: &TScript, k: u32) -> Result<Cell, Stop>
    ensures { Reads (touched_at (script_of t.now) k scanner.old) result scanner.new }
{
    let model = read_model(scanner, t)?;
    scanner.word(b" ")?;
    let id = read_id(scanner)?;
    scanner.word(b" ")?;
    let field = read_field(scanner, t, k, model)?;
    Ok(Cell { model, id, field })
}

/// The line on the cell that is read, if it stands at the front.
fn read_cell(scanner: &mut Scanner<'_>, t: &TScript, k: u32) -> Result<Option<Cell>, Stop>
    ensures { Reads (cell_at (script_of t.now) k scanner.old) result scanner.new }
{
    if !scanner.takes(b"touched ") {
        return Ok(None);
    }
    let cell = read_touched(scanner, t, k)?;
    scanner.word(b"\n")?;
    Ok(Some(cell))
}

/// The lines before the database.
pub(crate) fn read_head(scanner: &mut Scanner<'_>, t: &TScript) -> Result<Head, Stop>
    ensures { Reads (head_at (script_of t.now) scanner.old) result scanner.new }
{
    let access = read_access_line(scanner, t)?;
    let row = read_row_line(scanner)?;
    let who = read_who_line(scanner, t)?;
    let cell = read_cell(scanner, t, access.command)?;
    Ok(Head {
        access,
        row,
        who,
        cell,
    })
}
