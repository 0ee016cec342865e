//! Witnesses, and the text of one.

ghost use Rattle.std.specs.Prelude.{◌≡◌, ◌++◌, IfOk, OnOk};
ghost use Rattle.std.specs.List.{flat_map};
ghost use Rattle.data_print.specs.Texts.{table_text};
ghost use Rattle.type_schema.specs.Schema.{model_of_target};
ghost use Rattle.type_schema.specs.SchemaViews.{model_info_of, script_of};
ghost use Rattle.check_witness.specs.Printed.{database_text, leak_line, model_text};
ghost use Rattle.check_witness.specs.Printed.{principal_line, row_line, touched_line, witness_text};
ghost use Rattle.check_report.specs.Views.{witness_data};

use crate::lines::{write_access, write_principal, write_record};
use crate::names::{marked_model, write_field};
use data_meaning::{Cell, Principal};
use data_print::write_table;
use data_records::Database;
use std::alloc::{AllocError, Global};
use text_print::Printer;
use type_schema::{ModelInfo, ModelNo, Right, TScript, Target};

/// A start database on which somebody gains a right, or reads what nobody let them read.
#[derive(Drop)]
pub struct Witness {
    /// The number of the command, from 1.
    pub command: u32,
    pub target: Target,
    pub right: Right,
    /// The start database.
    pub base: Database,
    /// The id of the record on which the right is had.
    pub row: u64,
    /// Who has it.
    pub who: Principal,
    /// The cell that is read, of a flow leak.
    pub cell: Option<Cell>,
}

/// The model of a target.
fn model_of(target: Target) -> ModelNo
    ensures { result ≡ model_of_target target }
{
    match target {
        Target::Field(m, _) | Target::Model(m) => m,
    }
}

/// Writes the line on the right that is had.
fn write_leak_line(
    out: &mut Printer,
    alloc: Global,
    w: &Witness,
    t: &TScript,
) -> Result<(), AllocError>
    ensures { OnOk result (out.new
        ≡ out.old ++ leak_line (script_of t.now) (witness_data w.now)) }
{
    out.put(b"leak ")?;
    write_access(out, alloc, t, w.command, w.target, w.right)?;
    out.put(b"\n")?;
    Ok(())
}

/// Writes the line on the record.
fn write_row_line(
    out: &mut Printer,
    alloc: Global,
    w: &Witness,
    t: &TScript,
) -> Result<(), AllocError>
    ensures { OnOk result (out.new
        ≡ out.old ++ row_line (script_of t.now) (witness_data w.now)) }
{
    out.put(b"row ")?;
    write_record(out, alloc, t, model_of(w.target), w.row)?;
    out.put(b"\n")?;
    Ok(())
}

/// Writes the line on who has the right.
fn write_principal_line(
    out: &mut Printer,
    alloc: Global,
    who: Principal,
    t: &TScript,
) -> Result<(), AllocError>
    ensures { OnOk result (out.new ≡ out.old ++ principal_line (script_of t.now) who) }
{
    out.put(b"principal ")?;
    write_principal(out, alloc, t, who)?;
    out.put(b"\n")?;
    Ok(())
}

/// Writes the line on the cell that is read, if there is one.
fn write_touched_line(
    out: &mut Printer,
    alloc: Global,
    w: &Witness,
    t: &TScript,
) -> Result<(), AllocError>
    ensures { OnOk result (out.new
        ≡ out.old ++ touched_line (script_of t.now) w.now.command w.now.cell) }
{
    let Some(cell) = w.cell else {
        return Ok(());
    };
    out.put(b"touched ")?;
    write_record(out, alloc, t, cell.model, cell.id)?;
    out.put(b" ")?;
    write_field(out, t, w.command, cell.model, cell.field)?;
    out.put(b"\n")?;
    Ok(())
}

/// Writes the tables of models, each under its marked name.
fn write_tables(
    out: &mut Printer,
    alloc: Global,
    t: &TScript,
    models: &[ModelInfo],
    base: &Database,
) -> Result<(), AllocError>
    ensures { OnOk result (out.new ≡ out.old ++ flat_map
        (λ m. table_text (model_text (script_of t.now) m.number) base.now (model_info_of m))
        models.now) }
{
    for info in models {
        let name = marked_model(alloc, t, info.number)?;
        write_table(out, alloc, name.as_slice(), info, base)?;
    }
    Ok(())
}

/// Writes a start database of a script.
fn write_database(
    out: &mut Printer,
    alloc: Global,
    base: &Database,
    t: &TScript,
) -> Result<(), AllocError>
    ensures { OnOk result (out.new ≡ out.old ++ database_text (script_of t.now) base.now) }
{
    write_tables(out, alloc, t, t.start.models.as_slice(), base)?;
    Ok(())
}

/// The text of a witness of a script: a line for each part, then the database. The name of a model
/// or a static that the script adds carries the number of its command.
pub fn print_witness(alloc: Global, w: &Witness, t: &TScript) -> Result<Vec<u8>, AllocError>
    ensures { IfOk result (λ text. text.items
        ≡ witness_text (script_of t.now) (witness_data w.now)) }
{
    let mut out = Printer::new(alloc);
    write_leak_line(&mut out, alloc, w, t)?;
    write_row_line(&mut out, alloc, w, t)?;
    write_principal_line(&mut out, alloc, w.who, t)?;
    write_touched_line(&mut out, alloc, w, t)?;
    out.put(b"database\n")?;
    write_database(&mut out, alloc, &w.base, t)?;
    out.put(b"end\n")?;
    Ok(out.into_bytes())
}
