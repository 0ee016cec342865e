//! The reports on an obligation that is not cleared and has no witness, and what they name.

ghost use Rattle.std.specs.Prelude.{◌≡◌, ◌++◌, IfOk, OnOk, codes};
ghost use Rattle.std.specs.List.{flat_map};
ghost use Rattle.type_schema.specs.SchemaViews.{script_of};
ghost use Rattle.check_witness.specs.Printed.{model_text};
ghost use Rattle.check_report.specs.Reports.{cycle_text, duty_text, kind_text};
ghost use Rattle.check_report.specs.Reports.{too_large_text, undecided_text, use_text};

use crate::lines::write_access;
use crate::names::{write_model, write_static};
use data_print::write_decimal;
use duty_meaning::Duty;
use std::alloc::{AllocError, Global};
use text_print::Printer;
use type_schema::{Kind, ModelNo, TScript};

/// Writes which use of a field it is, of a flow.
fn write_use(out: &mut Printer, alloc: Global, spot: Option<u32>) -> Result<(), AllocError>
    ensures { OnOk result (out.new ≡ out.old ++ use_text spot) }
{
    match spot {
        Some(number) => {
            out.put(b" use ")?;
            write_decimal(out, alloc, u64::from(number))?;
            Ok(())
        }
        None => Ok(()),
    }
}

/// Writes a kind of principals.
fn write_kind(out: &mut Printer, alloc: Global, t: &TScript, kind: Kind) -> Result<(), AllocError>
    ensures { OnOk result (out.new ≡ out.old ++ kind_text (script_of t.now) kind) }
{
    match kind {
        Kind::Static(n) => write_static(out, alloc, t, n),
        Kind::Model(m) => write_model(out, alloc, t, m),
    }
}

/// Writes an obligation.
fn write_duty(out: &mut Printer, alloc: Global, t: &TScript, duty: Duty) -> Result<(), AllocError>
    ensures { OnOk result (out.new ≡ out.old ++ duty_text (script_of t.now) duty) }
{
    write_access(out, alloc, t, duty.command, duty.target, duty.right)?;
    write_use(out, alloc, duty.spot)?;
    out.put(b" kind ")?;
    write_kind(out, alloc, t, duty.kind)?;
    Ok(())
}

/// Writes a model with an arrow behind it.
fn write_step(out: &mut Printer, alloc: Global, t: &TScript, m: ModelNo) -> Result<(), AllocError>
    ensures { OnOk result (out.new
        ≡ out.old ++ (model_text (script_of t.now) m ++ codes " -> ")) }
{
    write_model(out, alloc, t, m)?;
    out.put(b" -> ")?;
    Ok(())
}

/// Writes models, each with an arrow behind it.
fn write_steps(
    out: &mut Printer,
    alloc: Global,
    t: &TScript,
    models: &[ModelNo],
) -> Result<(), AllocError>
    ensures { OnOk result (out.new ≡ out.old ++ flat_map
        (λ m. model_text (script_of t.now) m ++ codes " -> ") models.now) }
{
    for m in models {
        write_step(out, alloc, t, *m)?;
    }
    Ok(())
}

/// Writes a cycle of models, which ends with the one that it began with.
fn write_cycle(
    out: &mut Printer,
    alloc: Global,
    t: &TScript,
    models: &[ModelNo],
) -> Result<(), AllocError>
    ensures { OnOk result (out.new ≡ out.old ++ cycle_text (script_of t.now) models.now) }
{
    let Some(first) = models.first() else {
        return Ok(());
    };
    write_steps(out, alloc, t, models)?;
    write_model(out, alloc, t, *first)?;
    Ok(())
}

/// An obligation as the reports name it: its command, target, right and kind of principals.
pub fn print_duty(alloc: Global, duty: Duty, t: &TScript) -> Result<Vec<u8>, AllocError>
    ensures { IfOk result (λ text. text.items ≡ duty_text (script_of t.now) duty) }
{
    let mut out = Printer::new(alloc);
    write_duty(&mut out, alloc, t, duty)?;
    Ok(out.into_bytes())
}

/// A cycle of models as the reports write it: `A -> B -> A` for A and B.
pub fn print_cycle(alloc: Global, cycle: &[ModelNo], t: &TScript) -> Result<Vec<u8>, AllocError>
    ensures { IfOk result (λ text. text.items ≡ cycle_text (script_of t.now) cycle.now) }
{
    let mut out = Printer::new(alloc);
    write_cycle(&mut out, alloc, t, cycle)?;
    Ok(out.into_bytes())
}

/// The report on an obligation that is not decided: its formula is not stratified, and this is a
/// cycle of its sorts, by their models.
pub fn print_undecided(
    alloc: Global,
    duty: Duty,
    cycle: &[ModelNo],
    t: &TScript,
) -> Result<Vec<u8>, AllocError>
    ensures { IfOk result (λ text. text.items
        ≡ undecided_text (script_of t.now) duty cycle.now) }
{
    let mut out = Printer::new(alloc);
    out.put(b"undecided ")?;
    write_duty(&mut out, alloc, t, duty)?;
    out.put(b" cycle ")?;
    write_cycle(&mut out, alloc, t, cycle)?;
    out.put(b"\n")?;
    Ok(out.into_bytes())
}

/// The report on an obligation whose formula has too many terms or nodes.
pub fn print_too_large(
    alloc: Global,
    duty: Duty,
    terms: u64,
    nodes: u64,
    t: &TScript,
) -> Result<Vec<u8>, AllocError>
    ensures { IfOk result (λ text. text.items
        ≡ too_large_text (script_of t.now) duty terms nodes) }
{
    let mut out = Printer::new(alloc);
    out.put(b"too large ")?;
    write_duty(&mut out, alloc, t, duty)?;
    out.put(b" terms ")?;
    write_decimal(&mut out, alloc, terms)?;
    out.put(b" nodes ")?;
    write_decimal(&mut out, alloc, nodes)?;
    out.put(b"\n")?;
    Ok(out.into_bytes())
}
