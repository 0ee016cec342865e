//! What witnesses and reports are made of.

ghost use Rattle.std.specs.Prelude.{◌≡◌, ◌++◌, IfOk, OnOk};
ghost use Rattle.type_schema.specs.SchemaViews.{script_of};
ghost use Rattle.check_witness.specs.Printed.{access_text, principal_text, record_name};
ghost use Rattle.check_witness.specs.Printed.{right_text, target_text};
ghost use Rattle.check_report.specs.Reports.{target_name};

use crate::names::{write_field, write_model, write_static};
use data_meaning::Principal;
use data_print::{write_decimal, write_id};
use std::alloc::{AllocError, Global};
use text_print::Printer;
use type_schema::{ModelNo, Right, TScript, Target};

/// The word of a right.
fn right_word(right: Right) -> &'static [u8]
    ensures { result.now ≡ right_text right }
{
    match right {
        Right::Read => b"read",
        Right::Write => b"write",
        Right::Create => b"create",
        Right::Delete => b"delete",
    }
}

/// Writes what a right is on, as it is named after so many commands.
fn write_target(
    out: &mut Printer,
    alloc: Global,
    t: &TScript,
    k: u32,
    target: Target,
) -> Result<(), AllocError>
    ensures { OnOk result (out.new ≡ out.old ++ target_text (script_of t.now) k target) }
{
    match target {
        Target::Field(m, f) => {
            out.put(b"field ")?;
            write_model(out, alloc, t, m)?;
            out.put(b".")?;
            write_field(out, t, k, m, f)?;
            Ok(())
        }
        Target::Model(m) => {
            out.put(b"model ")?;
            write_model(out, alloc, t, m)?;
            Ok(())
        }
    }
}

/// Writes what a right is on by its name alone.
fn write_target_name(
    out: &mut Printer,
    alloc: Global,
    t: &TScript,
    k: u32,
    target: Target,
) -> Result<(), AllocError>
    ensures { OnOk result (out.new ≡ out.old ++ target_name (script_of t.now) k target) }
{
    match target {
        Target::Field(m, f) => {
            write_model(out, alloc, t, m)?;
            out.put(b".")?;
            write_field(out, t, k, m, f)?;
            Ok(())
        }
        Target::Model(m) => {
            write_model(out, alloc, t, m)?;
            Ok(())
        }
    }
}

/// What a right is on, as it is named after so many commands: `M.f` for a field, `M` for a model.
pub fn print_target(
    alloc: Global,
    t: &TScript,
    k: u32,
    target: Target,
) -> Result<Vec<u8>, AllocError>
    ensures { IfOk result (λ text. text.items ≡ target_name (script_of t.now) k target) }
{
    let mut out = Printer::new(alloc);
    write_target_name(&mut out, alloc, t, k, target)?;
    Ok(out.into_bytes())
}

/// Writes a right on a target, at a command.
pub(crate) fn write_access(
    out: &mut Printer,
    alloc: Global,
    t: &TScript,
    k: u32,
    target: Target,
    right: Right,
) -> Result<(), AllocError>
    ensures { OnOk result (out.new
        ≡ out.old ++ access_text (script_of t.now) k target right) }
{
    out.put(b"command ")?;
    write_decimal(out, alloc, u64::from(k))?;
    out.put(b" ")?;
    write_target(out, alloc, t, k, target)?;
    out.put(b" right ")?;
    out.put(right_word(right))?;
    Ok(())
}

/// Writes a record by its model and its id.
pub(crate) fn write_record(
    out: &mut Printer,
    alloc: Global,
    t: &TScript,
    m: ModelNo,
    id: u64,
) -> Result<(), AllocError>
    ensures { OnOk result (out.new ≡ out.old ++ record_name (script_of t.now) m id) }
{
    write_model(out, alloc, t, m)?;
    out.put(b" ")?;
    write_id(out, alloc, id)?;
    Ok(())
}

/// Writes a principal.
pub(crate) fn write_principal(
    out: &mut Printer,
    alloc: Global,
    t: &TScript,
    who: Principal,
) -> Result<(), AllocError>
    ensures { OnOk result (out.new ≡ out.old ++ principal_text (script_of t.now) who) }
{
    match who {
        Principal::Static(n) => write_static(out, alloc, t, n),
        Principal::Rec(m, id) => write_record(out, alloc, t, m, id),
    }
}
