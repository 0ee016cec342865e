//! The parts of obligations, one after another.

ghost use Rattle.std.specs.Prelude.{◌≡◌, ◌+◌, ◌<◌, ◌≤◌, Contains, IfErr, IfOk, OnOk, length};
ghost use Rattle.certify_clauses.specs.InMemory.{problem_in};
ghost use Rattle.certify_making.specs.Open.{HasVarsBelow};
ghost use Rattle.certify_proving.specs.Limits.{AreWithinLimits};
ghost use Rattle.certify_proving.specs.Parts.{ArePartsWritten, IsFaultOver, IsPartFault, IsPartWritten, IsPartsFault};
ghost use Rattle.certify_making.specs.Faults.{IsWrittenPart};
ghost use Rattle.duty_meaning.specs.Duties.{obligations_of};
ghost use Rattle.duty_meaning.specs.Over.{IsSignatureOf};
ghost use Rattle.duty_numbering.specs.Numbers.{numbers_of};
ghost use Rattle.type_schema.specs.SchemaViews.{schema_of, script_of};
ghost use Rattle.type_schema.specs.Script.{IsScript};

use crate::fault::ProveErr;
use app_flow::Sink;
use certify_clauses::ListedClauses;
use certify_making::{CertErr, certify};
use certify_problem::Grounded;
use certify_scripts::{Formulas, Grounding};
use duty_meaning::Duty;
use std::alloc::{AllocError, Global};

/// No number of a certificate is larger.
const LAST_NUMBER: usize = 1_999_999_999;

/// Writes the part of an obligation over its clauses.
fn write_over<W: Sink>(
    alloc: Global,
    duty: Duty,
    number: u32,
    c: &ListedClauses,
    out: &mut W,
) -> Result<(), ProveErr>
    requires small { number < 2000000000 }
    requires below { HasVarsBelow (problem_in c.now) }
    ensures ok { OnOk result (IsWrittenPart (W.told out.old) (W.told out.new)
        (problem_in c.now) number) }
    ensures err { IfErr result (IsFaultOver W.told W.faults out.old out.new (problem_in c.now)
        number duty) }
    ensures never_falls { W.faults out.old ≤ W.faults out.new }
{
    match certify(alloc, number, c, out) {
        Ok(()) => Ok(()),
        Err(CertErr::NotRefuted) => Err(ProveErr::NotRefuted(duty)),
        Err(CertErr::WriteFault) => Err(ProveErr::WriteFault),
        Err(CertErr::OutOfMemory) => Err(ProveErr::OutOfMemory),
    }
}

/// Writes the part of an obligation.
fn write_part<F: Formulas, W: Sink>(
    alloc: Global,
    grounding: &Grounding<'_, F>,
    duty: Duty,
    number: u32,
    out: &mut W,
) -> Result<(), ProveErr>
    requires script { IsScript (script_of grounding.now.script.now) }
    requires numbered { grounding.now.numbering.now ≡ numbers_of
        (schema_of grounding.now.script.now.start) }
    requires signature { IsSignatureOf (script_of grounding.now.script.now).start
        grounding.now.signature.now }
    requires listed { Contains (obligations_of (script_of grounding.now.script.now)) duty }
    requires within { AreWithinLimits (script_of grounding.now.script.now) }
    requires small { number < 2000000000 }
    ensures ok { OnOk result (IsPartWritten (script_of grounding.now.script.now)
        grounding.now.signature.now duty number (W.told out.old) (W.told out.new)) }
    ensures err { IfErr result (IsPartFault (script_of grounding.now.script.now)
        grounding.now.signature.now duty number W.told W.faults out.old out.new) }
    ensures never_falls { W.faults out.old ≤ W.faults out.new }
{
    match grounding.grounded(alloc, duty)? {
        Grounded::Clauses(c) => write_over(alloc, duty, number, &c, out),
        Grounded::Cyclic(_) => unreachable!(),
        Grounded::TooLarge { .. } => unreachable!(),
    }
}

/// The number of the obligation at a place. Two thousand million count as memory that is not there.
fn number_at(place: usize) -> Result<u32, AllocError>
    ensures is { IfOk result (λ number. number ≡ place + 1) }
    ensures small { IfOk result (λ number. number < 2000000000) }
{
    if place >= LAST_NUMBER {
        return Err(AllocError);
    }
    Ok(place as u32 + 1)
}

/// Writes the parts of all obligations, one after another.
pub(crate) fn write_parts<F: Formulas, W: Sink>(
    alloc: Global,
    grounding: &Grounding<'_, F>,
    duties: &[Duty],
    out: &mut W,
) -> Result<(), ProveErr>
    requires script { IsScript (script_of grounding.now.script.now) }
    requires numbered { grounding.now.numbering.now ≡ numbers_of
        (schema_of grounding.now.script.now.start) }
    requires signature { IsSignatureOf (script_of grounding.now.script.now).start
        grounding.now.signature.now }
    requires within { AreWithinLimits (script_of grounding.now.script.now) }
    requires listed { duties.now ≡ obligations_of (script_of grounding.now.script.now) }
    ensures ok { OnOk result (ArePartsWritten (script_of grounding.now.script.now)
        grounding.now.signature.now (length duties.now) (W.told out.old) (W.told out.new)) }
    ensures err { IfErr result (IsPartsFault (script_of grounding.now.script.now)
        grounding.now.signature.now W.told W.faults out.old out.new) }
    ensures never_falls { W.faults out.old ≤ W.faults out.new }
{
    for place in 0..duties.len() {
        let number = number_at(place)?;
        write_part(alloc, grounding, duties[place], number, out)?;
    }
    Ok(())
}
