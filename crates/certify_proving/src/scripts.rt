//! A certificate, written.

ghost use Rattle.std.specs.Prelude.{◌≡◌, ◌≤◌, IfErr, OnOk};
ghost use Rattle.certify_proving.specs.Limits.{AreWithinLimits};
ghost use Rattle.certify_proving.specs.Proved.{IsFault, IsProved, IsProvedBy, IsFaultBy};
ghost use Rattle.duty_meaning.specs.Duties.{obligations_of};
ghost use Rattle.duty_meaning.specs.Over.{IsSignatureOf};
ghost use Rattle.duty_numbering.specs.Numbers.{numbers_of};
ghost use Rattle.type_schema.specs.SchemaViews.{schema_of, script_of};
ghost use Rattle.type_schema.specs.Script.{IsScript};

use crate::fault::ProveErr;
use crate::parts::write_parts;
use app_flow::{Sink, put_all};
use certify_scripts::{Formulas, Grounding};
use duty_listing::duties;
use duty_meaning::Duty;
use duty_numbering::{Numbering, signature_of};
use std::alloc::Global;
use type_schema::TScript;

/// The first line of a certificate.
const HEADING: &[u8] = b"certificate 1\n";

/// The last line of a certificate.
const ENDING: &[u8] = b"end\n";

/// Writes the certificate of obligations.
fn write_all<F: Formulas, W: Sink>(
    alloc: Global,
    grounding: &Grounding<'_, F>,
    duties: &[Duty],
    out: &mut W,
) -> Result<(), ProveErr>
    requires script { IsScript (script_of grounding.now.script.now) }
    requires numbered { grounding.now.numbering.now ≡ numbers_of
        (schema_of grounding.now.script.now.start) }
    requires signature { IsSignatureOf (script_of grounding.now.script.now).start
        grounding.now.signature.now }
    requires within { AreWithinLimits (script_of grounding.now.script.now) }
    requires listed { duties.now ≡ obligations_of (script_of grounding.now.script.now) }
    ensures ok { OnOk result (IsProvedBy (script_of grounding.now.script.now)
        grounding.now.signature.now (W.told out.old) (W.told out.new)) }
    ensures err { IfErr result (IsFaultBy (script_of grounding.now.script.now)
        grounding.now.signature.now W.told W.faults out.old out.new) }
    ensures never_falls { W.faults out.old ≤ W.faults out.new }
{
    put_all(out, HEADING)?;
    write_parts(alloc, grounding, duties, out)?;
    put_all(out, ENDING)?;
    Ok(())
}

/// Writes the certificate of a script, whose start schema has these numbers and this signature.
fn proved_by<F: Formulas, W: Sink>(
    alloc: Global,
    grounding: &Grounding<'_, F>,
    out: &mut W,
) -> Result<(), ProveErr>
    requires script { IsScript (script_of grounding.now.script.now) }
    requires numbered { grounding.now.numbering.now ≡ numbers_of
        (schema_of grounding.now.script.now.start) }
    requires signature { IsSignatureOf (script_of grounding.now.script.now).start
        grounding.now.signature.now }
    requires within { AreWithinLimits (script_of grounding.now.script.now) }
    ensures ok { OnOk result (IsProved (script_of grounding.now.script.now) (W.told out.old)
        (W.told out.new)) }
    ensures err { IfErr result (IsFault (script_of grounding.now.script.now) W.told W.faults
        out.old out.new) }
    ensures never_falls { W.faults out.old ≤ W.faults out.new }
{
    let duties = duties(alloc, grounding.script)?;
    write_all(alloc, grounding, duties.as_slice(), out)
}

/// Writes the certificate of a script: a line `certificate 1`, then for each obligation in order,
/// from 1 on, a line `duty K` and a lawful tree over the clauses of its formula, and a line `end`.
///
/// The formulas are within the limits, as those of an accepted script are. Each part is made and
/// then written, so memory goes with the largest part and not with the certificate.
///
/// # Errors
///
/// - `NotRefuted`, where some assignment is lawful for the clauses of an obligation, so that there
///   is no part for it: those before it were written.
/// - `WriteFault`, only where the sink counted a fault: a front of a certificate was written, as
///   far as it was made.
/// - `OutOfMemory`: nothing, or the first line and the parts of some obligations.
pub fn prove_script<F: Formulas, W: Sink>(
    alloc: Global,
    formulas: &F,
    t: &TScript,
    out: &mut W,
) -> Result<(), ProveErr>
    requires script { IsScript (script_of t.now) }
    requires within { AreWithinLimits (script_of t.now) }
    ensures ok { OnOk result (IsProved (script_of t.now) (W.told out.old) (W.told out.new)) }
    ensures err { IfErr result (IsFault (script_of t.now) W.told W.faults out.old out.new) }
    ensures never_falls { W.faults out.old ≤ W.faults out.new }
{
    let numbering = Numbering::of(alloc, &t.start)?;
    let signature = signature_of(alloc, &t.start)?;
    let grounding = Grounding {
        formulas,
        script: t,
        numbering: &numbering,
        signature: &signature,
    };
    proved_by(alloc, &grounding, out)
}
