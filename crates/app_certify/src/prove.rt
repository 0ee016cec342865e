//! `prove SPEC SCRIPT`.

ghost use Rattle.std.specs.Prelude.{◌≡◌, ◌≢◌};
ghost use Rattle.app_certify.specs.Proved as proved;
ghost use Rattle.app_certify.specs.Proved.{IsProof, IsReportedAs};
ghost use Rattle.app_certify.specs.Run.{IsProveRun};
ghost use Rattle.app_files.specs.Answer.{IsChecked};
ghost use Rattle.app_files.specs.Ends.{IsPut, IsSilent};
ghost use Rattle.app_files.specs.Words.{names_of};
ghost use Rattle.app_flow.specs.Outside.{IsWritten};
ghost use Rattle.certify_proving.specs.Limits.{AreWithinLimits};
ghost use Rattle.type_schema.specs.SchemaViews.{script_of};
ghost use Rattle.type_schema.specs.Script.{IsScript};

use crate::formulas::DutyFormulas;
use app_files::{Answer, Checked, Names, Status, Stop, check_files, put_report, report_of};
use app_flow::{Shelf, Sink};
use certify_proving::{ProveErr, prove_script};
use check_scripts::Outcome;
use std::alloc::Global;
use text_ast::Txt;
use type_schema::TScript;

/// How a run ends that writes no certificate to its end. Where some assignment is lawful for the
/// clauses of an obligation that was cleared, which is not known to be impossible, it is as for want
/// of memory.
fn fault_status(err: ProveErr) -> Status
    ensures { result ≡ proved.fault_status err }
{
    match err {
        ProveErr::WriteFault => Status::WriteFault,
        ProveErr::NotRefuted(_) | ProveErr::OutOfMemory => Status::OutOfMemory,
    }
}

/// Writes the certificate of an accepted script.
fn put_certificate<W: Sink>(alloc: Global, t: &TScript, out: &mut W) -> Status
    requires script { IsScript (script_of t.now) }
    requires within { AreWithinLimits (script_of t.now) }
    ensures proof { IsProof (script_of t.now) (W.told out.old) (W.told out.new) result }
    ensures out { IsWritten W.faults out.old out.new (result ≡ Status.ReadFault) (result
        ≡ Status.WriteFault) }
    ensures not_read { result ≢ Status.ReadFault }
{
    match prove_script(alloc, &DutyFormulas, t, out) {
        Ok(()) => Status::Done,
        Err(err) => fault_status(err),
    }
}

/// Puts the report of an answer into `out`.
fn put_answer<W: Sink>(alloc: Global, answer: &Answer, out: &mut W) -> Status
    ensures put { IsPut answer.now (W.told out.old) (W.told out.new) result }
    ensures out { IsWritten W.faults out.old out.new (IsSilent result) (result
        ≡ Status.WriteFault) }
    ensures not_read { result ≢ Status.ReadFault }
{
    let Ok(report) = report_of(alloc, answer) else {
        return Status::OutOfMemory;
    };
    put_report(report.as_slice(), answer.status(), out)
}

/// Writes the certificate of a script that is accepted, or the report on one that is not.
fn put_checked<W: Sink>(alloc: Global, checked: Checked, out: &mut W) -> Status
    requires { IsChecked (script_of checked.script) checked }
    ensures put { IsReportedAs checked (W.told out.old) (W.told out.new) result }
    ensures out { IsWritten W.faults out.old out.new (result ≡ Status.ReadFault) (result
        ≡ Status.WriteFault) }
    ensures not_read { result ≢ Status.ReadFault }
{
    let Outcome::Accepted { .. } = checked.outcome else {
        return put_answer(alloc, &Answer::Checked(checked), out);
    };
    put_certificate(alloc, &checked.script, out)
}

/// Checks the script in the second file over the specification in the first, and writes its
/// certificate where it is accepted, or what was found.
pub(crate) fn run_prove<F: Shelf, W: Sink>(
    alloc: Global,
    spec: &Txt,
    script: &Txt,
    shelf: &mut F,
    out: &mut W,
) -> Status
    ensures { IsProveRun F.told F.calls F.faults W.told W.faults (names_of spec.now script.now)
        shelf.old shelf.new out.old out.new result }
{
    match check_files(alloc, shelf, Names { spec, script }) {
        Ok(checked) => put_checked(alloc, checked, out),
        Err(Stop::Refused(refusal)) => put_answer(alloc, &Answer::Refused(refusal), out),
        Err(Stop::ReadFault) => Status::ReadFault,
        Err(Stop::OutOfMemory) => Status::OutOfMemory,
    }
}
