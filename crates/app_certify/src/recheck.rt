//! `recheck SPEC SCRIPT CERT`.

ghost use Rattle.std.specs.Prelude.{◌≡◌, ◌≢◌};
ghost use Rattle.app_certify.specs.Ends.{IsPut};
ghost use Rattle.app_certify.specs.Run.{IsRecheckRun};
ghost use Rattle.app_files.specs.Ends.{IsSilent};
ghost use Rattle.app_files.specs.Words.{names_of};
ghost use Rattle.app_flow.specs.Outside.{IsWritten};

use crate::answer::CertifyAnswer;
use crate::certificate::recheck_files;
use crate::report::certify_report_of;
use app_files::{Status, Stop, put_report};
use app_flow::{Shelf, Sink};
use std::alloc::Global;
use text_ast::Txt;

/// Puts the report of the answer into `out`.
fn put_answer<W: Sink>(alloc: Global, answer: &CertifyAnswer, out: &mut W) -> Status
    ensures put { IsPut answer.now (W.told out.old) (W.told out.new) result }
    ensures out { IsWritten W.faults out.old out.new (IsSilent result) (result
        ≡ Status.WriteFault) }
    ensures not_read { result ≢ Status.ReadFault }
{
    let Ok(report) = certify_report_of(alloc, answer) else {
        return Status::OutOfMemory;
    };
    put_report(report.as_slice(), answer.status(), out)
}

/// Checks the third file as a certificate of the script in the second over the specification in the
/// first, and writes what it finds.
pub(crate) fn run_recheck<F: Shelf, W: Sink>(
    alloc: Global,
    spec: &Txt,
    script: &Txt,
    cert: &Txt,
    shelf: &mut F,
    out: &mut W,
) -> Status
    ensures { IsRecheckRun F.told F.calls F.faults W.told W.faults (names_of spec.now script.now)
        cert.now shelf.old shelf.new out.old out.new result }
{
    match recheck_files(alloc, shelf, spec, script, cert) {
        Ok(checked) => put_answer(alloc, &CertifyAnswer::Checked(checked), out),
        Err(Stop::Refused(refusal)) => put_answer(alloc, &CertifyAnswer::Refused(refusal), out),
        Err(Stop::ReadFault) => Status::ReadFault,
        Err(Stop::OutOfMemory) => Status::OutOfMemory,
    }
}
