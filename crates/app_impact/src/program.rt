//! The command as one call.

ghost use Rattle.std.specs.Prelude.{◌≡◌, ◌≢◌};
ghost use Rattle.app_files.specs.Ends.{IsSilent};
ghost use Rattle.app_files.specs.Words.{names_of};
ghost use Rattle.app_flow.specs.Outside.{IsWritten};
ghost use Rattle.app_impact.specs.Ends.{IsPut};
ghost use Rattle.app_impact.specs.Run.{IsImpactRun};

use crate::answer::ImpactAnswer;
use crate::effects::find_in_files;
use crate::report::impact_report_of;
use app_files::{Names, Status, Stop, put_report};
use app_flow::{Shelf, Sink};
use std::alloc::Global;

/// Puts the report of the answer into `out`.
fn put_answer<W: Sink>(alloc: Global, answer: &ImpactAnswer, out: &mut W) -> Status
    ensures put { IsPut answer.now (W.told out.old) (W.told out.new) result }
    ensures out { IsWritten W.faults out.old out.new (IsSilent result) (result
        ≡ Status.WriteFault) }
    ensures not_read { result ≢ Status.ReadFault }
{
    let Ok(report) = impact_report_of(alloc, answer) else {
        return Status::OutOfMemory;
    };
    put_report(report.as_slice(), answer.status(), out)
}

/// Says what each declared weakening of the script newly allows, over the specification: on a start
/// database a principal that the command newly allows the right, or that no start database, of any
/// size, has one, or that this could not be decided.
///
/// The files are taken from `shelf`, the report is put into `out`, and `Status` says what each
/// status means. The report is made whole before its first byte is put.
pub fn run_impact<F: Shelf, W: Sink>(
    alloc: Global,
    names: Names<'_>,
    shelf: &mut F,
    out: &mut W,
) -> Status
    ensures { IsImpactRun F.told F.calls F.faults W.told W.faults
        (names_of names.entry.spec.now names.entry.script.now)
        shelf.old shelf.new out.old out.new result }
{
    match find_in_files(alloc, shelf, names) {
        Ok(found) => put_answer(alloc, &ImpactAnswer::Found(found), out),
        Err(Stop::Refused(refusal)) => put_answer(alloc, &ImpactAnswer::Refused(refusal), out),
        Err(Stop::ReadFault) => Status::ReadFault,
        Err(Stop::OutOfMemory) => Status::OutOfMemory,
    }
}
