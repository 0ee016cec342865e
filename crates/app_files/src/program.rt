//! The commands over files as one call.

ghost use Rattle.std.specs.Prelude.{◌≡◌, ◌≢◌};
ghost use Rattle.app_flow.specs.Outside.{IsWritten};
ghost use Rattle.app_files.specs.Ends.{IsCutOff, IsPut, IsReported, IsSilent};
ghost use Rattle.app_files.specs.Run.{IsFilesRun};

use crate::answer::Answer;
use crate::check::answer_to;
use crate::report::report_of;
use crate::status::Status;
use crate::stop::Stop;
use app_flow::{Shelf, Sink, put_all};
use std::alloc::Global;
use text_ast::Txt;

/// Puts the report into `out`, and gives the status of how the run ends: as it was decided, or that
/// the output met a fault.
pub fn put_report<W: Sink>(report: &[u8], decided: Status, out: &mut W) -> Status
    requires { ¬ (IsCutOff decided) }
    ensures put { IsReported report.now decided (W.told out.old) (W.told out.new) result }
    ensures out { IsWritten W.faults out.old out.new (IsSilent result) (result
        ≡ Status.WriteFault) }
    ensures not_read { result ≢ Status.ReadFault }
    ensures not_kept { result ≢ Status.StoreFault }
    ensures memory { result ≢ Status.OutOfMemory }
{
    match put_all(out, report) {
        Ok(()) => decided,
        Err(_) => Status::WriteFault,
    }
}

/// Puts the report of the answer into `out`.
fn put_answer<W: Sink>(alloc: Global, answer: &Answer, out: &mut W) -> Status
    ensures put { IsPut answer.now (W.told out.old) (W.told out.new) result }
    ensures out { IsWritten W.faults out.old out.new (IsSilent result) (result
        ≡ Status.WriteFault) }
    ensures not_read { result ≢ Status.ReadFault }
{
    let Ok(report) = report_of(alloc, answer) else {
        return Status::OutOfMemory;
    };
    put_report(report.as_slice(), answer.status(), out)
}

/// Checks the script of the words against the specification of the words, and writes what it
/// finds: that no command gains anybody a right that it does not declare, on any database of any
/// size, or a witness of the first obligation that fails, or that this obligation could not be
/// decided.
///
/// `gen N` makes a specification of N fields, from 1 to 60, and two scripts that change the
/// policies of each, checks both, and writes a line on each. Other words get the usage line.
///
/// The words are those after the program's name. The files are taken from `shelf`, the report is
/// put into `out`, and `Status` says what each status means.
pub fn run_files<F: Shelf, W: Sink>(
    alloc: Global,
    words: &[Txt],
    shelf: &mut F,
    out: &mut W,
) -> Status
    ensures { IsFilesRun F.told F.calls F.faults W.told W.faults words.now
        shelf.old shelf.new out.old out.new result }
{
    match answer_to(alloc, words, shelf) {
        Ok(answer) => put_answer(alloc, &answer, out),
        Err(Stop::Refused(refusal)) => put_answer(alloc, &Answer::Refused(refusal), out),
        Err(Stop::ReadFault) => Status::ReadFault,
        Err(Stop::OutOfMemory) => Status::OutOfMemory,
    }
}
