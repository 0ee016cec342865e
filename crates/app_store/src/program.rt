//! The commands over the store as one call.

ghost use Rattle.std.specs.Prelude.{◌≡◌, ◌≢◌, List, [], ◌∷◌, IfSome, MatchOption, None, Some};
ghost use Rattle.app_files.specs.Ends.{IsSilent};
ghost use Rattle.app_flow.specs.Outside.{IsWritten};
ghost use Rattle.app_store.specs.Answer.{stored_by};
ghost use Rattle.app_store.specs.Finished.{IsFinished, IsKeptAndPut};
ghost use Rattle.app_store.specs.Run.{IsStoreRun};
ghost use Rattle.app_store.specs.Seen.{command_seen};
ghost use Rattle.app_store.specs.Told.{IsKept};
ghost use Rattle.store_keeper.specs.Stored.{IsStored, stored_of};
ghost use Rattle.store_keeper.specs.declared.keeper.KeepCall.{KeepCall};
ghost use Rattle.store_keeper.specs.declared.keeper.KeepCall.TheVariants.{Replace};

use crate::answer::StoreAnswer;
use crate::report::store_report_of;
use crate::stages::answer_to_command;
use crate::stop::StoreStop;
use crate::words::StoreCommand;
use app_files::{Status, Stop, put_report};
use app_flow::{Shelf, Sink};
use std::alloc::Global;
use store_keeper::{KeepErr, Keeper, Stored};

/// Stores this, and then puts the report into `out`.
fn keep_and_put<K: Keeper, W: Sink>(
    alloc: Global,
    after: &Stored,
    report: &[u8],
    store: &mut K,
    out: &mut W,
) -> Status
    requires { IsStored (stored_of after.now) }
    ensures kept { IsKeptAndPut (K.told store.old) (K.told store.new) (stored_of after.now)
        report.now (W.told out.old) (W.told out.new) result }
    ensures store { IsKept K.calls K.faults store.old store.new (Replace ∷ []) (result
        ≡ Status.StoreFault) }
    ensures out { IsWritten W.faults out.old out.new (IsSilent result) (result
        ≡ Status.WriteFault) }
    ensures not_read { result ≢ Status.ReadFault }
{
    match store.replace(alloc, after) {
        Ok(()) => put_report(report, Status::Done, out),
        Err(KeepErr::Failed) => Status::StoreFault,
        Err(KeepErr::OutOfMemory) => Status::OutOfMemory,
    }
}

/// What the answer is to store.
fn to_store(answer: &StoreAnswer) -> Option<&Stored>
    ensures { MatchOption result (stored_by answer.now ≡ None)
        (λ after. stored_by answer.now ≡ Some (stored_of after.now)) }
{
    match answer {
        StoreAnswer::Initialised(after) => Some(after),
        StoreAnswer::Applied(_, after) => Some(after),
        StoreAnswer::Checked(_) => None,
        StoreAnswer::Shown(_) => None,
        StoreAnswer::FilesRefused(_) => None,
        StoreAnswer::Refused(_) => None,
    }
}

/// Makes the report of the answer, stores what is to be stored, and then puts the report into `out`.
fn finish<K: Keeper, W: Sink>(
    alloc: Global,
    answer: &StoreAnswer,
    store: &mut K,
    out: &mut W,
) -> Status
    requires { IfSome (stored_by answer.now) IsStored }
    ensures finished { (made : List KeepCall) × IsFinished answer.now (K.told store.old)
        (K.told store.new) made (W.told out.old) (W.told out.new) result
        × IsKept K.calls K.faults store.old store.new made (result ≡ Status.StoreFault) }
    ensures out { IsWritten W.faults out.old out.new (IsSilent result) (result
        ≡ Status.WriteFault) }
    ensures not_read { result ≢ Status.ReadFault }
{
    let Ok(report) = store_report_of(alloc, answer) else {
        return Status::OutOfMemory;
    };
    let report = report.as_slice();
    match to_store(answer) {
        Some(after) => keep_and_put(alloc, after, report, store, out),
        None => put_report(report, answer.status(), out),
    }
}

// An answer holds what is to be stored, which is long to drop by cases: so it is dropped here, and
// not in each arm of the one who calls this.
/// Finishes with an answer that is given away.
fn answered<K: Keeper, W: Sink>(
    alloc: Global,
    answer: StoreAnswer,
    store: &mut K,
    out: &mut W,
) -> Status
    requires { IfSome (stored_by answer) IsStored }
    ensures finished { (made : List KeepCall) × IsFinished answer (K.told store.old)
        (K.told store.new) made (W.told out.old) (W.told out.new) result
        × IsKept K.calls K.faults store.old store.new made (result ≡ Status.StoreFault) }
    ensures out { IsWritten W.faults out.old out.new (IsSilent result) (result
        ≡ Status.WriteFault) }
    ensures not_read { result ≢ Status.ReadFault }
{
    finish(alloc, &answer, store, out)
}

/// Carries out a command over the store.
///
/// `init SPEC` stores the specification, with a database without records; `init SPEC DATA` with
/// that of the data. `check SCRIPT` checks the script against what is stored. `apply SCRIPT` does so
/// too, and where the script is accepted it stores the migrated database under the next version,
/// and notes each right that the script weakens. `show` prints what is stored.
///
/// The files are taken from `shelf`, what is stored from `store`; the report is put into `out`, and
/// `Status` says what each status means. Where the run does not end as done, or with a fault of the
/// output, the store holds what it held.
pub fn run_store<F: Shelf, K: Keeper, W: Sink>(
    alloc: Global,
    command: StoreCommand<'_>,
    shelf: &mut F,
    store: &mut K,
    out: &mut W,
) -> Status
    ensures { IsStoreRun F.told F.calls F.faults K.told K.calls K.faults W.told W.faults
        (command_seen command.entry) shelf.old shelf.new store.old store.new out.old out.new result }
{
    match answer_to_command(alloc, command, shelf, store) {
        Ok(answer) => answered(alloc, answer, store, out),
        Err(StoreStop::Refused(why)) => answered(alloc, StoreAnswer::Refused(why), store, out),
        Err(StoreStop::Files(Stop::Refused(why))) => {
            answered(alloc, StoreAnswer::FilesRefused(why), store, out)
        }
        Err(StoreStop::Files(Stop::ReadFault)) => Status::ReadFault,
        Err(StoreStop::Files(Stop::OutOfMemory)) => Status::OutOfMemory,
        Err(StoreStop::StoreFault) => Status::StoreFault,
    }
}
