//! `serve` as one call.

ghost use Rattle.std.specs.Prelude.{◌≡◌, ◌≢◌, ◌⊎◌, List};
ghost use Rattle.app_files.specs.Ends.{IsReported, IsSilent};
ghost use Rattle.app_flow.specs.Outside.{IsWritten};
ghost use Rattle.app_serve.specs.Run.{IsServeRun, IsServed};
ghost use Rattle.app_store.specs.Answer.{store_refusal_status};
ghost use Rattle.app_store.specs.Headline.{IsHeld};
ghost use Rattle.app_store.specs.Report.{store_refusal_text};
ghost use Rattle.app_store.specs.Told.{IsKept};
ghost use Rattle.store_keeper.specs.Stored.{stored_of};
ghost use Rattle.store_keeper.specs.declared.keeper.KeepCall.{KeepCall};

use crate::service::Service;
use app_files::{Status, Stop, put_report};
use app_flow::{Shelf, Sink};
use app_store::{StoreAnswer, StoreRefusal, StoreStop, ask_held, store_report_of};
use door_lines::Source;
use std::alloc::Global;
use store_keeper::{Keeper, Stored};

/// Puts the report of the refusal into `out`.
fn refuse<W: Sink>(alloc: Global, refusal: StoreRefusal, out: &mut W) -> Status
    ensures told { IsReported (store_refusal_text refusal) (store_refusal_status refusal)
        (W.told out.old) (W.told out.new) result ⊎ (result ≡ Status.OutOfMemory) }
    ensures out { IsWritten W.faults out.old out.new (IsSilent result) (result
        ≡ Status.WriteFault) }
    ensures not_kept { result ≢ Status.StoreFault }
{
    let answer = StoreAnswer::Refused(refusal);
    let Ok(report) = store_report_of(alloc, &answer) else {
        return Status::OutOfMemory;
    };
    put_report(report.as_slice(), answer.status(), out)
}

/// Answers the lines of the input over what is stored.
fn serve_over<F: Shelf, S: Source, K: Keeper, W: Sink>(
    alloc: Global,
    stored: Stored,
    shelf: &mut F,
    input: &mut S,
    store: &mut K,
    out: &mut W,
) -> Status
    requires { IsHeld (K.told store.old) (stored_of stored) }
    ensures served { IsServed F.told F.calls F.faults S.told S.faults K.told K.calls K.faults
        W.told W.faults shelf.old shelf.new input.old input.new store.old store.new out.old out.new
        result (stored_of stored) }
    ensures store { (made : List KeepCall)
        × IsKept K.calls K.faults store.old store.new made (result ≡ Status.StoreFault) }
{
    let Ok(mut service) = Service::new(alloc, stored) else {
        return Status::OutOfMemory;
    };
    match service.serve(alloc, shelf, input, store, out) {
        Ok(()) => Status::Done,
        Err(err) => Status::from(err),
    }
}

/// Answers the lines of `input`, each by a reply that is put into `out` before the next one is read.
///
/// Lines open and close sessions of principals, read, find, write, create and delete records under
/// the policies in force, and migrate. The files of migrations are taken from `shelf`, what is stored
/// from `store`, which holds after each reply what the door does. `Status` says what each status
/// means.
pub fn run_serve<F: Shelf, S: Source, K: Keeper, W: Sink>(
    alloc: Global,
    shelf: &mut F,
    input: &mut S,
    store: &mut K,
    out: &mut W,
) -> Status
    ensures { IsServeRun F.told F.calls F.faults S.told S.faults K.told K.calls K.faults
        W.told W.faults shelf.old shelf.new input.old input.new store.old store.new
        out.old out.new result }
{
    match ask_held(alloc, store) {
        Ok(stored) => serve_over(alloc, stored, shelf, input, store, out),
        Err(StoreStop::Refused(refusal)) => refuse(alloc, refusal, out),
        Err(StoreStop::Files(Stop::Refused(_))) => unreachable!(),
        Err(StoreStop::Files(Stop::ReadFault)) => Status::ReadFault,
        Err(StoreStop::Files(Stop::OutOfMemory)) => Status::OutOfMemory,
        Err(StoreStop::StoreFault) => Status::StoreFault,
    }
}
