//! The program over objects that never fail.

ghost use Rattle.std.specs.Prelude.{◌≡◌, ◌≢◌, Some};
ghost use Rattle.std.specs.Option.{option_map};
ghost use Rattle.app_flow.specs.Shelves.{files_of};
ghost use Rattle.app_run.specs.Run.{IsRun};
ghost use Rattle.store_keeper.specs.Stored.{stored_of};

use crate::program::run;
use app_files::Status;
use app_flow::{SureShelf, SureSink};
use door_lines::SureSource;
use std::alloc::Global;
use store_keeper::SureKeeper;
use text_ast::Txt;

/// Runs the program over objects that never fail. No fault is answered, so only for want of memory
/// is there no answer.
pub fn run_surely(
    alloc: Global,
    words: &[Txt],
    shelf: &mut SureShelf,
    input: &mut SureSource,
    store: &mut SureKeeper,
    out: &mut SureSink,
) -> Status
    ensures run { IsRun (λ s. Some (files_of s.files)) (λ s. s.calls) (λ _. 0) (λ i. Some i) (λ _. 0)
        (λ k. Some (option_map stored_of k.stored)) (λ k. k.calls) (λ _. 0) (λ w. w.told) (λ _. 0)
        words.now shelf.old shelf.new input.old input.new store.old store.new out.old out.new result }
    ensures no_read_fault { result ≢ Status.ReadFault }
    ensures no_store_fault { result ≢ Status.StoreFault }
    ensures no_write_fault { result ≢ Status.WriteFault }
{
    run(alloc, words, shelf, input, store, out)
}
