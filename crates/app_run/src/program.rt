//! The program as one call.

ghost use Rattle.app_run.specs.Run.{IsRun};

use app_certify::{certify_command_of, run_certify};
use app_files::{Status, run_files};
use app_flow::{Shelf, Sink};
use app_impact::{impact_of, run_impact};
use app_serve::{is_serve, run_serve};
use app_store::{run_store, store_command_of};
use door_lines::Source;
use std::alloc::Global;
use store_keeper::Keeper;
use text_ast::Txt;

/// Carries out the command that the words are: one over the store (`init`, `check SCRIPT`, `apply`,
/// `show`), `serve`, one on certificates (`prove`, `recheck`), `impact`, or another one over files
/// alone (`check SPEC SCRIPT`, `gen N`). Other words get the usage line.
///
/// The words are those after the program's name. The files are taken from `shelf`, the lines of
/// `serve` from `input`, what is stored from `store`, which commands over files alone do not call;
/// the report and the replies are put into `out`, and `Status` says what each status means.
pub fn run<F: Shelf, S: Source, K: Keeper, W: Sink>(
    alloc: Global,
    words: &[Txt],
    shelf: &mut F,
    input: &mut S,
    store: &mut K,
    out: &mut W,
) -> Status
    ensures { IsRun F.told F.calls F.faults S.told S.faults K.told K.calls K.faults W.told W.faults
        words.now shelf.old shelf.new input.old input.new store.old store.new out.old out.new result }
{
    if let Some(command) = store_command_of(words) {
        return run_store(alloc, command, shelf, store, out);
    }
    if is_serve(words) {
        return run_serve(alloc, shelf, input, store, out);
    }
    if let Some(command) = certify_command_of(words) {
        return run_certify(alloc, command, shelf, out);
    }
    match impact_of(words) {
        Some(names) => run_impact(alloc, names, shelf, out),
        None => run_files(alloc, words, shelf, out),
    }
}
