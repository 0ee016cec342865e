//! The program over any shelf, input, store and sink.

use app_files::Status;
use app_flow::{Shelf, Sink};
use app_run::run;
use door_lines::{Source, SureSource};
use std::alloc::Global;
use store_keeper::Keeper;
use text_ast::Txt;

/// Runs the words over the shelf, the input, the store and the sink, as `run` does.
pub fn run_over_input<F: Shelf, S: Source, K: Keeper, W: Sink>(
    alloc: Global,
    words: &[Txt],
    shelf: &mut F,
    input: &mut S,
    store: &mut K,
    out: &mut W,
) -> Status {
    run(alloc, words, shelf, input, store, out)
}

/// Runs the words over the shelf, the store and the sink, with an input without a byte.
pub fn run_over_objects<F: Shelf, K: Keeper, W: Sink>(
    alloc: Global,
    words: &[Txt],
    shelf: &mut F,
    store: &mut K,
    out: &mut W,
) -> Status {
    let mut input = SureSource::new(Vec::new(alloc));
    run(alloc, words, shelf, &mut input, store, out)
}
