//! The program, to its exit status.

ghost use Rattle.std.specs.Prelude.{◌≡◌};
ghost use Rattle.std.specs.Process.{exit_status};
ghost use Rattle.app_run.specs.Run.{IsRun};
ghost use Rattle.app_files.specs.Status.{code_of};
ghost use Rattle.app_files.specs.declared.status.Status.{Status};

use crate::arguments::{one_empty_word, words_of};
use app_files::Status;
use app_flow::{CurrentFolder, DirShelf, Shelf, Sink, StdSink};
use app_run::run;
use door_lines::{Source, StdSource};
use std::alloc::{AllocError, Global};
use std::io::ErrorKind;
use std::process::ExitCode;
use std::rt::Env;
use std::{env, io};
use store_file::FileKeeper;
use store_keeper::Keeper;
use text_ast::Txt;

/// The name of the store's file, in the current folder.
const STORE_NAME: &str = "scooter.db";

/// The words that `words_of` makes of the arguments after the program's name, as the environment
/// gives them.
///
/// Where an argument is not UTF-8 the environment gives none, and there is one empty word, as where
/// `words_of` meets an argument that is no text.
fn words_given(rt: &(impl Env + AllocGlobal)) -> Result<Vec<Txt>, AllocError> {
    let alloc = rt.alloc();
    match env::args(rt) {
        Ok(arguments) => words_of(alloc, arguments.skip(1).collect(alloc)?),
        Err(e) if e.kind() == ErrorKind::OutOfMemory => Err(AllocError),
        Err(_) => one_empty_word(alloc),
    }
}

/// Runs the words over the shelf, the input, the store and the output, and gives the exit status of
/// how the run ended.
pub fn run_to_exit<F: Shelf, S: Source, K: Keeper, W: Sink>(
    alloc: Global,
    words: &[Txt],
    shelf: &mut F,
    input: &mut S,
    store: &mut K,
    out: &mut W,
) -> ExitCode
    ensures { (status : Status) × (exit_status result ≡ code_of status)
        × IsRun F.told F.calls F.faults S.told S.faults K.told K.calls K.faults W.told W.faults
        words.now shelf.old shelf.new input.old input.new store.old store.new out.old out.new status }
{
    ExitCode::from(run(alloc, words, shelf, input, store, out))
}

/// Runs the words of the environment over the files of the current folder, the store in it, and the
/// standard input and output.
///
/// The store's file is opened by the first call of the store, and closed at the end. Where it cannot
/// be closed, the file and the log beside it hold together what was stored, so the status stays.
pub fn program(rt: &HostRuntime) -> ExitCode {
    let alloc = rt.alloc();
    let Ok(words) = words_given(rt) else {
        return ExitCode::from(Status::OutOfMemory);
    };
    let mut shelf = DirShelf::new(CurrentFolder(rt));
    let mut store = FileKeeper::new(rt, STORE_NAME);
    let mut out = StdSink::new(io::writer(rt));
    let mut input = StdSource::new(rt.reader());
    let code = run_to_exit(
        alloc,
        words.as_slice(),
        &mut shelf,
        &mut input,
        &mut store,
        &mut out,
    );
    let _closed = store.close();
    code
}
