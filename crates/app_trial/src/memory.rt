//! The program over objects in memory.

use crate::program::run_over_input;
use app_files::Status;
use app_flow::{MemFile, MemShelf, MemSink};
use door_lines::MemSource;
use std::alloc::{AllocError, Global};
use store_keeper::{Keeper, SureKeeper};
use text_ast::Txt;

/// How many bytes the output holds at most.
const OUTPUT_BYTES: usize = 262_144;

/// How many bytes the output takes at one put.
const PUT_BYTES: usize = 7;

/// How many bytes the input gives at once.
const TAKE_BYTES: usize = 5;

/// A file in memory: its name and its text.
#[derive(Clone, Copy)]
pub struct File<'t> {
    /// The name.
    pub name: &'t str,
    /// The bytes.
    pub text: &'t [u8],
}

/// How a run ended.
#[derive(Drop)]
pub struct Ended {
    /// Its status.
    pub status: Status,
    /// What it wrote.
    pub output: Vec<u8>,
    /// How often it fetched a file.
    pub fetches: u64,
}

/// Which calls of the shelf and of the output fail, by their numbers from 0.
#[derive(Clone, Copy)]
pub struct Failing<'t> {
    /// The fetches.
    pub fetches: &'t [u64],
    /// The puts.
    pub puts: &'t [u64],
}

/// An input: its bytes, and which calls of it fail.
#[derive(Clone, Copy)]
pub struct Input<'t> {
    /// The bytes.
    pub text: &'t [u8],
    /// The calls that take bytes.
    pub takes: &'t [u64],
}

/// The texts as words. One that is no word is left out.
pub fn words_of(alloc: Global, texts: &[&str]) -> Result<Vec<Txt>, AllocError> {
    let mut words = Vec::new(alloc);
    for text in texts {
        if let Some(word) = Txt::make(Vec::from_slice(alloc, text.as_bytes())?) {
            words.push(word).map_err(AllocError::from)?;
        }
    }
    Ok(words)
}

/// A shelf with the files, whose fetches of these numbers fail.
fn shelf_of(alloc: Global, files: &[File<'_>], failing: &[u64]) -> Result<MemShelf, AllocError> {
    let mut kept = Vec::new(alloc);
    for file in files {
        let name = Vec::from_slice(alloc, file.name.as_bytes())?;
        let text = Vec::from_slice(alloc, file.text)?;
        kept.push(MemFile::new(name, text))
            .map_err(AllocError::from)?;
    }
    Ok(MemShelf::new(alloc, kept, Vec::from_slice(alloc, failing)?))
}

/// Runs the words over the files, the input and the store, with an output that takes at most seven
/// bytes at once. The calls of these numbers, from 0, fail.
pub fn run_with_input<K: Keeper>(
    alloc: Global,
    words: &[&str],
    files: &[File<'_>],
    input: Input<'_>,
    store: &mut K,
    failing: Failing<'_>,
) -> Result<Ended, AllocError> {
    let words = words_of(alloc, words)?;
    let mut shelf = shelf_of(alloc, files, failing.fetches)?;
    let mut input = MemSource::new(
        Vec::from_slice(alloc, input.text)?,
        TAKE_BYTES,
        Vec::from_slice(alloc, input.takes)?,
    );
    let mut out = MemSink::new(
        alloc,
        OUTPUT_BYTES,
        PUT_BYTES,
        Vec::from_slice(alloc, failing.puts)?,
    )?;
    let words = words.as_slice();
    let status = run_over_input(alloc, words, &mut shelf, &mut input, store, &mut out);
    Ok(Ended {
        status,
        output: Vec::from_slice(alloc, out.bytes())?,
        fetches: shelf.fetches(),
    })
}

/// Runs the words over the files and the store, without an input. The fetches and the puts of these
/// numbers, from 0, fail.
pub fn run_over_store<K: Keeper>(
    alloc: Global,
    words: &[&str],
    files: &[File<'_>],
    store: &mut K,
    failing: Failing<'_>,
) -> Result<Ended, AllocError> {
    let input = Input {
        text: b"",
        takes: &[],
    };
    run_with_input(alloc, words, files, input, store, failing)
}

/// Runs the words over the files, with a store that holds nothing. The fetches and the puts of
/// these numbers, from 0, fail.
pub fn run_failing(
    alloc: Global,
    words: &[&str],
    files: &[File<'_>],
    fetches: &[u64],
    puts: &[u64],
) -> Result<Ended, AllocError> {
    let mut store = SureKeeper::new(alloc, None);
    run_over_store(alloc, words, files, &mut store, Failing { fetches, puts })
}

/// Runs the words over the files, and no call fails.
pub fn run_over(alloc: Global, words: &[&str], files: &[File<'_>]) -> Result<Ended, AllocError> {
    run_failing(alloc, words, files, &[], &[])
}

/// Checks the script, under the name `s.scm`, over the specification, under the name `n.spec`.
pub fn check_texts(alloc: Global, spec: &[u8], script: &[u8]) -> Result<Ended, AllocError> {
    let files = [
        File {
            name: "n.spec",
            text: spec,
        },
        File {
            name: "s.scm",
            text: script,
        },
    ];
    run_over(alloc, &["check", "n.spec", "s.scm"], &files)
}
