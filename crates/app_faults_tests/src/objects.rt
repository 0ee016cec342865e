//! A run over objects in memory, of which a call fails.

use app_flow::{MemFile, MemShelf, MemSink};
use app_trial::{run_over_input, words_of};
use door_lines::MemSource;
use std::alloc::{AllocError, Global};
use store_keeper::MemKeeper;

/// How many bytes the output holds at most.
const OUTPUT_BYTES: usize = 65_536;

/// A file in memory.
#[derive(Drop)]
pub(crate) struct Kept {
    pub(crate) name: Vec<u8>,
    pub(crate) bytes: Vec<u8>,
}

/// The files, and the lines of the input.
#[derive(Clone, Copy)]
pub(crate) struct World<'f> {
    pub(crate) files: &'f [Kept],
    pub(crate) lines: &'f [u8],
}

/// Whose call fails.
#[derive(Clone, Copy, PartialEq, Eq)]
pub(crate) enum Object {
    /// No call fails.
    Nothing,
    Shelf,
    Input,
    Store,
    Output,
}

/// The call that fails: whose, and its number from 0.
#[derive(Clone, Copy)]
pub(crate) struct Fault {
    pub(crate) object: Object,
    pub(crate) number: u64,
}

/// No call fails.
pub(crate) const NO_FAULT: Fault = Fault {
    object: Object::Nothing,
    number: 0,
};

/// How a run ended, and what it put out.
#[derive(Drop)]
pub(crate) struct Ended {
    pub(crate) status: u8,
    pub(crate) output: Vec<u8>,
}

/// The numbers of the calls of the object that fail.
pub(crate) fn failing(alloc: Global, object: Object, fault: Fault) -> Result<Vec<u64>, AllocError> {
    let mut numbers = Vec::new(alloc);
    if object == fault.object {
        numbers.push(fault.number)?;
    }
    Ok(numbers)
}

/// A shelf with the files.
fn shelf_of(alloc: Global, files: &[Kept], fault: Fault) -> Result<MemShelf, AllocError> {
    let mut copies = Vec::new(alloc);
    for file in files {
        let name = Vec::from_slice(alloc, file.name.as_slice())?;
        let bytes = Vec::from_slice(alloc, file.bytes.as_slice())?;
        copies.push(MemFile::new(name, bytes))?;
    }
    let fetches = failing(alloc, Object::Shelf, fault)?;
    Ok(MemShelf::new(alloc, copies, fetches))
}

/// An input with the lines, which gives a byte at once.
fn input_of(alloc: Global, lines: &[u8], fault: Fault) -> Result<MemSource, AllocError> {
    let bytes = Vec::from_slice(alloc, lines)?;
    let takes = failing(alloc, Object::Input, fault)?;
    Ok(MemSource::new(bytes, 1, takes))
}

/// An output that takes a byte at once.
fn output_of(alloc: Global, fault: Fault) -> Result<MemSink, AllocError> {
    let puts = failing(alloc, Object::Output, fault)?;
    MemSink::new(alloc, OUTPUT_BYTES, 1, puts)
}

/// What the words come to over the store.
pub(crate) fn run_words(
    alloc: Global,
    world: World<'_>,
    words: &[&str],
    store: &mut MemKeeper,
    fault: Fault,
) -> Result<Ended, AllocError> {
    let words = words_of(alloc, words)?;
    let mut shelf = shelf_of(alloc, world.files, fault)?;
    let mut input = input_of(alloc, world.lines, fault)?;
    let mut out = output_of(alloc, fault)?;
    let words = words.as_slice();
    let status = run_over_input(alloc, words, &mut shelf, &mut input, store, &mut out);
    let output = Vec::from_slice(alloc, out.bytes())?;
    let status = status.code();
    Ok(Ended { status, output })
}
