//! Sessions of `serve` over stores in memory. Each command of `data/commands` is carried out, and
//! what it comes to is printed: of a session each line with its reply below it. `stdout` is what is
//! right.
//!
//! | module | holds |
//! |---|---|
//! | `lines` | the input that lines stand for |
//! | `transcript` | lines with their replies |
//! | `many` | a database with many records |
#![tactic(auto)]

mod lines;
mod many;
mod transcript;

use app_flow::{CurrentFolder, DirShelf, MemSink};
use app_trial::{run_over_input, words_of};
use door_lines::MemSource;
use lines::input_of;
use many::write_many;
use std::{fs, io};
use store_keeper::SureKeeper;
use transcript::print_transcript;

/// How many bytes the output holds at most.
const OUTPUT_BYTES: usize = 262_144;

/// How many bytes the output takes at one put.
const PUT_BYTES: usize = 7;

/// How many bytes the input gives at once.
const TAKE_BYTES: usize = 5;

/// Runs the words over the files of the folder, the lines and the store, and prints what comes of
/// it.
fn run_words(
    rt: &HostRuntime,
    words: &[&str],
    lines: &str,
    store: &mut SureKeeper,
) -> io::Result<()> {
    let alloc = rt.alloc();
    let words = words_of(alloc, words)?;
    let mut shelf = DirShelf::new(CurrentFolder(rt));
    let mut input = MemSource::new(input_of(alloc, lines)?, TAKE_BYTES, Vec::new(alloc));
    let mut out = MemSink::new(alloc, OUTPUT_BYTES, PUT_BYTES, Vec::new(alloc))?;
    let words = words.as_slice();
    let status = run_over_input(alloc, words, &mut shelf, &mut input, store, &mut out);
    print_transcript(rt, lines, out.bytes())?;
    println!(rt; "status {}", status.code())
}

/// Serves the lines of the file.
fn serve_file(rt: &HostRuntime, name: &str, store: &mut SureKeeper) -> io::Result<()> {
    let lines = fs::read_to_string(rt, name)?;
    run_words(rt, &["serve"], lines.as_str(), store)
}

/// Runs the words of the command.
fn run_command(rt: &HostRuntime, command: &str, store: &mut SureKeeper) -> io::Result<()> {
    let mut words = Vec::new(rt.alloc());
    for word in command.split(' ') {
        words.push(word)?;
    }
    run_words(rt, words.as_slice(), "", store)
}

/// Carries the command out: `serve FILE` with the lines of the file, and any other one as it is.
fn carry_out(rt: &HostRuntime, command: &str, store: &mut SureKeeper) -> io::Result<()> {
    println!(rt; "$ {command}")?;
    match command.strip_prefix("serve ") {
        Some(name) => serve_file(rt, name, store),
        None => run_command(rt, command, store),
    }
}

fn main(rt: HostRuntime) -> io::Result<()> {
    fs::write(&rt, "long.scm", " ".repeat(rt.alloc(), 1_048_577)?.as_str())?;
    write_many(&rt, "many.txt", 20_000, i64::MAX as u64)?;
    write_many(&rt, "some.txt", 2_048, 2_049)?;
    let commands = fs::read_to_string(&rt, "commands")?;
    let mut store = SureKeeper::new(rt.alloc(), None);
    for command in commands.as_str().split('\n') {
        if command.starts_with("init") {
            store = SureKeeper::new(rt.alloc(), None);
        }
        if !command.is_empty() {
            carry_out(&rt, command, &mut store)?;
        }
    }
    Ok(())
}
