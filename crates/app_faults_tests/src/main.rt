//! Commands over objects in memory, of which one call fails: the first, the second and so on, up to
//! the run in which none fails. Each line of `data/cases` names the object, what the store holds
//! before, and the command; what it comes to is printed wherever that changes. `stdout` is what is
//! right.
//!
//! | module | holds |
//! |---|---|
//! | `objects` | a run over objects in memory, of which a call fails |
//! | `cases` | a line of the table |
//! | `tries` | the calls of a case, each failing in turn |
//! | `found` | what a run came to |
#![tactic(auto)]

mod cases;
mod found;
mod objects;
mod tries;

use cases::case_of;
use objects::{Kept, World};
use std::{fs, io, str};
use tries::print_case;

/// The files whose names the text has, one a line.
fn kept_files(rt: &HostRuntime, names: &str) -> io::Result<Vec<Kept>> {
    let mut kept = Vec::new(rt.alloc());
    for name in names.split_terminator('\n') {
        let bytes = fs::read(rt, name)?;
        let name = Vec::from_slice(rt.alloc(), name.as_bytes())?;
        kept.push(Kept { name, bytes })?;
    }
    Ok(kept)
}

/// Prints each case, and keeps what the stores held.
fn print_cases(
    rt: &HostRuntime,
    world: World<'_>,
    cases: &str,
    seen: &mut Vec<Vec<u8>>,
) -> io::Result<()> {
    for line in cases.split_terminator('\n') {
        println!(rt; "$ {line}")?;
        let case = case_of(rt.alloc(), line)?;
        print_case(rt, world, &case, seen)?;
    }
    Ok(())
}

fn main(rt: HostRuntime) -> io::Result<()> {
    let names = fs::read_to_string(&rt, "files")?;
    let files = kept_files(&rt, names.as_str())?;
    let lines = fs::read(&rt, "session")?;
    let world = World {
        files: files.as_slice(),
        lines: lines.as_slice(),
    };
    let cases = fs::read_to_string(&rt, "cases")?;
    let mut seen = Vec::new(rt.alloc());
    print_cases(&rt, world, cases.as_str(), &mut seen)?;
    for (number, shown) in seen.as_slice().iter().enumerate() {
        println!(rt; "store {number}:")?;
        let shown = str::from_utf8(shown.as_slice()).unwrap_or("no text\n");
        print!(rt; "{shown}")?;
    }
    Ok(())
}
