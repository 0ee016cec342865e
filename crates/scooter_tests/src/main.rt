//! Every command that README.md shows, run over the files of `examples/` and a store in memory, and
//! in `tests` the rows that cross crates: the program over objects in memory.
#![tactic(auto)]

#[cfg(test)]
mod tests;

use app_flow::{CurrentFolder, DirShelf, StdSink};
use app_trial::{run_over_input, words_of};
use door_lines::SureSource;
use std::io;
use store_keeper::SureKeeper;

/// The words of each command that README.md shows.
const COMMANDS: [&[&str]; 20] = [
    &["check", "notes.spec", "robots.scm"],
    &["check", "groups.spec", "minutes.scm"],
    &["check", "groups.spec", "minutes-mended.scm"],
    &["check", "groups.spec", "open-house.scm"],
    &["impact", "groups.spec", "open-house.scm"],
    &["check", "groups.spec", "digest.scm"],
    &["check", "clinic.spec", "slip.scm"],
    &["check", "groups.spec", "mistyped.scm"],
    &["check", "managers.spec", "managers.scm"],
    &["check", "wide.spec", "wide.scm"],
    &["check", "notes.spec", "readers.scm"],
    &["check", "app.spec", "app.scm"],
    &["check", "clinic.spec", "slip.scm", "more"],
    &["gen", "40"],
    &["init", "groups.spec", "groups.data"],
    &["check", "minutes-mended.scm"],
    &["apply", "minutes.scm"],
    &["apply", "open-house.scm"],
    &["show"],
    &["serve"],
];

/// The lines of the session that README.md shows.
const LINES: &[u8] = b"open ada as User @1
open ben as User @2
read ben Group @1 minutes
find ben Membership {user: @2, level > 1}
write ben Group @1 minutes \"We have no money.\"
write ada Group @1 minutes \"We have no money.\"
create ada Membership {user: @2, group: @2, level: 3}
delete ben Membership @3
migrate \"minutes-mended.scm\"
read ben Group @1 minutes
renew ben
read ben Group @1 minutes
";

/// Prints the command as somebody types it.
fn print_command(rt: &HostRuntime, command: &[&str]) -> io::Result<()> {
    print!(rt; "$ scooter")?;
    for word in command {
        print!(rt; " {word}")?;
    }
    println!(rt)
}

/// Runs the command over the files of the folder, the lines and the store, and prints its status.
fn answer(rt: &HostRuntime, command: &[&str], store: &mut SureKeeper) -> io::Result<()> {
    let alloc = rt.alloc();
    let words = words_of(alloc, command)?;
    let mut shelf = DirShelf::new(CurrentFolder(rt));
    let mut input = SureSource::new(Vec::from_slice(alloc, LINES)?);
    let mut out = StdSink::new(io::writer(rt));
    let words = words.as_slice();
    let status = run_over_input(alloc, words, &mut shelf, &mut input, store, &mut out);
    println!(rt; "status {}", status.code())
}

fn main(rt: HostRuntime) -> io::Result<()> {
    let mut store = SureKeeper::new(rt.alloc(), None);
    for command in COMMANDS {
        print_command(&rt, command)?;
        answer(&rt, command, &mut store)?;
    }
    Ok(())
}
