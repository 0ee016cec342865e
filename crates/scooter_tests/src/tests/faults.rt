//! The order of refusals, and faults of the shelf and the output.

use app_files::Status;
use app_trial::{Ended, File, run_failing};
use std::alloc::Global;
use std::test::Fail;

const FILES: [File<'static>; 8] = [
    File {
        name: "n.spec",
        text: b"model Note {create: none, delete: none, body: Text {read: none, write: none}}",
    },
    File {
        name: "twice.spec",
        text: b"static Visitor static Visitor",
    },
    File {
        name: "u.spec",
        text: b"principal model User {create: none, delete: none}",
    },
    File {
        name: "cut.spec",
        text: b"model",
    },
    File {
        name: "s.scm",
        text: b"",
    },
    File {
        name: "slip.scm",
        text: b"AddStatic(A) =",
    },
    File {
        name: "u.scm",
        text: b"DeleteModel(Note)",
    },
    File {
        name: "twice.scm",
        text: b"AddStatic(A) AddStatic(A)",
    },
];

const USAGE: &[u8] =
    b"usage: init SPEC [DATA], check [SPEC] SCRIPT, apply SCRIPT, show, serve, gen N, prove SPEC SCRIPT, recheck SPEC SCRIPT CERT, impact SPEC SCRIPT\n";

/// What the first words do over the files, where the calls of these numbers fail.
struct Row {
    words: &'static [&'static str],
    fetches: &'static [u64],
    puts: &'static [u64],
    /// The status, what is written, and how many files were fetched.
    status: Status,
    output: &'static [u8],
    fetched: u64,
}

fn ends_so(alloc: Global, row: &Row) -> Result<bool, Fail> {
    let Ended {
        status,
        output,
        fetches,
    } = run_failing(alloc, row.words, &FILES, row.fetches, row.puts)?;
    Ok(status == row.status && output.as_slice() == row.output && fetches == row.fetched)
}

/// Each refusal in its turn. What was not due yet is not fetched, and so meets no fault.
const REFUSALS: [Row; 22] = [
    Row {
        words: &[],
        fetches: &[0],
        puts: &[],
        status: Status::Usage,
        output: USAGE,
        fetched: 0,
    },
    Row {
        words: &["check"],
        fetches: &[0],
        puts: &[],
        status: Status::Usage,
        output: USAGE,
        fetched: 0,
    },
    Row {
        words: &["check", "-s"],
        fetches: &[0],
        puts: &[],
        status: Status::Usage,
        output: USAGE,
        fetched: 0,
    },
    Row {
        words: &["check", "n.spec", "s.scm", "more"],
        fetches: &[0],
        puts: &[],
        status: Status::Usage,
        output: USAGE,
        fetched: 0,
    },
    Row {
        words: &["Check", "n.spec", "s.scm"],
        fetches: &[0],
        puts: &[],
        status: Status::Usage,
        output: USAGE,
        fetched: 0,
    },
    Row {
        words: &["check", "", "s.scm"],
        fetches: &[0],
        puts: &[],
        status: Status::Usage,
        output: USAGE,
        fetched: 0,
    },
    Row {
        words: &["check", "n.spec", "-s"],
        fetches: &[0],
        puts: &[],
        status: Status::Usage,
        output: USAGE,
        fetched: 0,
    },
    Row {
        words: &["gen", "0"],
        fetches: &[0],
        puts: &[],
        status: Status::Usage,
        output: USAGE,
        fetched: 0,
    },
    Row {
        words: &["gen", "61"],
        fetches: &[0],
        puts: &[],
        status: Status::Usage,
        output: USAGE,
        fetched: 0,
    },
    Row {
        words: &["gen", "01"],
        fetches: &[0],
        puts: &[],
        status: Status::Usage,
        output: USAGE,
        fetched: 0,
    },
    Row {
        words: &["gen", ""],
        fetches: &[0],
        puts: &[],
        status: Status::Usage,
        output: USAGE,
        fetched: 0,
    },
    Row {
        words: &["gen", "-1"],
        fetches: &[0],
        puts: &[],
        status: Status::Usage,
        output: USAGE,
        fetched: 0,
    },
    Row {
        words: &["gen", "100"],
        fetches: &[0],
        puts: &[],
        status: Status::Usage,
        output: USAGE,
        fetched: 0,
    },
    Row {
        words: &["check", "nowhere", "never"],
        fetches: &[1],
        puts: &[],
        status: Status::Missing,
        output: b"missing nowhere\n",
        fetched: 1,
    },
    Row {
        words: &["check", "cut.spec", "nowhere"],
        fetches: &[1],
        puts: &[],
        status: Status::TextRefused,
        output: b"cut.spec: not grammar at token 1\n",
        fetched: 1,
    },
    Row {
        words: &["check", "u.spec", "nowhere"],
        fetches: &[],
        puts: &[],
        status: Status::Missing,
        output: b"missing nowhere\n",
        fetched: 2,
    },
    Row {
        words: &["check", "n.spec", "nowhere"],
        fetches: &[2],
        puts: &[],
        status: Status::Missing,
        output: b"missing nowhere\n",
        fetched: 2,
    },
    // The types of the specification are judged before the script is due.
    Row {
        words: &["check", "twice.spec", "nowhere"],
        fetches: &[1],
        puts: &[],
        status: Status::TypesRefused,
        output: b"twice.spec: twice at 22\n",
        fetched: 1,
    },
    Row {
        words: &["check", "twice.spec", "slip.scm"],
        fetches: &[],
        puts: &[],
        status: Status::TypesRefused,
        output: b"twice.spec: twice at 22\n",
        fetched: 1,
    },
    Row {
        words: &["check", "n.spec", "slip.scm"],
        fetches: &[],
        puts: &[],
        status: Status::TextRefused,
        output: b"slip.scm: bad byte at 13\n",
        fetched: 2,
    },
    Row {
        words: &["check", "n.spec", "twice.scm"],
        fetches: &[2],
        puts: &[],
        status: Status::TypesRefused,
        output: b"twice.scm: command 2: twice at 23\n",
        fetched: 2,
    },
    Row {
        words: &["check", "n.spec", "u.scm"],
        fetches: &[],
        puts: &[],
        status: Status::Done,
        output: b"accepted obligations 0\n",
        fetched: 2,
    },
];

/// A fault at each call in turn; the output takes seven bytes at a put.
const CALL_FAULTS: [Row; 8] = [
    Row {
        words: &["check", "n.spec", "s.scm"],
        fetches: &[0],
        puts: &[],
        status: Status::ReadFault,
        output: b"",
        fetched: 1,
    },
    Row {
        words: &["check", "n.spec", "s.scm"],
        fetches: &[1],
        puts: &[],
        status: Status::ReadFault,
        output: b"",
        fetched: 2,
    },
    Row {
        words: &["check", "n.spec", "s.scm"],
        fetches: &[2],
        puts: &[9],
        status: Status::Done,
        output: b"accepted obligations 0\n",
        fetched: 2,
    },
    Row {
        words: &["check", "n.spec", "s.scm"],
        fetches: &[],
        puts: &[0],
        status: Status::WriteFault,
        output: b"",
        fetched: 2,
    },
    Row {
        words: &["check", "n.spec", "s.scm"],
        fetches: &[],
        puts: &[1],
        status: Status::WriteFault,
        output: b"accepte",
        fetched: 2,
    },
    Row {
        words: &["check", "n.spec", "s.scm"],
        fetches: &[],
        puts: &[2],
        status: Status::WriteFault,
        output: b"accepted oblig",
        fetched: 2,
    },
    Row {
        words: &["check", "n.spec", "s.scm"],
        fetches: &[],
        puts: &[3],
        status: Status::WriteFault,
        output: b"accepted obligations ",
        fetched: 2,
    },
    Row {
        words: &["check", "n.spec", "s.scm"],
        fetches: &[1],
        puts: &[0],
        status: Status::ReadFault,
        output: b"",
        fetched: 2,
    },
];

#[test]
fn refusals(rt: HostRuntime) -> Result<(), Fail> {
    for row in &REFUSALS {
        assert!(rt; ends_so(rt.alloc(), row)?);
    }
    Ok(())
}

#[test]
fn faults(rt: HostRuntime) -> Result<(), Fail> {
    for row in &CALL_FAULTS {
        assert!(rt; ends_so(rt.alloc(), row)?);
    }
    Ok(())
}
