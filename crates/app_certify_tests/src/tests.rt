//! Certificates of worked scripts: written, checked again, and wrong.

use crate::files::FILES;
use app_files::Status;
use app_trial::{Ended, File, run_failing, run_over};
use std::alloc::{AllocError, Global};
use std::test::Fail;

const USAGE: &str =
    "usage: init SPEC [DATA], check [SPEC] SCRIPT, apply SCRIPT, show, serve, gen N, prove SPEC SCRIPT, recheck SPEC SCRIPT CERT, impact SPEC SCRIPT\n";

/// Words, which fetch fails, and then the status, what is written, and how many files were fetched.
type Row = (&'static [&'static str], u64, Status, &'static str, u64);

/// Words in their order, then files in theirs, each refused or failing.
const REFUSALS: [Row; 15] = [
    (&["prove", "notes.spec"], 0, Status::Usage, USAGE, 0),
    (
        &["prove", "notes.spec", "empty.scm", "whole.cert"],
        0,
        Status::Usage,
        USAGE,
        0,
    ),
    (
        &["prove", "notes.spec", "-empty.scm"],
        0,
        Status::Usage,
        USAGE,
        0,
    ),
    (
        &["recheck", "notes.spec", "empty.scm"],
        0,
        Status::Usage,
        USAGE,
        0,
    ),
    (
        &["recheck", "notes.spec", "empty.scm", ""],
        0,
        Status::Usage,
        USAGE,
        0,
    ),
    (
        &["recheck", "notes.spec", "empty.scm", "whole.cert", "x"],
        0,
        Status::Usage,
        USAGE,
        0,
    ),
    (
        &["prove", "nowhere", "slip.scm"],
        1,
        Status::Missing,
        "missing nowhere\n",
        1,
    ),
    (
        &["recheck", "nowhere", "slip.scm", "whole.cert"],
        1,
        Status::Missing,
        "missing nowhere\n",
        1,
    ),
    (
        &["recheck", "users.spec", "slip.scm", "nowhere"],
        2,
        Status::TextRefused,
        "slip.scm: not grammar at token 2\n",
        2,
    ),
    (
        &["recheck", "users.spec", "users.spec", "whole.cert"],
        2,
        Status::TextRefused,
        "users.spec: not grammar at token 0\n",
        2,
    ),
    (
        &["recheck", "users.spec", "own.scm", "nowhere"],
        3,
        Status::Missing,
        "missing nowhere\n",
        3,
    ),
    (
        &["prove", "notes.spec", "empty.scm"],
        1,
        Status::ReadFault,
        "",
        2,
    ),
    (
        &["recheck", "notes.spec", "empty.scm", "whole.cert"],
        0,
        Status::ReadFault,
        "",
        1,
    ),
    (
        &["recheck", "notes.spec", "empty.scm", "whole.cert"],
        1,
        Status::ReadFault,
        "",
        2,
    ),
    (
        &["recheck", "notes.spec", "empty.scm", "whole.cert"],
        2,
        Status::ReadFault,
        "",
        3,
    ),
];

#[test]
fn what_is_refused_is_refused_in_its_turn(rt: HostRuntime) -> Result<(), Fail> {
    for (words, fetch, status, output, fetches) in REFUSALS.iter() {
        let ended = run_failing(rt.alloc(), words, &FILES, &[*fetch], &[])?;
        assert_eq!(rt; ended.status, *status);
        assert!(rt; ended.output.as_slice() == output.as_bytes());
        assert_eq!(rt; ended.fetches, *fetches);
    }
    Ok(())
}

/// Specifications, scripts and texts that are none of their certificates, and the report, which
/// names the first bad line.
const WRONG: [(&str, &str, &str, &str); 18] = [
    (
        "notes.spec",
        "empty.scm",
        "none.cert",
        "none.cert: bad line 1\n",
    ),
    (
        "notes.spec",
        "empty.scm",
        "first.cert",
        "first.cert: bad line 2\n",
    ),
    (
        "notes.spec",
        "empty.scm",
        "second.cert",
        "second.cert: bad line 1\n",
    ),
    (
        "notes.spec",
        "empty.scm",
        "spaced.cert",
        "spaced.cert: bad line 1\n",
    ),
    (
        "notes.spec",
        "empty.scm",
        "returns.cert",
        "returns.cert: bad line 1\n",
    ),
    (
        "notes.spec",
        "empty.scm",
        "cut.cert",
        "cut.cert: bad line 2\n",
    ),
    (
        "notes.spec",
        "empty.scm",
        "blank.cert",
        "blank.cert: bad line 3\n",
    ),
    (
        "notes.spec",
        "empty.scm",
        "letter.cert",
        "letter.cert: bad line 3\n",
    ),
    (
        "notes.spec",
        "empty.scm",
        "more.cert",
        "more.cert: bad line 3\n",
    ),
    (
        "notes.spec",
        "empty.scm",
        "duty.cert",
        "duty.cert: bad line 2\n",
    ),
    (
        "users.spec",
        "own.scm",
        "whole.cert",
        "whole.cert: bad line 2\n",
    ),
    (
        "users.spec",
        "own.scm",
        "late.cert",
        "late.cert: bad line 2\n",
    ),
    (
        "users.spec",
        "own.scm",
        "duty.cert",
        "duty.cert: bad line 3\n",
    ),
    (
        "users.spec",
        "own.scm",
        "far.cert",
        "far.cert: bad line 3\n",
    ),
    (
        "users.spec",
        "own.scm",
        "wide.cert",
        "wide.cert: bad line 3\n",
    ),
    (
        "users.spec",
        "own.scm",
        "theory.cert",
        "theory.cert: bad line 3\n",
    ),
    (
        "users.spec",
        "own.scm",
        "again.cert",
        "again.cert: bad line 4\n",
    ),
    (
        "users.spec",
        "own.scm",
        "half.cert",
        "half.cert: bad line 4\n",
    ),
];

#[test]
fn bad_lines_are_named(rt: HostRuntime) -> Result<(), Fail> {
    for (spec, script, cert, report) in WRONG.iter() {
        let ended = run_over(rt.alloc(), &["recheck", *spec, *script, *cert], &FILES)?;
        assert_eq!(rt; ended.status, Status::BadCertificate);
        assert!(rt; ended.output.as_slice() == report.as_bytes());
    }
    Ok(())
}

/// Specifications and scripts that are accepted, and the report of their certificates: one without
/// obligations, some worked ones, and that of an application.
const ACCEPTED: [(&str, &str, &str); 6] = [
    ("notes.spec", "empty.scm", "certified obligations 0\n"),
    ("users.spec", "own.scm", "certified obligations 1\n"),
    ("groups.spec", "higher.scm", "certified obligations 1\n"),
    ("notes.spec", "readers.scm", "certified obligations 2\n"),
    ("users.spec", "levels.scm", "certified obligations 2\n"),
    ("app.spec", "app.scm", "certified obligations 24\n"),
];

/// What `prove` puts out of a script where it is done, or nothing.
fn certificate(alloc: Global, spec: &str, script: &str) -> Result<Vec<u8>, AllocError> {
    let ended = run_over(alloc, &["prove", spec, script], &FILES)?;
    match ended.status {
        Status::Done => Ok(ended.output),
        _ => Ok(Vec::new(alloc)),
    }
}

/// What `recheck` comes to where the certificate is this text.
fn recheck(alloc: Global, spec: &str, script: &str, text: &[u8]) -> Result<Ended, AllocError> {
    let mut files = Vec::new(alloc);
    for file in FILES.iter() {
        files.push(*file)?;
    }
    files.push(File {
        name: "new.cert",
        text,
    })?;
    let words = ["recheck", spec, script, "new.cert"];
    run_over(alloc, &words, files.as_slice())
}

#[test]
fn what_is_written_is_passed_again(rt: HostRuntime) -> Result<(), Fail> {
    let alloc = rt.alloc();
    for (spec, script, report) in ACCEPTED.iter() {
        let text = certificate(alloc, spec, script)?;
        let ended = recheck(alloc, spec, script, text.as_slice())?;
        assert_eq!(rt; ended.status, Status::Done);
        assert!(rt; ended.output.as_slice() == report.as_bytes());
    }
    Ok(())
}

/// Whether a text is refused as the certificate of each accepted script but one.
fn only_fits(alloc: Global, text: &[u8], fitting: &str) -> Result<bool, AllocError> {
    for (spec, script, _) in ACCEPTED.iter() {
        let ended = recheck(alloc, spec, script, text)?;
        if *script != fitting && ended.status != Status::BadCertificate {
            return Ok(false);
        }
    }
    Ok(true)
}

#[test]
fn certificates_of_other_scripts_are_refused(rt: HostRuntime) -> Result<(), Fail> {
    let alloc = rt.alloc();
    for (spec, script, _) in ACCEPTED.iter() {
        let text = certificate(alloc, spec, script)?;
        assert!(rt; only_fits(alloc, text.as_slice(), script)?);
    }
    Ok(())
}

#[test]
fn prove_reports_a_leak_as_check_does(rt: HostRuntime) -> Result<(), Fail> {
    let alloc = rt.alloc();
    let proved = run_over(alloc, &["prove", "users.spec", "open.scm"], &FILES)?;
    let checked = run_over(alloc, &["check", "users.spec", "open.scm"], &FILES)?;
    assert_eq!(rt; proved.status, Status::Leak);
    assert_eq!(rt; checked.status, Status::Leak);
    assert!(rt; proved.output.as_slice() == checked.output.as_slice());
    Ok(())
}

#[test]
fn a_fault_of_the_output_leaves_a_front_of_the_certificate(rt: HostRuntime) -> Result<(), Fail> {
    let alloc = rt.alloc();
    let words = ["prove", "notes.spec", "readers.scm"];
    let whole = run_over(alloc, &words, &FILES)?;
    for put in 0..5 {
        let ended = run_failing(alloc, &words, &FILES, &[], &[put])?;
        assert_eq!(rt; ended.status, Status::WriteFault);
        assert!(rt; whole.output.as_slice().starts_with(ended.output.as_slice()));
    }
    Ok(())
}
