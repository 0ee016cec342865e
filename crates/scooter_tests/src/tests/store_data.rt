//! Data that `init` refuses, one row for each place that refuses.

use app_files::{MOST_FILE_BYTES, Status};
use app_trial::{Ended, Failing, File, run_over_store};
use std::alloc::{AllocError, Global};
use std::test::Fail;
use store_keeper::{Keeper, SureKeeper};

/// How many bytes data may have.
const MOST_DATA_BYTES: usize = 33_554_432;

const SPEC: &[u8] = b"principal model User {
  create: public,
  delete: none,
  email: Text {read: public, write: u -> [u]},
  manager: Id(User) {read: public, write: none},
  friends: Set(Id(User)) {read: public, write: none},
}
";

/// No fetch and no put fails.
const SURE: Failing<'static> = Failing {
    fetches: &[],
    puts: &[],
};

/// `init` of both files.
fn init_over<K: Keeper>(
    alloc: Global,
    store: &mut K,
    files: &[File<'_>],
) -> Result<Ended, AllocError> {
    run_over_store(alloc, &["init", "u.spec", "d.txt"], files, store, SURE)
}

/// The same where nothing is stored.
fn init_of_files(alloc: Global, files: &[File<'_>]) -> Result<Ended, AllocError> {
    let mut store = SureKeeper::new(alloc, None);
    init_over(alloc, &mut store, files)
}

fn named<'t>(name: &'t str, text: &'t [u8]) -> File<'t> {
    File { name, text }
}

/// `init` of a specification and data.
fn init_of(alloc: Global, spec: &[u8], data: &[u8]) -> Result<Ended, AllocError> {
    init_of_files(alloc, &[named("u.spec", spec), named("d.txt", data)])
}

/// Whether it comes to this.
fn init_comes_to(
    alloc: Global,
    spec: &[u8],
    data: &[u8],
    status: Status,
    report: &[u8],
) -> Result<bool, AllocError> {
    let ended = init_of(alloc, spec, data)?;
    Ok(ended.status == status && ended.output.as_slice() == report)
}

/// Data, and a report.
type Row = (&'static [u8], &'static [u8]);

/// The number of the first row whose data are not refused so.
fn first_wrong(alloc: Global, rows: &[Row]) -> Result<Option<usize>, AllocError> {
    for (number, row) in rows.iter().enumerate() {
        let (data, report) = *row;
        if !init_comes_to(alloc, SPEC, data, Status::TypesRefused, report)? {
            return Ok(Some(number));
        }
    }
    Ok(None)
}

/// Data, and the report of what is wrong with it: what refuses, with its place.
const WRONG_DATA: [Row; 15] = [
    // a model
    (b"Users @1 {}", b"d.txt: unknown at 0\n"),
    (b"User @1 {} User @1 {}", b"d.txt: twice at 11\n"),
    // a field
    (
        b"User @2 {@1 {email: \"\", manager: @1, friends: [], age: 1}}",
        b"d.txt: unknown at 50\n",
    ),
    (
        b"User @2 {@1 {email: \"\", manager: @1}}",
        b"d.txt: absent at 35\n",
    ),
    (
        b"User @2 {@1 {email: \"\", manager: @1, friends: [], email: \"\"}}",
        b"d.txt: twice at 50\n",
    ),
    // a value
    (
        b"User @2 {@1 {email: 1, manager: @1, friends: []}}",
        b"d.txt: wrong shape at 20\n",
    ),
    (
        b"User @2 {@1 {email: \"\", manager: @1, friends: [@1, @1]}}",
        b"d.txt: twice at 52\n",
    ),
    // an id
    (b"User @0 {}", b"d.txt: bad id at 6\n"),
    (b"User @9223372036854775808 {}", b"d.txt: bad id at 6\n"),
    (
        b"User @1 {@1 {email: \"\", manager: @1, friends: []}}",
        b"d.txt: bad id at 10\n",
    ),
    (
        b"User @2 {@0 {email: \"\", manager: @0, friends: []}}",
        b"d.txt: bad id at 10\n",
    ),
    (
        b"User @9223372036854775807 {@9223372036854775807 {email: \"\", manager: @1, friends: []}}",
        b"d.txt: bad id at 28\n",
    ),
    (
        b"User @3 {@1 {email: \"\", manager: @1, friends: []} @1 {email: \"\", manager: @1, friends: []}}",
        b"d.txt: twice at 51\n",
    ),
    // an id that names no record
    (
        b"User @2 {@1 {email: \"\", manager: @2, friends: []}}",
        b"d.txt: dangling at 34\n",
    ),
    (
        b"User @2 {@1 {email: \"\", manager: @1, friends: [@2]}}",
        b"d.txt: dangling at 48\n",
    ),
];

#[test]
fn wrong_data(rt: HostRuntime) -> Result<(), Fail> {
    assert_eq!(rt; first_wrong(rt.alloc(), &WRONG_DATA)?, None);
    Ok(())
}

/// The record of this number, which is its own manager.
fn push_user(alloc: Global, text: &mut Vec<u8>, number: u16) -> Result<(), AllocError> {
    let digits = number.to_string(alloc)?;
    text.extend_from_slice(b"@")?;
    text.extend_from_slice(digits.as_bytes())?;
    text.extend_from_slice(b" {email: \"\", manager: @")?;
    text.extend_from_slice(digits.as_bytes())?;
    text.extend_from_slice(b", friends: []}\n")
}

/// So many records.
fn users(alloc: Global, count: u16) -> Result<Vec<u8>, AllocError> {
    let mut text = Vec::from_slice(alloc, b"User @60000 {")?;
    for number in 1..=count {
        push_user(alloc, &mut text, number)?;
    }
    text.extend_from_slice(b"}")?;
    Ok(text)
}

/// Whether `init` of so many records comes to this.
fn users_come_to(
    alloc: Global,
    count: u16,
    status: Status,
    report: &[u8],
) -> Result<bool, AllocError> {
    let text = users(alloc, count)?;
    init_comes_to(alloc, SPEC, text.as_slice(), status, report)
}

#[test]
fn as_many_records_as_there_may_be(rt: HostRuntime) -> Result<(), Fail> {
    let alloc = rt.alloc();
    assert!(rt; users_come_to(alloc, 20_000, Status::Done, b"ok version 1\n")?);
    assert!(rt;
        users_come_to(
            alloc,
            20_001,
            Status::TypesRefused,
            b"d.txt: full records\n"
        )?
    );
    Ok(())
}

/// Whether `init` of a specification and data of so many blanks comes to this.
fn blanks_come_to(
    alloc: Global,
    spec: usize,
    data: usize,
    status: Status,
    report: &[u8],
) -> Result<bool, AllocError> {
    let spec = vec![in alloc; b' '; spec]?;
    let data = vec![in alloc; b' '; data]?;
    init_comes_to(alloc, spec.as_slice(), data.as_slice(), status, report)
}

#[test]
fn files_of_init_above_the_limits(rt: HostRuntime) -> Result<(), Fail> {
    let alloc = rt.alloc();
    let ok = b"ok version 1\n";
    assert!(rt; blanks_come_to(alloc, MOST_FILE_BYTES, MOST_DATA_BYTES, Status::Done, ok)?);
    let long_data = b"too long d.txt\n";
    assert!(rt; blanks_come_to(alloc, 0, MOST_DATA_BYTES + 1, Status::TooLong, long_data)?);
    let long_spec = b"too long u.spec\n";
    assert!(rt; blanks_come_to(alloc, MOST_FILE_BYTES + 1, 0, Status::TooLong, long_spec)?);
    Ok(())
}
