//! Rows that are not what a store holds.

use crate::tests::{SAMPLE, changed_sample};
use sqlite::Error;
use std::alloc::Global;
use std::test::Fail;

/// Each makes of the version, the specification and the models some that are no store's.
const HEADS: [&str; 14] = [
    "UPDATE head SET version = 0",
    "UPDATE head SET version = -1",
    "UPDATE head SET spec = 'model'",
    "UPDATE head SET spec = ''",
    "UPDATE head SET spec = 'model Page {create: none, delete: none, likes: Set(Id(User)) {read: public, write: public},}'",
    "DELETE FROM head",
    "INSERT INTO head (one, version, spec) VALUES (2, 3, '')",
    "DELETE FROM model WHERE place = 1",
    "UPDATE model SET name = 'Other' WHERE place = 1",
    "UPDATE model SET place = 7 WHERE place = 1",
    "UPDATE model SET next = 0",
    "UPDATE model SET next = -1",
    "UPDATE model SET next = 3 WHERE place = 0",
    "INSERT INTO model (place, name, next) VALUES (2, 'User', 1)",
];

/// The same of the records.
const BROKEN_RECORDS: [&str; 9] = [
    "INSERT INTO record (model, id, line) VALUES ('Ghost', 1, '{}')",
    "UPDATE record SET id = 0 WHERE model = 'Page'",
    "UPDATE record SET id = -5 WHERE model = 'Page'",
    "UPDATE record SET line = '{}' WHERE model = 'Page'",
    "UPDATE record SET line = '' WHERE model = 'Page'",
    "UPDATE record SET line = '{likes: [@2]}' WHERE model = 'Page'",
    "UPDATE record SET line = '{likes: true}' WHERE model = 'Page'",
    "UPDATE record SET line = '{likes: []} @9 {likes: []}' WHERE model = 'Page'",
    "UPDATE record SET line = '{likes: []} } User @5 {' WHERE model = 'Page'",
];

/// The same of the notes, and other tables.
const OTHERS: [&str; 10] = [
    "UPDATE note SET place = 7 WHERE place = 1",
    "UPDATE note SET version = -1",
    "UPDATE note SET command = 4294967296",
    "UPDATE note SET model = 'a b'",
    "UPDATE note SET field = NULL",
    "UPDATE note SET access = 'peek'",
    "DROP TABLE note",
    "DROP TABLE note; CREATE TABLE note (place INTEGER PRIMARY KEY) STRICT",
    "CREATE TABLE other (place INTEGER PRIMARY KEY) STRICT",
    "DROP TABLE record; CREATE TABLE record (model TEXT, id INTEGER, text TEXT) STRICT",
];

/// A word for what is loaded of the rows after the change, and how many faults there were.
fn word_after(alloc: Global, change: &str) -> Result<(&'static str, u64), Error> {
    let mut keeper = changed_sample(alloc, change)?;
    let word = SAMPLE.word(alloc, &mut keeper);
    Ok((word, keeper.faults()))
}

/// The first change after which the rows are no fault.
fn unnoticed(alloc: Global, changes: &[&'static str]) -> Result<Option<&'static str>, Error> {
    for change in changes {
        if word_after(alloc, change)? != ("failed", 1) {
            return Ok(Some(*change));
        }
    }
    Ok(None)
}

#[test]
fn broken_heads_are_faults(rt: HostRuntime) -> Result<(), Fail> {
    assert!(rt; unnoticed(rt.alloc(), &HEADS)? == None);
    Ok(())
}

#[test]
fn broken_records_are_faults(rt: HostRuntime) -> Result<(), Fail> {
    assert!(rt; unnoticed(rt.alloc(), &BROKEN_RECORDS)? == None);
    Ok(())
}

#[test]
fn broken_notes_and_other_tables_are_faults(rt: HostRuntime) -> Result<(), Fail> {
    assert!(rt; unnoticed(rt.alloc(), &OTHERS)? == None);
    Ok(())
}

#[test]
fn views_and_indexes_are_no_tables(rt: HostRuntime) -> Result<(), Fail> {
    for more in [
        "CREATE INDEX by_line ON record (line)",
        "CREATE VIEW names AS SELECT name FROM model",
    ] {
        let found = word_after(rt.alloc(), more)?;
        assert!(rt; found == ("the sample", 0), "{more}");
    }
    Ok(())
}
