//! Rows that are read, and written elsewhere.

use crate::tests::{SAMPLE, changed_sample, keeper_of};
use sqlite::{Error, MemStore};
use std::alloc::Global;
use std::test::Fail;
use store_sqlite::SqlKeeper;

/// A word for what the rows say, and how many faults that was.
fn read(alloc: Global, rows: &str) -> Result<(&'static str, u64), Error> {
    let mut keeper = keeper_of(alloc, rows)?;
    let word = SAMPLE.word(alloc, &mut keeper);
    Ok((word, keeper.faults()))
}

#[test]
fn rows_are_read(rt: HostRuntime) -> Result<(), Fail> {
    assert!(rt; read(rt.alloc(), SAMPLE.rows)? == ("the sample", 0));
    assert!(rt; read(rt.alloc(), "")? == ("nothing", 0));
    Ok(())
}

/// A word for what is loaded once the sample is stored, or for what stood against that.
fn word_after(alloc: Global, keeper: &mut SqlKeeper<MemStore>) -> &'static str {
    match SAMPLE.replaces(alloc, keeper) {
        "done" => SAMPLE.word(alloc, keeper),
        word => word,
    }
}

/// What is loaded once the sample is stored, twice, over the rows.
fn words_after(alloc: Global, rows: &str) -> Result<(&'static str, &'static str), Error> {
    let mut keeper = keeper_of(alloc, rows)?;
    let first = word_after(alloc, &mut keeper);
    let again = word_after(alloc, &mut keeper);
    Ok((first, again))
}

#[test]
fn what_is_replaced_is_loaded(rt: HostRuntime) -> Result<(), Fail> {
    for rows in ["", SAMPLE.rows] {
        assert!(rt; words_after(rt.alloc(), rows)? == ("the sample", "the sample"));
    }
    Ok(())
}

/// Each makes of the rows others.
const ROW_CHANGES: [&str; 12] = [
    "DELETE FROM record",
    "DELETE FROM note",
    "DELETE FROM model",
    "UPDATE record SET id = id + 1",
    "UPDATE record SET line = '{}'",
    "UPDATE model SET next = 9",
    "UPDATE note SET reason = 'other'",
    "UPDATE note SET place = place + 1",
    "UPDATE head SET version = 9, spec = ''",
    "INSERT INTO record (model, id, line) VALUES ('User', 2, ''), ('Gone', 1, '{}'); INSERT INTO model (place, name, next) VALUES (2, 'Gone', 5)",
    "INSERT INTO record (model, id, line) VALUES ('Ghost', 1, '{}')",
    "INSERT INTO note (place, version, command, model, field, access, reason) VALUES (2, 3, 8, 'Page', NULL, 'delete', 'more')",
];

/// The first change over which what is stored is not loaded.
fn kept(alloc: Global, changes: &[&'static str]) -> Result<Option<&'static str>, Error> {
    for change in changes {
        let mut keeper = changed_sample(alloc, change)?;
        if word_after(alloc, &mut keeper) != "the sample" {
            return Ok(Some(*change));
        }
    }
    Ok(None)
}

#[test]
fn other_rows_are_replaced(rt: HostRuntime) -> Result<(), Fail> {
    assert!(rt; kept(rt.alloc(), &ROW_CHANGES)? == None);
    Ok(())
}

/// A word for the answer where the sample is stored over the rows, and how many faults that was.
fn written(alloc: Global, rows: &str) -> Result<(&'static str, u64), Error> {
    let mut keeper = keeper_of(alloc, rows)?;
    let word = SAMPLE.replaces(alloc, &mut keeper);
    Ok((word, keeper.faults()))
}

#[test]
fn a_transaction_that_is_open_is_a_fault(rt: HostRuntime) -> Result<(), Fail> {
    assert!(rt; written(rt.alloc(), "BEGIN")? == ("failed", 1));
    Ok(())
}
