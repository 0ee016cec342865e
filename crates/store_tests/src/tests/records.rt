//! Single records.

use crate::tests::{SAMPLE, keeper_of};
use sqlite::{Error, MemStore};
use std::alloc::Global;
use std::fs;
use std::test::Fail;
use store_file::FileKeeper;
use store_sqlite::SqlKeeper;
use store_trial::{dropped, prints, put};

/// The words of puts under the next id, in the place of another, and where there is none and it is
/// not the next; and of drops of the first of these, twice.
fn words(alloc: Global, keeper: &mut SqlKeeper<MemStore>) -> [&'static str; 5] {
    let new = put(alloc, SAMPLE, keeper, 4);
    let changed = put(alloc, SAMPLE, keeper, 3);
    let far = put(alloc, SAMPLE, keeper, 9);
    let gone = dropped(alloc, SAMPLE, keeper, 4);
    let gone_again = dropped(alloc, SAMPLE, keeper, 4);
    [new, changed, far, gone, gone_again]
}

/// Whether the rows of the keeper are then these.
fn are_left(alloc: Global, keeper: SqlKeeper<MemStore>) -> bool {
    let mut conn = keeper.into_connection();
    prints(
        alloc,
        &mut conn,
        "SELECT next, id, line FROM model JOIN record ON name = model WHERE name = 'User'",
        b"5|1|{name: \"a\", boss: none}\n5|3|{name: \"a\", boss: none}\n",
    )
}

/// Whether the words over the sample's rows are these, two of them are faults, and the rows are then
/// as they are to be.
fn are_tried(alloc: Global, want: [&str; 5]) -> Result<bool, Error> {
    let mut keeper = keeper_of(alloc, SAMPLE.rows)?;
    let met = words(alloc, &mut keeper);
    let faults = keeper.faults();
    Ok(met == want && faults == 2 && are_left(alloc, keeper))
}

#[test]
fn records_are_put_and_dropped(rt: HostRuntime) -> Result<(), Fail> {
    let want = ["done", "done", "failed", "done", "failed"];
    assert!(rt; are_tried(rt.alloc(), want)?);
    Ok(())
}

/// The words of a put and of a drop where there is no file, and how many faults they were.
fn tried_nowhere<'x>(rt: &'x HostRuntime, path: &'x str) -> (&'static str, &'static str, u64) {
    let mut keeper = FileKeeper::new(rt, path);
    let new = put(rt.alloc(), SAMPLE, &mut keeper, 1);
    let gone = dropped(rt.alloc(), SAMPLE, &mut keeper, 1);
    (new, gone, keeper.faults())
}

#[test]
fn no_record_makes_a_file(rt: HostRuntime) -> Result<(), Fail> {
    assert!(rt; tried_nowhere(&rt, "no_record.db") == ("failed", "failed", 2));
    assert!(rt; !fs::exists(&rt, "no_record.db")?);
    Ok(())
}
