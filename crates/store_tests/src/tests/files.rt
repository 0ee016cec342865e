//! Files that hold a store.

use crate::tests::SAMPLE;
use std::fs;
use std::test::Fail;
use store_file::FileKeeper;
use store_trial::word_for;

/// What a keeper that is made anew over the file finds.
fn found<'x>(rt: &'x HostRuntime, path: &'x str) -> &'static str {
    let mut keeper = FileKeeper::new(rt, path);
    SAMPLE.word(rt.alloc(), &mut keeper)
}

/// What a keeper finds where there is no file, and what storing the sample there and closing the
/// file comes to.
fn stored<'x>(rt: &'x HostRuntime, path: &'x str) -> [&'static str; 3] {
    let mut keeper = FileKeeper::new(rt, path);
    let before = SAMPLE.word(rt.alloc(), &mut keeper);
    let written = SAMPLE.replaces(rt.alloc(), &mut keeper);
    [before, written, word_for(keeper.close())]
}

#[test]
fn a_file_is_read_back(rt: HostRuntime) -> Result<(), Fail> {
    let path = "read_back/scooter.db";
    fs::create_dir_all(&rt, "read_back")?;
    assert!(rt; stored(&rt, path) == ["nothing", "done", "done"]);
    assert_eq!(rt; found(&rt, path), "the sample");
    fs::remove_dir_all(&rt, "read_back")?;
    Ok(())
}

#[test]
fn a_file_that_was_not_closed_is_read_back(rt: HostRuntime) -> Result<(), Fail> {
    let path = "not_closed/scooter.db";
    fs::create_dir_all(&rt, "not_closed")?;
    assert_eq!(rt; left(&rt, path), "done");
    assert_eq!(rt; found(&rt, path), "the sample");
    fs::remove_dir_all(&rt, "not_closed")?;
    Ok(())
}

/// What storing the sample in a file comes to that is then left as it is.
fn left<'x>(rt: &'x HostRuntime, path: &'x str) -> &'static str {
    let mut keeper = FileKeeper::new(rt, path);
    SAMPLE.replaces(rt.alloc(), &mut keeper)
}

/// What a keeper meets at a file that another one holds, at a load and at a write, and how many
/// faults it counted.
fn refused<'x>(rt: &'x HostRuntime, path: &'x str) -> (&'static str, &'static str, u64) {
    let mut second = FileKeeper::new(rt, path);
    let loaded = SAMPLE.word(rt.alloc(), &mut second);
    let written = SAMPLE.replaces(rt.alloc(), &mut second);
    (loaded, written, second.faults())
}

/// What storing the sample in a file comes to, what another keeper then meets at a load and at a
/// write, what a further load of the first one comes to, and closing it; and how many faults the
/// other one counted.
fn held<'x>(rt: &'x HostRuntime, path: &'x str) -> ([&'static str; 5], u64) {
    let mut first = FileKeeper::new(rt, path);
    let written = SAMPLE.replaces(rt.alloc(), &mut first);
    let (loaded, replaced, faults) = refused(rt, path);
    let still = SAMPLE.word(rt.alloc(), &mut first);
    let closed = word_for(first.close());
    ([written, loaded, replaced, still, closed], faults)
}

#[test]
fn a_file_that_another_holds_is_a_fault(rt: HostRuntime) -> Result<(), Fail> {
    let path = "held/scooter.db";
    fs::create_dir_all(&rt, "held")?;
    let (words, faults) = held(&rt, path);
    assert!(rt; words == ["done", "failed", "failed", "the sample", "done"]);
    assert_eq!(rt; faults, 2);
    assert_eq!(rt; found(&rt, path), "the sample");
    fs::remove_dir_all(&rt, "held")?;
    Ok(())
}

/// What a keeper meets that found no file, and writes after another one wrote: at its load, the
/// other one's words, at its write and at a further load; and how many faults it counted.
fn race<'x>(rt: &'x HostRuntime, path: &'x str) -> ([&'static str; 6], u64) {
    let alloc = rt.alloc();
    let mut slow = FileKeeper::new(rt, path);
    let first = SAMPLE.word(alloc, &mut slow);
    let [before, written, closed] = stored(rt, path);
    let refused = SAMPLE.replaces(alloc, &mut slow);
    let last = SAMPLE.word(alloc, &mut slow);
    (
        [first, before, written, closed, refused, last],
        slow.faults(),
    )
}

#[test]
fn what_another_stored_is_not_replaced(rt: HostRuntime) -> Result<(), Fail> {
    fs::create_dir_all(&rt, "race")?;
    let (words, faults) = race(&rt, "race/scooter.db");
    assert!(rt; words == ["nothing", "nothing", "done", "done", "failed", "the sample"]);
    assert_eq!(rt; faults, 1);
    fs::remove_dir_all(&rt, "race")?;
    Ok(())
}
