//! Keepers in memory that hold something.

use crate::tests::SAMPLE;
use std::alloc::Global;
use std::test::Fail;
use store_keeper::{KeepCall, MemKeeper};

/// The words of four calls of which those of these numbers fail: a write and a load, twice.
fn words(alloc: Global, failing: Vec<u64>) -> [&'static str; 4] {
    let mut keeper = MemKeeper::new(alloc, None, failing);
    let written = SAMPLE.replaces(alloc, &mut keeper);
    let loaded = SAMPLE.word(alloc, &mut keeper);
    let again = SAMPLE.replaces(alloc, &mut keeper);
    let last = SAMPLE.word(alloc, &mut keeper);
    [written, loaded, again, last]
}

#[test]
fn each_call_fails_in_turn(rt: HostRuntime) -> Result<(), Fail> {
    for (failing, want) in [
        (0, ["failed", "nothing", "done", "the sample"]),
        (1, ["done", "failed", "done", "the sample"]),
        (2, ["done", "the sample", "failed", "the sample"]),
        (3, ["done", "the sample", "done", "failed"]),
        (4, ["done", "the sample", "done", "the sample"]),
    ] {
        let numbers = vec![in rt.alloc(); failing]?;
        assert!(rt; words(rt.alloc(), numbers) == want, "{failing}");
    }
    Ok(())
}

/// A word for what a keeper holds that never fails and begins with the sample, and whether that
/// was its one call.
fn sure_word(alloc: Global) -> (&'static str, bool) {
    let mut keeper = SAMPLE.sure_keeper(alloc);
    let word = SAMPLE.word(alloc, &mut keeper);
    (word, keeper.calls() == Some([KeepCall::Load].as_slice()))
}

/// The words of two loads of a keeper that begins with the sample, of which those of these numbers
/// fail.
fn mem_words(alloc: Global, failing: Vec<u64>) -> (&'static str, &'static str) {
    let mut keeper = SAMPLE.mem_keeper(alloc, failing);
    let first = SAMPLE.word(alloc, &mut keeper);
    (first, SAMPLE.word(alloc, &mut keeper))
}

#[test]
fn keepers_begin_with_what_they_are_given(rt: HostRuntime) -> Result<(), Fail> {
    let alloc = rt.alloc();
    assert!(rt; sure_word(alloc) == ("the sample", true));
    let numbers = vec![in alloc; 0u64]?;
    assert!(rt; mem_words(alloc, numbers) == ("failed", "the sample"));
    Ok(())
}
