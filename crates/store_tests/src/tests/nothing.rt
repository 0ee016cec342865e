//! Keepers that hold nothing, and those that refuse.

use crate::tests::SAMPLE;
use std::test::Fail;
use store_keeper::{FailingKeeper, KeepCall, MemKeeper, OutOfMemoryKeeper, SureKeeper};

#[test]
fn each_call_fails_in_turn(rt: HostRuntime) -> Result<(), Fail> {
    let alloc = rt.alloc();
    for failing in 0..4u64 {
        let numbers = vec![in alloc; failing]?;
        let mut keeper = MemKeeper::new(alloc, None, numbers);
        for call in 0..3u64 {
            let want = if call == failing { "failed" } else { "nothing" };
            assert_eq!(rt; SAMPLE.word(alloc, &mut keeper), want, "call {call}");
        }
        let faults = if failing < 3 { 1 } else { 0 };
        assert_eq!(rt; keeper.faults(), faults);
        assert_eq!(rt; keeper.count(), 3);
        assert!(rt; keeper.stored().is_none());
        assert!(rt; keeper.calls() == Some([KeepCall::Load; 3].as_slice()));
    }
    Ok(())
}

#[test]
fn sure_keepers_begin_empty(rt: HostRuntime) -> Result<(), Fail> {
    let alloc = rt.alloc();
    let mut keeper = SureKeeper::new(alloc, None);
    assert_eq!(rt; SAMPLE.word(alloc, &mut keeper), "nothing");
    assert!(rt; keeper.stored().is_none());
    assert!(rt; keeper.calls() == Some([KeepCall::Load].as_slice()));
    Ok(())
}

#[test]
fn refusing_keepers_refuse(rt: HostRuntime) -> Result<(), Fail> {
    let alloc = rt.alloc();
    let mut failing = FailingKeeper::new();
    assert_eq!(rt; SAMPLE.word(alloc, &mut failing), "failed");
    assert_eq!(rt; SAMPLE.word(alloc, &mut failing), "failed");
    assert_eq!(rt; failing.faults(), 2);
    let mut wanting = OutOfMemoryKeeper;
    assert_eq!(rt; SAMPLE.word(alloc, &mut wanting), "out of memory");
    Ok(())
}
