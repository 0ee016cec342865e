//! The objects in memory.

use crate::{
    Failed, FileName, Found, MemFile, MemShelf, MemSink, Shelf, ShelfErr, Sink, SureShelf,
    SureSink, put_all,
};
use std::alloc::{AllocError, Global};
use std::test::Fail;

fn file(alloc: Global, name: &[u8], bytes: &[u8]) -> Result<MemFile, AllocError> {
    Ok(MemFile::new(
        Vec::from_slice(alloc, name)?,
        Vec::from_slice(alloc, bytes)?,
    ))
}

// Two files, and a second one under the first one's name.
fn files(alloc: Global) -> Result<Vec<MemFile>, AllocError> {
    let mut files = Vec::new(alloc);
    files.push(file(alloc, b"a.txt", b"alpha")?)?;
    files.push(file(alloc, b"b.txt", b"")?)?;
    files.push(file(alloc, b"a.txt", b"other")?)?;
    Ok(files)
}

// A word for what was found, so that a table can hold it.
fn word(answer: &Result<Found, ShelfErr>, bytes: &[u8]) -> &'static str {
    match answer {
        Ok(Found::Bytes(found)) if found.as_slice() == bytes => "bytes",
        Ok(Found::Bytes(_)) => "other bytes",
        Ok(Found::Missing) => "missing",
        Ok(Found::TooLong) => "too long",
        Err(ShelfErr::Failed) => "failed",
        Err(ShelfErr::OutOfMemory) => "out of memory",
    }
}

#[test]
fn shelves_find_files_by_name(rt: HostRuntime) -> Result<(), Fail> {
    let alloc = rt.alloc();
    let mut shelf = MemShelf::new(alloc, files(alloc)?, Vec::new(alloc));
    let mut sure = SureShelf::new(alloc, files(alloc)?);
    let alpha: &[u8] = b"alpha";
    let empty: &[u8] = b"";
    for (name, limit, bytes, want) in [
        (b"a.txt".as_slice(), 9, alpha, "bytes"),
        (b"a.txt".as_slice(), 5, alpha, "bytes"),
        (b"a.txt".as_slice(), 4, alpha, "too long"),
        (b"b.txt".as_slice(), 0, empty, "bytes"),
        (b"a.tx".as_slice(), 9, alpha, "missing"),
        (b"".as_slice(), 9, alpha, "missing"),
    ] {
        assert_eq!(rt;
            word(&shelf.fetch(alloc, name, limit), bytes),
            want,
            "{limit}"
        );
        assert_eq!(rt;
            word(&sure.fetch(alloc, name, limit), bytes),
            want,
            "{limit}"
        );
    }
    assert_eq!(rt; shelf.fetches(), 6);
    assert_eq!(rt; shelf.faults(), 0);
    Ok(())
}

#[test]
fn each_fetch_fails_in_turn(rt: HostRuntime) -> Result<(), Fail> {
    let alloc = rt.alloc();
    for failing in 0..4u64 {
        let numbers = vec![in alloc; failing]?;
        let mut shelf = MemShelf::new(alloc, files(alloc)?, numbers);
        for fetch in 0..3u64 {
            let want = if fetch == failing { "failed" } else { "bytes" };
            let answer = shelf.fetch(alloc, b"a.txt", 5);
            assert_eq!(rt; word(&answer, b"alpha"), want, "fetch {fetch}");
        }
        let faults = if failing < 3 { 1 } else { 0 };
        assert_eq!(rt; shelf.faults(), faults);
    }
    Ok(())
}

/// Whether these names were told.
fn are_names(told: Option<&[FileName]>, names: &[&[u8]]) -> bool {
    told.is_some_and(|told| {
        told.len() == names.len()
            && told
                .iter()
                .zip(names)
                .all(|(name, bytes)| name.bytes() == *bytes)
    })
}

#[test]
fn shelves_tell_what_was_fetched(rt: HostRuntime) -> Result<(), Fail> {
    let alloc = rt.alloc();
    let mut shelf = MemShelf::new(alloc, files(alloc)?, vec![in alloc; 1u64]?);
    let mut sure = SureShelf::new(alloc, files(alloc)?);
    let names = [b"b.txt".as_slice(), b"a.txt", b" ", b"a.txt"];
    assert!(rt; are_names(shelf.calls(), &[]) && are_names(sure.calls(), &[]));
    for name in names {
        let _ = shelf.fetch(alloc, name, 5);
        let _ = sure.fetch(alloc, name, 5);
    }
    assert!(rt; are_names(shelf.calls(), &names) && are_names(sure.calls(), &names));
    Ok(())
}

#[test]
fn each_put_fails_in_turn(rt: HostRuntime) -> Result<(), Fail> {
    let alloc = rt.alloc();
    for (failing, want, answer) in [
        (0, b"".as_slice(), Err(Failed)),
        (1, b"re".as_slice(), Err(Failed)),
        (2, b"repo".as_slice(), Err(Failed)),
        (3, b"report".as_slice(), Err(Failed)),
        (4, b"report\n".as_slice(), Ok(())),
    ] {
        let numbers = vec![in alloc; failing]?;
        let mut out = MemSink::new(alloc, 20, 2, numbers)?;
        assert!(rt; put_all(&mut out, b"report\n") == answer, "put {failing}");
        assert!(rt; out.bytes() == want, "put {failing}");
        assert_eq!(rt; out.puts(), if failing < 4 { failing + 1 } else { 4 });
        assert_eq!(rt; out.faults(), if failing < 4 { 1 } else { 0 });
    }
    Ok(())
}

#[test]
fn a_full_sink_fails(rt: HostRuntime) -> Result<(), Fail> {
    let alloc = rt.alloc();
    let mut out = MemSink::new(alloc, 3, 9, Vec::new(alloc))?;
    assert!(rt; put_all(&mut out, b"") == Ok(()));
    assert!(rt; out.put(b"ab") == Ok(2));
    assert!(rt; put_all(&mut out, b"cd") == Err(Failed));
    assert!(rt; out.bytes() == b"abc".as_slice());
    assert_eq!(rt; out.faults(), 1);
    Ok(())
}

#[test]
fn a_sure_sink_tells_what_fits(rt: HostRuntime) -> Result<(), Fail> {
    let alloc = rt.alloc();
    let mut out = SureSink::new(alloc, 3)?;
    assert!(rt; put_all(&mut out, b"ab") == Ok(()));
    assert!(rt; out.bytes().ok_or("fits")? == b"ab".as_slice());
    assert!(rt; put_all(&mut out, b"c") == Ok(()));
    assert!(rt; out.bytes().ok_or("fits")? == b"abc".as_slice());
    assert!(rt; put_all(&mut out, b"d") == Ok(()));
    assert!(rt; out.bytes().is_none());
    Ok(())
}
