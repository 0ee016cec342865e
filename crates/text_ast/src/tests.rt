//! Names and texts at their limits.

use crate::{Name, Txt};
use std::alloc::Global;
use std::test::Fail;

// The byte so many times.
fn run(alloc: Global, byte: u8, times: usize) -> Result<Vec<u8>, Fail> {
    let mut bytes = Vec::new(alloc);
    for _ in 0..times {
        bytes.push(byte)?;
    }
    Ok(bytes)
}

#[test]
fn names_are_words(rt: HostRuntime) -> Result<(), Fail> {
    let table: [(&[u8], bool); 14] = [
        (b"a", true),
        (b"Z", true),
        (b"aZ_09z_", true),
        (b"public", true),
        (b"", false),
        (b"_", false),
        (b"9a", false),
        (b"a-b", false),
        (b"a b", false),
        (b"a.b", false),
        (b"@a", false),
        (b"a\0", false),
        (b"\xc3\xa9", false),
        (b"e\xcc\x81", false),
    ];
    for (bytes, want) in table {
        let made = Name::make(rt.alloc(), bytes)?;
        assert_eq!(rt; made.is_some(), want, "{bytes:?}");
        if let Some(name) = made {
            let copy = name.copy(rt.alloc())?;
            assert_eq!(rt; name.bytes(), bytes);
            assert_eq!(rt; copy.bytes(), bytes);
        }
    }
    Ok(())
}

#[test]
fn texts_are_utf8(rt: HostRuntime) -> Result<(), Fail> {
    let table: [(&[u8], bool); 10] = [
        (b"", true),
        (b"n.spec", true),
        (b"a\0\n\x7f", true),
        (b"\xc3\xa9", true),
        (b"\xf0\x9f\xa6\x80", true),
        (b"\xff", false),
        (b"a\x80", false),
        (b"\xc3", false),
        (b"\xc0\x80", false),
        (b"\xed\xa0\x80", false),
    ];
    for (bytes, want) in table {
        let made = Txt::make(Vec::from_slice(rt.alloc(), bytes)?);
        assert_eq!(rt; made.is_some(), want, "{bytes:?}");
        if let Some(text) = made {
            let copy = text.copy(rt.alloc())?;
            assert_eq!(rt; text.bytes(), bytes);
            assert_eq!(rt; copy.bytes(), bytes);
        }
    }
    Ok(())
}

#[test]
fn limits_count_bytes(rt: HostRuntime) -> Result<(), Fail> {
    let alloc = rt.alloc();
    // 14 bytes lie in place, and 15 do not.
    for (times, want) in [(14, true), (15, true), (64, true), (65, false)] {
        let bytes = run(alloc, b'a', times)?;
        let made = Name::make(alloc, bytes.as_slice())?;
        assert_eq!(rt; made.is_some(), want);
        if let Some(name) = made {
            let copy = name.copy(alloc)?;
            assert_eq!(rt; name.bytes(), bytes.as_slice());
            assert_eq!(rt; copy.bytes(), bytes.as_slice());
        }
    }
    assert!(rt; Txt::make(run(alloc, b'a', 4096)?).is_some());
    assert!(rt; Txt::make(run(alloc, b'a', 4097)?).is_none());
    Ok(())
}
