//! The adapters, over the real outside and over one that fails.
ghost use Rattle.std.specs.Prelude.{None};

use crate::{
    CurrentFolder, DirShelf, Failed, Folder, Found, Shelf, ShelfErr, Sink, StdSink, put_all,
};
use std::io::{ErrorKind, Read, Write};
use std::os::unix::fs::symlink;
use std::test::Fail;
use std::{fs, io};

#[test]
fn files_of_the_current_folder(rt: HostRuntime) -> Result<(), Fail> {
    let alloc = rt.alloc();
    let mut shelf = DirShelf::new(CurrentFolder(&rt));
    fs::create_dir_all(&rt, "dir_shelf/inner")?;
    fs::write(&rt, "dir_shelf/file.txt", "twelve bytes")?;
    match shelf.fetch(alloc, b"dir_shelf/file.txt", 12) {
        Ok(Found::Bytes(bytes)) => assert!(rt; bytes.as_slice() == b"twelve bytes".as_slice()),
        _ => return Err(Fail::from("the file")),
    }
    for limit in [0, 11] {
        let answer = shelf.fetch(alloc, b"dir_shelf/file.txt", limit);
        assert!(rt; matches!(answer, Ok(Found::TooLong)));
    }
    for name in [
        b"dir_shelf/none.txt".as_slice(),
        b"dir_shelf/inner".as_slice(),
        b"dir_shelf/file.txt/deeper".as_slice(),
        b"".as_slice(),
    ] {
        assert!(rt; matches!(shelf.fetch(alloc, name, 12), Ok(Found::Missing)));
    }
    assert_eq!(rt; shelf.faults(), 0);
    // Names that the system cannot take, and a link that leads to itself.
    symlink(&rt, "round", "dir_shelf/round")?;
    for name in [
        b"a\0b".as_slice(),
        b"\xff".as_slice(),
        [b'a'; 300].as_slice(),
        b"dir_shelf/round".as_slice(),
    ] {
        let answer = shelf.fetch(alloc, name, 12);
        assert!(rt; matches!(answer, Err(ShelfErr::Failed)));
    }
    assert_eq!(rt; shelf.faults(), 4);
    fs::remove_dir_all(&rt, "dir_shelf")?;
    Ok(())
}

#[test]
fn blanks_at_the_ends_belong_to_a_name(rt: HostRuntime) -> Result<(), Fail> {
    let alloc = rt.alloc();
    let mut shelf = DirShelf::new(CurrentFolder(&rt));
    fs::write(&rt, " ends\t", "blank")?;
    let answer = shelf.fetch(alloc, b" ends\t", 5);
    assert!(rt; matches!(answer, Ok(Found::Bytes(_))));
    for name in [
        b"ends".as_slice(),
        b" ends",
        b"ends\t",
        b"  ends\t",
        b" ends\t\n",
    ] {
        assert!(rt; matches!(shelf.fetch(alloc, name, 5), Ok(Found::Missing)));
    }
    fs::remove_file(&rt, " ends\t")?;
    Ok(())
}

/// A folder in memory, whose files give some bytes and then fail.
#[derive(Drop)]
struct Torn;

#[derive(Drop)]
struct TornFile {
    left: u8,
    failure: ErrorKind,
}

impl Folder for Torn {
    type File = TornFile;

    ghost files = { λ _. None };

    ghost calls = { λ _. None };

    fn open_file(&mut self, name: &[u8]) -> io::Result<TornFile> {
        let (left, failure) = match name {
            b"torn" => (3, ErrorKind::Other),
            b"large" => (3, ErrorKind::OutOfMemory),
            b" blanks " => (1, ErrorKind::Other),
            b"locked" => return Err(io::Error::from(ErrorKind::PermissionDenied)),
            b"crowded" => return Err(io::Error::from(ErrorKind::OutOfMemory)),
            _ => return Err(io::Error::from(ErrorKind::NotFound)),
        };
        Ok(TornFile { left, failure })
    }
}

impl Read for TornFile {
    fn read(&mut self, buf: &mut [u8]) -> io::Result<usize> {
        if self.left == 0 {
            return Err(io::Error::from(self.failure));
        }
        if buf.is_empty() {
            return Ok(0);
        }
        self.left -= 1;
        buf[0] = b'x';
        Ok(1)
    }
}

/// A folder whose first file cannot be opened, and whose others hold a byte.
#[derive(Drop)]
struct Stuck {
    opened: u64,
}

impl Folder for Stuck {
    type File = TornFile;

    ghost files = { λ _. None };

    ghost calls = { λ _. None };

    fn open_file(&mut self, _name: &[u8]) -> io::Result<TornFile> {
        self.opened = self.opened.saturating_add(1);
        if self.opened == 1 {
            return Err(io::Error::from(ErrorKind::Other));
        }
        Ok(TornFile {
            left: 1,
            failure: ErrorKind::Other,
        })
    }
}

/// The word for an answer.
fn word(answer: &Result<Found, ShelfErr>) -> &'static str {
    match answer {
        Ok(Found::Bytes(_)) => "bytes",
        Ok(Found::Missing) => "missing",
        Ok(Found::TooLong) => "too long",
        Err(ShelfErr::Failed) => "failed",
        Err(ShelfErr::OutOfMemory) => "out of memory",
    }
}

#[test]
fn faults_are_counted_and_want_of_memory_is_none(rt: HostRuntime) {
    let mut shelf = DirShelf::new(Torn);
    for (name, limit, want, faults) in [
        (b"torn".as_slice(), 3, "failed", 1),
        (b"locked".as_slice(), 1, "failed", 2),
        (b"torn".as_slice(), 2, "too long", 2),
        (b"large".as_slice(), 3, "out of memory", 2),
        (b"crowded".as_slice(), 3, "out of memory", 2),
        // A name is opened as it is, with blanks at its ends.
        (b" blanks ".as_slice(), 0, "too long", 2),
        (b"blanks".as_slice(), 0, "missing", 2),
        (b"torn ".as_slice(), 2, "missing", 2),
    ] {
        let answer = shelf.fetch(rt.alloc(), name, limit);
        assert_eq!(rt; word(&answer), want);
        assert_eq!(rt; shelf.faults(), faults);
    }
}

#[test]
fn a_fault_is_not_tried_again(rt: HostRuntime) {
    let mut shelf = DirShelf::new(Stuck { opened: 0 });
    for (want, faults) in [("failed", 1), ("too long", 1)] {
        let answer = shelf.fetch(rt.alloc(), b"a", 0);
        assert_eq!(rt; word(&answer), want);
        assert_eq!(rt; shelf.faults(), faults);
    }
    let mut out = StdSink::new(Balking { calls: 3 });
    for faults in 1..3u64 {
        assert!(rt; put_all(&mut out, b"ab") == Err(Failed));
        assert_eq!(rt; out.faults(), faults);
    }
    assert!(rt; put_all(&mut out, b"ab") == Ok(()));
    assert_eq!(rt; out.faults(), 2);
}

#[test]
fn standard_output_takes_bytes(rt: HostRuntime) {
    let mut out = StdSink::new(rt.stdout());
    assert!(rt; put_all(&mut out, b"written to standard output\n") == Ok(()));
    assert_eq!(rt; out.faults(), 0);
}

/// A writer whose calls in turn take nothing, are interrupted, take a byte, fail twice, and from
/// then on take a byte.
#[derive(Drop)]
struct Balking {
    calls: u64,
}

impl Write for Balking {
    fn write(&mut self, buf: &[u8]) -> io::Result<usize> {
        self.calls = self.calls.saturating_add(1);
        match self.calls {
            1 => Ok(0),
            2 => Err(io::Error::from(ErrorKind::Interrupted)),
            4 | 5 => Err(io::Error::from(ErrorKind::BrokenPipe)),
            _ => Ok(buf.len().min(1)),
        }
    }

    fn flush(&mut self) -> io::Result<()> {
        Ok(())
    }
}

#[test]
fn a_writer_that_balks_counts_faults(rt: HostRuntime) {
    let mut out = StdSink::new(Balking { calls: 0 });
    assert!(rt; out.put(b"ab") == Err(Failed));
    assert!(rt; out.put(b"ab") == Ok(1));
    assert!(rt; out.put(b"b") == Err(Failed));
    assert_eq!(rt; out.faults(), 2);
}
