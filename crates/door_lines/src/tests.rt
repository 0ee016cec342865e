//! What no clause says: that calls succeed where there is memory, and readers that fail.

use crate::{FlowErr, Line, LineBuf, MemSource, Source, StdSource, SureSource, read_all};
use std::alloc::Global;
use std::io;
use std::io::{ErrorKind, Read};
use std::test::Fail;

/// What the calls for lines answer, up to the end or the budget: a line and a bar, `*` for one that
/// is cut, `?` for a fault, `!` for the budget.
fn answers<S: Source>(
    alloc: Global,
    src: &mut S,
    line_limit: usize,
    budget: u64,
) -> Result<Vec<u8>, Fail> {
    let mut found = Vec::new(alloc);
    if line_limit == 0 || budget == 0 {
        return Err(Fail::from("a limit"));
    }
    let mut lines = LineBuf::new(alloc, line_limit, budget)?;
    for _ in 0..64 {
        match lines.next_line(src) {
            Ok(Line::Text(start, end)) => {
                found.extend_from_slice(lines.bytes(start, end))?;
                found.push(b'|')?;
            }
            Ok(Line::Cut) => found.extend_from_slice(b"*|")?,
            Ok(Line::End) => return Ok(found),
            Err(FlowErr::ReadFault) => found.push(b'?')?,
            Err(_) => {
                found.push(b'!')?;
                return Ok(found);
            }
        }
    }
    Ok(found)
}

fn bytes(alloc: Global, text: &[u8]) -> Result<Vec<u8>, Fail> {
    Ok(Vec::from_slice(alloc, text)?)
}

#[test]
fn lines_of_an_input(rt: HostRuntime) -> Result<(), Fail> {
    let alloc = rt.alloc();
    let rows: [(&[u8], &[u8]); 8] = [
        (b"", b""),
        (b"\n", b"|"),
        (b"ab\ncd", b"ab|cd|"),
        (b"abcde\n\nf\n", b"abcde||f|"),
        (b"abcdef\nab", b"*|ab|"),
        (b"abcdefghijklm\r\n", b"*|"),
        (b"abcdefghijklm", b"*|"),
        (b"abcd\r\n", b"abcd\r|"),
    ];
    for (input, wanted) in rows.iter() {
        for step in 1..9 {
            let mut src = MemSource::new(bytes(alloc, input)?, step, Vec::new(alloc));
            let found = answers(alloc, &mut src, 5, 1000)?;
            assert!(rt; found.as_slice() == *wanted);
        }
        let mut src = SureSource::new(bytes(alloc, input)?);
        let found = answers(alloc, &mut src, 5, 1000)?;
        assert!(rt; found.as_slice() == *wanted);
    }
    Ok(())
}

#[test]
fn faults_and_the_budget(rt: HostRuntime) -> Result<(), Fail> {
    let alloc = rt.alloc();
    let failing = Vec::from_slice(alloc, &[0, 3])?;
    let mut src = MemSource::new(bytes(alloc, b"abc\nd\n")?, 2, failing);
    assert!(rt; answers(alloc, &mut src, 5, 1000)?.as_slice() == b"?abc|?d|".as_slice());
    let mut src = SureSource::new(bytes(alloc, b"ab\ncd\nef\n")?);
    assert!(rt; answers(alloc, &mut src, 5, 5)?.as_slice() == b"ab|!".as_slice());
    let mut src = SureSource::new(bytes(alloc, b"ab\ncd\n")?);
    assert!(rt; answers(alloc, &mut src, 5, 6)?.as_slice() == b"ab|cd|!".as_slice());
    Ok(())
}

#[test]
fn all_bytes(rt: HostRuntime) -> Result<(), Fail> {
    let alloc = rt.alloc();
    let long = vec![in alloc; b'x'; 5000]?;
    let mut src = SureSource::new(bytes(alloc, long.as_slice())?);
    let found = read_all(alloc, &mut src, 5000)?;
    assert!(rt; found.as_slice() == long.as_slice());
    let mut src = SureSource::new(long);
    assert!(rt; read_all(alloc, &mut src, 4999).is_err());
    Ok(())
}

/// A reader that is interrupted, gives a byte, fails, and then ends.
#[derive(Drop)]
struct Torn {
    turn: u8,
}

impl Read for Torn {
    fn read(&mut self, buf: &mut [u8]) -> io::Result<usize> {
        self.turn = self.turn.saturating_add(1);
        match self.turn {
            1 => Err(io::Error::from(ErrorKind::Interrupted)),
            2 if !buf.is_empty() => {
                buf[0] = b'x';
                Ok(1)
            }
            3 => Err(io::Error::from(ErrorKind::Other)),
            _ => Ok(0),
        }
    }
}

#[test]
fn a_reader_that_fails(rt: HostRuntime) -> Result<(), Fail> {
    let alloc = rt.alloc();
    let mut src = StdSource::new(Torn { turn: 0 });
    assert!(rt; answers(alloc, &mut src, 5, 1000)?.as_slice() == b"?x|".as_slice());
    assert_eq!(rt; src.faults(), 1);
    Ok(())
}
