//! Lines with their replies.

use crate::lines::repeated;
use std::str::SplitTerminator;
use std::{io, str};

/// How many replies the line should have: none where it begins with a blank, or has not a byte.
fn replies_to(line: &str) -> u64 {
    if line.is_empty() || line.starts_with(' ') {
        return 0;
    }
    repeated(line).0
}

/// Prints so many replies, or as many as are left: of equal ones that follow one another the first.
fn print_replies(
    rt: &HostRuntime,
    replies: &mut SplitTerminator<'_, char>,
    count: u64,
) -> io::Result<()> {
    let mut last = b"".as_slice();
    for _ in 0..count {
        let Some(reply) = replies.next() else {
            return Ok(());
        };
        if reply.as_bytes() != last {
            println!(rt; "> {reply}")?;
        }
        last = reply.as_bytes();
    }
    Ok(())
}

/// Prints each line, and its reply below it; then the replies that are left.
pub(crate) fn print_transcript(rt: &HostRuntime, lines: &str, output: &[u8]) -> io::Result<()> {
    let Ok(output) = str::from_utf8(output) else {
        return println!(rt; "no text");
    };
    let mut replies = output.split_terminator('\n');
    for line in lines.split_terminator('\n') {
        println!(rt; "{line}")?;
        print_replies(rt, &mut replies, replies_to(line))?;
    }
    for reply in replies {
        println!(rt; "> {reply}")?;
    }
    Ok(())
}
