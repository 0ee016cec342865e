//! The input that lines stand for.

use std::alloc::{AllocError, Global};

/// The number that stands before the line, and the line; or 1 and the line where there is none.
pub(crate) fn repeated(line: &str) -> (u64, &str) {
    match line.split_once(" times ") {
        Some((number, rest)) => (number.parse().unwrap_or(1), rest),
        None => (1, line),
    }
}

/// The byte that a byte of a line stands for: `^` for one that is in no text, and a backquote for a
/// carriage return.
fn byte_of(byte: u8) -> u8 {
    match byte {
        b'^' => 0x80,
        b'`' => b'\r',
        _ => byte,
    }
}

/// Puts so many blanks behind the input.
fn put_blanks(input: &mut Vec<u8>, count: usize) -> Result<(), AllocError> {
    for _ in 0..count {
        input.push(b' ')?;
    }
    Ok(())
}

/// Puts the text behind the input.
fn put_bytes(input: &mut Vec<u8>, text: &str) -> Result<(), AllocError> {
    for byte in text.bytes() {
        input.push(byte_of(byte))?;
    }
    Ok(())
}

/// Puts the line behind those of the input: a number between two `~` stands for so many blanks.
fn put_line(input: &mut Vec<u8>, line: &str) -> Result<(), AllocError> {
    if !input.is_empty() {
        input.push(b'\n')?;
    }
    let mut is_count = false;
    for part in line.split('~') {
        if is_count {
            put_blanks(input, part.parse().unwrap_or(0))?;
        } else {
            put_bytes(input, part)?;
        }
        is_count = !is_count;
    }
    Ok(())
}

/// Puts the line behind the input as often as the number before it says, with the numbers from 0
/// for its `%`.
fn put_repeated(alloc: Global, input: &mut Vec<u8>, line: &str) -> Result<(), AllocError> {
    let (count, line) = repeated(line);
    for number in 0..count {
        let number = format!(in alloc; "{number}")?;
        let line = line.replace(alloc, "%", number.as_str())?;
        put_line(input, line.as_str())?;
    }
    Ok(())
}

/// The input that the lines stand for.
pub(crate) fn input_of(alloc: Global, lines: &str) -> Result<Vec<u8>, AllocError> {
    let mut input = Vec::new(alloc);
    for line in lines.split('\n') {
        put_repeated(alloc, &mut input, line)?;
    }
    Ok(input)
}
