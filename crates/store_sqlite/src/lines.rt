//! The lines of a table's text.

/// A text by its lines. A line of a table holds no newline, since the texts in it are quoted.
#[derive(Drop)]
pub(crate) struct Lines<'a> {
    rest: &'a [u8],
}

impl<'a> Lines<'a> {
    /// The lines of the text.
    pub fn new(text: &'a [u8]) -> Lines<'a> {
        Lines { rest: text }
    }

    /// The next line, without its newline, or None where there is none.
    pub fn next(&mut self) -> Option<&'a [u8]> {
        let rest = self.rest;
        let end = rest.iter().position(|byte| *byte == b'\n')?;
        self.rest = &rest[end + 1..];
        Some(&rest[..end])
    }
}

/// The part of a record's line that begins with the brace.
pub(crate) fn from_brace(line: &[u8]) -> Option<&[u8]> {
    let start = line.iter().position(|byte| *byte == b'{')?;
    Some(&line[start..])
}

/// Whether the text of a record stands between braces on one line.
pub(crate) fn is_line(line: &[u8]) -> bool {
    match line {
        [b'{', .., b'}'] => !line.contains(&b'\n'),
        _ => false,
    }
}
