//! What a run came to.

use crate::objects::Ended;
use std::alloc::AllocError;

/// What a run came to.
#[derive(Clone, Copy, PartialEq, Eq)]
pub(crate) struct Found {
    /// Its status.
    pub(crate) status: u8,
    /// How many whole lines it put out.
    pub(crate) lines: usize,
    /// Whether the output ends inside a line.
    pub(crate) is_cut: bool,
    /// Whether it is a front of what is put out where no call fails.
    pub(crate) is_front: bool,
    /// Which store was left.
    pub(crate) store: usize,
}

/// How many lines end in the text.
fn lines_in(text: &[u8]) -> usize {
    let mut lines = 0usize;
    for byte in text {
        if *byte == b'\n' {
            lines = lines.saturating_add(1);
        }
    }
    lines
}

/// What the run came to, where `whole` is put out if no call fails.
pub(crate) fn found_of(ended: &Ended, whole: &[u8], store: usize) -> Found {
    let output = ended.output.as_slice();
    Found {
        status: ended.status,
        lines: lines_in(output),
        is_cut: !output.is_empty() && !output.ends_with(b"\n"),
        is_front: whole.starts_with(output),
        store,
    }
}

/// The number of what is shown among all that was seen.
pub(crate) fn number_of(seen: &mut Vec<Vec<u8>>, shown: Vec<u8>) -> Result<usize, AllocError> {
    for (number, text) in seen.as_slice().iter().enumerate() {
        if text.as_slice() == shown.as_slice() {
            return Ok(number);
        }
    }
    let number = seen.len();
    seen.push(shown)?;
    Ok(number)
}
