//! The whole lines of a text.

ghost use Rattle.std.specs.Prelude.{◌≡◌, ◌≤◌, [], drop, length, MatchOption};
ghost use Rattle.certify_recheck.specs.Lines.{whole_lines};
ghost use Rattle.certify_recheck.specs.Spots.{IsRead};

use crate::line::{Line, read_line};
use memchr::memchr;

/// What a line says, and where the next one begins.
#[derive(Clone, Copy)]
pub(crate) struct Read {
    pub(crate) line: Line,
    pub(crate) next: usize,
}

/// The first line from a byte on, if a whole one begins there.
pub(crate) fn read_at(text: &[u8], at: usize) -> Option<Read>
    requires { at ≤ length text.now }
    ensures { MatchOption result (whole_lines (drop at text.now) ≡ [])
        (λ read. IsRead text.now at read.line read.next) }
{
    let rest = &text[at..];
    match memchr(b'\n', rest) {
        None => None,
        Some(len) => Some(Read {
            line: read_line(&rest[..len]),
            next: at + len + 1,
        }),
    }
}
