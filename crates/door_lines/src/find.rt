//! Where a newline stands.
ghost use Rattle.std.specs.Prelude.{◌≡◌, ◌∷◌, ◌+◌, ◌<◌, drop, length, take, MatchOption};
ghost use Rattle.door_lines.specs.Lines.{IsInLine};
ghost use Rattle.door_lines.specs.Finds.{IsFirstNewline};

use memchr::memchr;

/// The place of the first newline.
pub(crate) fn first_newline(bytes: &[u8]) -> Option<usize>
    ensures { MatchOption result (IsInLine bytes.now) (IsFirstNewline bytes.now) }
{
    memchr(b'\n', bytes)
}
