//! What a line says.

ghost use Rattle.std.specs.Prelude.{◌≡◌};
ghost use Rattle.certify_recheck.specs.Lines.{line_of, numbered, plain_line_of};
ghost use Rattle.certify_recheck.specs.Numbers.{number_of};

use crate::number::number_of;

/// What a line of a certificate says, without the byte at its end.
#[derive(Clone, Copy, Debug, PartialEq, Eq)]
pub enum Line {
    /// `certificate 1`, the first line.
    Heading,
    /// `duty K`: the part of the obligation of this number, from 1 on.
    Duty(u32),
    /// `split V`: a tree with the variable true and one with it false.
    Split(u32),
    /// `clause N`: the clause of this number is false, from 0 on.
    Clause(u32),
    /// `theory`: what the atoms say has no model.
    Theory,
    /// `end`, the last line.
    End,
    /// Any other bytes.
    Other,
}

/// A line of a word alone.
fn read_plain(bytes: &[u8]) -> Line
    ensures { result ≡ plain_line_of bytes.now }
{
    if bytes == b"theory".as_slice() {
        Line::Theory
    } else if bytes == b"certificate 1".as_slice() {
        Line::Heading
    } else if bytes == b"end".as_slice() {
        Line::End
    } else {
        Line::Other
    }
}

/// What a line says.
#[tactic(auto, unfolding(crate::specs::Lines::line_of))]
pub fn read_line(bytes: &[u8]) -> Line
    ensures { result ≡ line_of bytes.now }
{
    if let Some(digits) = bytes.strip_prefix(b"clause ") {
        return number_of(digits).map_or(Line::Other, |n| Line::Clause(n));
    }
    if let Some(digits) = bytes.strip_prefix(b"split ") {
        return number_of(digits).map_or(Line::Other, |n| Line::Split(n));
    }
    if let Some(digits) = bytes.strip_prefix(b"duty ") {
        return number_of(digits).map_or(Line::Other, |n| Line::Duty(n));
    }
    read_plain(bytes)
}
