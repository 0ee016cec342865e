//! The lines around the parts of a certificate.

ghost use Rattle.std.specs.Prelude.{◌≡◌, ◌+◌, ◌<◌, ◌≤◌, ◌↔◌, [], ◌∷◌, length, IfSome, IsTrue, MatchOption};
ghost use Rattle.certify_recheck.specs.Due.{IsNext, ending, heading};
ghost use Rattle.certify_recheck.specs.Spots.{IsBadLine, Passes};

use crate::line::Line;
use crate::reading::read_at;
use crate::spot::Spot;

/// Whether a line is a first one.
fn is_heading(line: Line) -> bool
    ensures { IsTrue result ↔ IsNext heading line }
{
    matches!(line, Line::Heading)
}

/// Whether a line is a last one.
fn is_ending(line: Line) -> bool
    ensures { IsTrue result ↔ IsNext ending line }
{
    matches!(line, Line::End)
}

/// The spot behind a first line; None where the line at the spot is no such line.
pub fn recheck_heading(text: &[u8], from: Spot) -> Option<Spot>
    requires at { from.at ≤ length text.now }
    requires line { from.line + length text.now < 18446744073709551615 }
    ensures passes { MatchOption result (IsBadLine text.now from (heading ∷ []) from.line)
        (Passes text.now from (heading ∷ [])) }
    ensures within { IfSome result (λ spot. spot.at ≤ length text.now) }
    ensures few { IfSome result (λ spot. spot.line + from.at ≤ from.line + spot.at) }
{
    let Some(read) = read_at(text, from.at) else {
        return None;
    };
    if !is_heading(read.line) {
        return None;
    }
    Some(Spot {
        at: read.next,
        line: from.line + 1,
    })
}

/// The spot behind a last line; None where the line at the spot is no such line.
pub fn recheck_ending(text: &[u8], from: Spot) -> Option<Spot>
    requires at { from.at ≤ length text.now }
    requires line { from.line + length text.now < 18446744073709551615 }
    ensures passes { MatchOption result (IsBadLine text.now from (ending ∷ []) from.line)
        (Passes text.now from (ending ∷ [])) }
    ensures within { IfSome result (λ spot. spot.at ≤ length text.now) }
    ensures few { IfSome result (λ spot. spot.line + from.at ≤ from.line + spot.at) }
{
    let Some(read) = read_at(text, from.at) else {
        return None;
    };
    if !is_ending(read.line) {
        return None;
    }
    Some(Spot {
        at: read.next,
        line: from.line + 1,
    })
}
