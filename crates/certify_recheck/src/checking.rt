//! One obligation's part of a certificate.

ghost use Rattle.std.specs.Prelude.{◌≡◌, ◌+◌, ◌<◌, ◌≤◌, ℕ, Bool, [], ◌∷◌, drop, length, IfErr, IfOk, IsTrue, OnOk, ◌↔◌};
ghost use Rattle.certify_clauses.specs.Problem.{IsLawfulAssignment, Problem};
ghost use Rattle.certify_recheck.specs.Due.{IsNext, part};
ghost use Rattle.certify_recheck.specs.Lines.{whole_lines};
ghost use Rattle.certify_recheck.specs.Spots.{IsFault, IsPart, IsRefusal, Passes};

use crate::fault::RecheckErr;
use crate::line::Line;
use crate::reading::read_at;
use crate::spot::Spot;
use crate::theories::procedures;
use crate::walk::walk;
use certify_clauses::Clauses;
use std::alloc::Global;

/// Whether a line is that of an obligation.
fn is_duty(line: Line, duty: u32) -> bool
    ensures { (problem : Problem) → IsTrue result ↔ IsNext (part problem duty) line }
{
    match line {
        Line::Duty(number) => number == duty,
        Line::Heading | Line::Split(_) | Line::Clause(_) | Line::Theory | Line::End | Line::Other =>
            false,
    }
}

/// Goes over an obligation's part from a spot on, by what is due.
fn pass<C: Clauses>(
    alloc: Global,
    duty: u32,
    c: &C,
    text: &[u8],
    from: Spot,
) -> Result<Spot, RecheckErr>
    requires at { from.at ≤ length text.now }
    requires line { from.line + length text.now < 18446744073709551615 }
    ensures ok { IfOk result (Passes text.now from (part (C.problem c.now) duty ∷ [])) }
    ensures within { IfOk result (λ spot. spot.at ≤ length text.now) }
    ensures few { IfOk result (λ spot. spot.line + from.at ≤ from.line + spot.at) }
    ensures bad { IfErr result (IsRefusal text.now from (part (C.problem c.now) duty ∷ [])) }
{
    let Some(read) = read_at(text, from.at) else {
        return Err(RecheckErr::BadLine { line: from.line });
    };
    if !is_duty(read.line, duty) {
        return Err(RecheckErr::BadLine { line: from.line });
    }
    let mut told = procedures(alloc, c)?;
    let behind = Spot {
        at: read.next,
        line: from.line + 1,
    };
    walk(alloc, c, &mut told, text, behind)
}

/// Checks one obligation's part of a certificate, a line `duty K` and a lawful tree over the
/// obligation's clauses, from a spot of the text on; gives the spot behind it.
///
/// Takes memory for a path and for what its atoms say, and none for the text.
///
/// # Errors
///
/// - `BadLine` with the number of the first line that is not the next one of a lawful part: where
///   a line is wrong, or none is left.
/// - `OutOfMemory`.
pub fn recheck<C: Clauses>(
    alloc: Global,
    duty: u32,
    c: &C,
    text: &[u8],
    from: Spot,
) -> Result<Spot, RecheckErr>
    requires at { from.at ≤ length text.now }
    requires line { from.line + length text.now < 18446744073709551615 }
    ensures ok { IfOk result (IsPart text.now from (C.problem c.now) duty) }
    ensures refutes { OnOk result ((a : ℕ → Bool) → IsLawfulAssignment (C.problem c.now) a → ⊥) }
    ensures fault { IfErr result (IsFault text.now from (C.problem c.now) duty) }
    ensures within { IfOk result (λ spot. spot.at ≤ length text.now) }
    ensures few { IfOk result (λ spot. spot.line + from.at ≤ from.line + spot.at) }
{
    pass(alloc, duty, c, text, from)
}
