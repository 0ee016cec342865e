//! One obligation's part of a certificate, written.

ghost use Rattle.std.specs.Prelude.{◌<◌, ◌≤◌, IfErr, OnOk};
ghost use Rattle.certify_making.specs.Faults.{IsFault, IsWrittenPart};
ghost use Rattle.certify_clauses.specs.InMemory.{problem_in};
ghost use Rattle.certify_making.specs.Open.{HasVarsBelow};

use crate::fault::CertErr;
use crate::making::part_text;
use app_flow::{Sink, put_all};
use certify_clauses::ListedClauses;
use std::alloc::Global;

/// Writes one obligation's part of a certificate: the line `duty K` and a lawful tree over clauses
/// that have no lawful assignment. The part is made first, so memory goes with its text.
///
/// # Errors
///
/// - `NotRefuted`, exactly where some assignment is lawful: nothing was appended.
/// - `WriteFault`, only where the sink counted a fault: a front of a part was appended.
/// - `OutOfMemory`: nothing was.
pub fn certify<W: Sink>(
    alloc: Global,
    duty: u32,
    c: &ListedClauses,
    out: &mut W,
) -> Result<(), CertErr>
    requires small { duty < 2000000000 }
    requires below { HasVarsBelow (problem_in c.now) }
    ensures ok { OnOk result (IsWrittenPart (W.told out.old) (W.told out.new)
        (problem_in c.now) duty) }
    ensures err { IfErr result (IsFault W.told W.faults out.old out.new (problem_in c.now) duty) }
    ensures never_falls { W.faults out.old ≤ W.faults out.new }
{
    let Some(text) = part_text(alloc, duty, c)? else {
        return Err(CertErr::NotRefuted);
    };
    put_all(out, text.as_slice())?;
    Ok(())
}
