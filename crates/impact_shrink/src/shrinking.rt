//! Witnesses made small.

ghost use Rattle.std.specs.Prelude.{IfOk};
ghost use Rattle.type_schema.specs.Script.{IsScript};
ghost use Rattle.type_schema.specs.SchemaViews.{script_of};
ghost use Rattle.check_report.specs.Views.{witness_data};
ghost use Rattle.impact_shrink.specs.Dropped.{IsRound};
ghost use Rattle.impact_shrink.specs.Real.{IsReal};
ghost use Rattle.impact_shrink.specs.Small.{over, IsPart, IsPartOf, IsSmall};

use crate::dropping::{Left, pass};
use crate::places::all_places;
use check_report::Witness;
use data_records::Database;
use std::alloc::{AllocError, Global};
use type_schema::TScript;

/// What is left of the base where each of its records was tried.
fn round(alloc: Global, t: &TScript, w: &Witness, base: Database) -> Result<Left, AllocError>
    requires script { IsScript (script_of t.now) }
    requires base { IsReal (script_of t.now) (over (witness_data w.now) base) }
    requires real { IsReal (script_of t.now) (witness_data w.now) }
    ensures { IfOk result (IsRound (script_of t.now) (witness_data w.now) base) }
{
    let places = all_places(alloc, &t.start, &base)?;
    pass(alloc, t, w, base, places.as_slice())
}

/// What is left of the base where no record can be dropped any more. A record that is dropped may
/// make another needless that was needed before, so all are tried anew until none is dropped.
fn smallest(alloc: Global, t: &TScript, w: &Witness, base: Database) -> Result<Database, AllocError>
    requires script { IsScript (script_of t.now) }
    requires base { IsReal (script_of t.now) (over (witness_data w.now) base) }
    requires real { IsReal (script_of t.now) (witness_data w.now) }
    ensures small { IfOk result (λ d. IsSmall (script_of t.now) (over (witness_data w.now) d)) }
    ensures part { IfOk result (λ d. IsPart d base) }
{
    let mut left = Left {
        base,
        dropped: true,
    };
    'rounds: while left.dropped {
        left = round(alloc, t, w, left.base)?;
    }
    Ok(left.base)
}

/// The witness over a small part of its base: it is real, and it is not without any one of the
/// records that are left, or the base is no database without it. What is left is as it was.
///
/// The witness is real. Records are tried from the last of the last model on, again until none is
/// dropped: as many times as there are records at most, mostly twice.
pub fn shrink(alloc: Global, w: &Witness, t: &TScript) -> Result<Witness, AllocError>
    requires script { IsScript (script_of t.now) }
    requires real { IsReal (script_of t.now) (witness_data w.now) }
    ensures small { IfOk result (λ s. IsSmall (script_of t.now) (witness_data s)) }
    ensures part { IfOk result (λ s. IsPartOf (witness_data s) (witness_data w.now)) }
{
    let copy = w.base.copy(alloc)?;
    let base = smallest(alloc, t, w, copy)?;
    Ok(Witness {
        command: w.command,
        target: w.target,
        right: w.right,
        base,
        row: w.row,
        who: w.who,
        cell: w.cell,
    })
}
