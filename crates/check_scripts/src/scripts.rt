//! The check of a whole script.

ghost use Rattle.std.specs.Prelude.{◌≡◌, IfOk};
ghost use Rattle.type_schema.specs.Script.{IsScript};
ghost use Rattle.type_schema.specs.SchemaViews.{script_of};
ghost use Rattle.check_scripts.specs.Outcomes.{IsOutcome};
ghost use Rattle.check_scripts.specs.Views.{outcome_data};

use crate::formulas::Formulas;
use crate::known::Known;
use crate::obligations::unsettled;
use crate::outcome::Outcome;
use duty_listing::duties;
use duty_numbering::{Numbering, signature_of};
use std::alloc::{AllocError, Global};
use type_schema::TScript;

/// Checks a script: its obligations are decided one after another, by formulas that are made for
/// each, up to the first that is not cleared. One whose formula was cleared already is not decided
/// again. What one takes of memory is given back before the next, but for the latest small formulas
/// that were cleared.
pub fn check_script<F: Formulas>(
    alloc: Global,
    formulas: &F,
    t: &TScript,
) -> Result<Outcome, AllocError>
    requires { IsScript (script_of t.now) }
    ensures { IfOk result (λ outcome. IsOutcome (script_of t.now) (outcome_data outcome)) }
{
    let numbering = Numbering::of(alloc, &t.start)?;
    let signature = signature_of(alloc, &t.start)?;
    let duties = duties(alloc, t)?;
    let mut known = Known::new(alloc, &signature);
    for duty in duties.as_slice() {
        match unsettled(
            alloc, formulas, t, &numbering, &signature, *duty, &mut known,
        )? {
            Some(outcome) => return Ok(outcome),
            None => {}
        }
    }
    Ok(Outcome::Accepted {
        duties: duties.len() as u64,
    })
}
