//! Outcomes with a small witness.

ghost use Rattle.std.specs.Prelude.{IfOk};
ghost use Rattle.type_schema.specs.Script.{IsScript};
ghost use Rattle.type_schema.specs.SchemaViews.{script_of};
ghost use Rattle.check_scripts.specs.Outcomes.{IsOutcome};
ghost use Rattle.check_scripts.specs.Views.{outcome_data};
ghost use Rattle.impact_shrink.specs.Shown.{IsMadeSmall};

use crate::shrinking::shrink;
use check_scripts::Outcome;
use std::alloc::{AllocError, Global};
use type_schema::TScript;

/// The outcome of a script, with its witness made small.
pub fn made_small(alloc: Global, t: &TScript, outcome: Outcome) -> Result<Outcome, AllocError>
    requires script { IsScript (script_of t.now) }
    requires outcome { IsOutcome (script_of t.now) (outcome_data outcome) }
    ensures { IfOk result (λ made. IsMadeSmall (script_of t.now) (outcome_data outcome)
        (outcome_data made)) }
{
    match outcome {
        Outcome::Leak(w) => {
            let small = shrink(alloc, &w, t)?;
            Ok(Outcome::Leak(small))
        }
        Outcome::Accepted { duties } => Ok(Outcome::Accepted { duties }),
        Outcome::Undecided { duty, cycle } => Ok(Outcome::Undecided { duty, cycle }),
        Outcome::TooLarge { duty, terms, nodes } => Ok(Outcome::TooLarge { duty, terms, nodes }),
    }
}
