//! What the command answers.

ghost use Rattle.std.specs.Prelude.{◌≡◌};
ghost use Rattle.app_files.specs.Ends.{IsCutOff};
ghost use Rattle.app_impact.specs.Answer as spec;

use app_files::{Refusal, Status};
use impact_effects::Effect;
use sqlite_items::Items;
use type_schema::TScript;

/// What the declared weakenings of a script newly allow.
#[derive(Drop)]
pub struct Impact {
    /// The script, typed over its specification.
    pub script: TScript,
    /// One effect for each command that weakens, each right that it gives and each kind, in order.
    pub effects: Items<Effect>,
}

/// What the command answers.
#[derive(Drop)]
pub enum ImpactAnswer {
    /// The weakenings of the script were looked at.
    Found(Impact),
    /// A file is refused.
    Refused(Refusal),
}

impl ImpactAnswer {
    /// The status that goes with the answer.
    pub fn status(&self) -> Status
        ensures found { result ≡ spec.status_of self.now }
        ensures decided { ¬ (IsCutOff result) }
    {
        match self {
            ImpactAnswer::Found(_) => Status::Done,
            ImpactAnswer::Refused(refusal) => refusal.status(),
        }
    }
}
