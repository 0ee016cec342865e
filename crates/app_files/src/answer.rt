//! What the program answers to its words.

ghost use Rattle.std.specs.Prelude.{◌≡◌};
ghost use Rattle.app_files.specs.Answer as spec;
ghost use Rattle.app_files.specs.Ends.{IsCutOff};
ghost use Rattle.check_scripts.specs.Views.{outcome_data};

use crate::refusal::Refusal;
use crate::status::Status;
use check_scripts::Outcome;
use type_schema::TScript;

/// What the check of a script found.
#[derive(Drop)]
pub struct Checked {
    /// The script, typed over its specification.
    pub script: TScript,
    /// The outcome of the check.
    pub outcome: Outcome,
}

/// What the checks of the two generated scripts found.
#[derive(Drop)]
pub struct Generated {
    /// How many commands each script has.
    pub commands: u32,
    /// Of the script that tightens the policies of each field.
    pub tightened: Checked,
    /// Of the script that does the same, but has no filters in one search of its last command.
    pub loosened: Checked,
}

/// What the program answers to its words.
#[derive(Drop)]
pub enum Answer {
    /// A script was checked.
    Checked(Checked),
    /// Two scripts were made and checked.
    Generated(Generated),
    /// The words are refused.
    Refused(Refusal),
}

impl Refusal {
    /// The status that goes with the refusal.
    pub fn status(&self) -> Status
        ensures found { result ≡ spec.refusal_status self.now }
        ensures decided { ¬ (IsCutOff result) }
    {
        match self {
            Refusal::Usage => Status::Usage,
            Refusal::Missing(_) => Status::Missing,
            Refusal::TooLong(_) => Status::TooLong,
            Refusal::Text(..) => Status::TextRefused,
            Refusal::SpecTypes(..) | Refusal::ScriptTypes(..) => Status::TypesRefused,
        }
    }
}

impl Checked {
    /// The status that goes with the outcome.
    pub fn status(&self) -> Status
        ensures found { result ≡ spec.outcome_status (outcome_data self.now.outcome) }
        ensures decided { ¬ (IsCutOff result) }
    {
        match self.outcome {
            Outcome::Accepted { .. } => Status::Done,
            Outcome::Leak(_) => Status::Leak,
            Outcome::Undecided { .. } => Status::Undecided,
            Outcome::TooLarge { .. } => Status::TooLarge,
        }
    }
}

impl Answer {
    /// The status that goes with the answer.
    pub fn status(&self) -> Status
        ensures found { result ≡ spec.status_of self.now }
        ensures decided { ¬ (IsCutOff result) }
    {
        match self {
            Answer::Checked(checked) => checked.status(),
            Answer::Generated(_) => Status::Done,
            Answer::Refused(refusal) => refusal.status(),
        }
    }
}
