//! Laws over the definitions alone. Each is the contract of a function that does nothing.

ghost use Rattle.data_meaning.specs.Agreeing.{TouchedSettlesAll};
ghost use Rattle.data_meaning.specs.Runs.{RunsKeepDatabases, WidenedStarts};
ghost use Rattle.data_meaning.specs.Secure.{StepsSecureWhole};
ghost use Rattle.data_meaning.specs.Sound.{MembersAreThere, ValuesAreTyped};
ghost use Rattle.data_meaning.specs.Worked.{WorkedValues};

/// On every script, no gain and no flow leak at any command means that the whole script is secure.
#[tactic(auto, using(crate::proofs::Steps::whole))]
pub fn steps_secure_whole()
    ensures { StepsSecureWhole }
{}

/// From a start database a run of a script goes through databases, each over the schema that is
/// there after its command.
#[tactic(auto, using(crate::proofs::Runs::keeps))]
pub fn runs_keep_databases()
    ensures { RunsKeepDatabases }
{}

/// Databases that agree on the ids of each model, and on the cells that an expression, a set or an
/// initialiser touches, give it the same meaning and touch the same cells.
#[tactic(auto, using(crate::proofs::TouchedCells::settles))]
pub fn touched_settles()
    ensures { TouchedSettlesAll }
{}

/// A database over the schema before a script, with no further tables, is widened to a start
/// database.
#[tactic(auto, using(crate::proofs::Widened::starts))]
pub fn widened_starts()
    ensures { WidenedStarts }
{}

/// Worked values, which show what the definitions give on two records.
#[tactic(auto, using(crate::proofs::WorkedValues::worked))]
pub fn worked_values()
    ensures { WorkedValues }
{}

/// On a database over a schema, a well typed expression has a value of its type, and each id in it
/// names a record that is there.
pub fn values_are_typed()
    ensures { ValuesAreTyped }
{}

/// On a database over a schema, each member of a well typed set of records of a model is a record
/// of the model that is there.
pub fn members_are_there()
    ensures { MembersAreThere }
{}
