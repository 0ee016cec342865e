//! Laws over the definitions alone. Each is the contract of a function that does nothing.

ghost use Rattle.type_scripts.specs.Asked.{AllowedIsCounted, ReachIsCounted};
ghost use Rattle.type_scripts.specs.Small.{FormulasAreSmall};
ghost use Rattle.type_scripts.specs.Typed.{TypedFormulasAreSmall};
ghost use Rattle.type_scripts.specs.Worked.{WorkedRemoved};

/// A policy, asked about any principal on any record and below any quantifiers, is no larger than
/// its size over the same schema, and neither is its negation.
#[tactic(auto, using(crate::proofs::SmallCounted::allowed_is_counted))]
pub fn allowed_is_counted()
    ensures { AllowedIsCounted }
{}

/// That a use of an initialiser reads a record is no larger than it is counted there.
#[tactic(auto, using(crate::proofs::SmallCounted::reach_is_counted))]
pub fn reach_is_counted()
    ensures { ReachIsCounted }
{}

/// The formula of an obligation is at most three times as large as a policy or an initialiser of
/// the script may be, and five more.
pub fn formulas_are_small()
    ensures { FormulasAreSmall }
{}

/// So no obligation of a script that is typed over a typed specification, policies and initialisers
/// being counted, has a formula of more than 60,005 nodes.
pub fn typed_formulas_are_small()
    ensures { TypedFormulasAreSmall }
{}

/// Two worked scripts whose added fields keep truth values of fields that they remove: an
/// initialiser is counted as 1,143, a policy as 1,145, and the obligation has 1,149 nodes; another
/// initialiser is counted as 27,855, as over the schema of start databases.
#[tactic(auto, using(crate::proofs::WorkedRemoved::worked_removed))]
pub fn worked_removed()
    ensures { WorkedRemoved }
{}
