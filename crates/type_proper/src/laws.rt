//! Laws over the definitions alone. Each is the contract of a function that does nothing.

ghost use Rattle.type_proper.specs.Fits.{CommandsKeepSteady, ResolvedFit};
ghost use Rattle.type_proper.specs.Scripts.{ScriptsAreTyped, StepsAreSteady};
ghost use Rattle.type_proper.specs.Shown.{TypedAreShown};
ghost use Rattle.type_proper.specs.Specs.{SpecsAreSteady};

/// What typing gives shows the type of each option that is taken apart.
#[tactic(auto, using(crate::proofs::ShownTrees::typed_are_shown))]
pub fn options_are_shown()
    ensures { TypedAreShown }
{}

/// A schema that is proper, and stays so, is that after each command that fits it.
#[tactic(auto, using(crate::proofs::Steadily::commands_keep_steady))]
pub fn commands_keep_steady()
    ensures { CommandsKeepSteady }
{}

/// What a command is over a schema that is proper, and stays so, fits it, where its literals are
/// values.
#[tactic(auto, using(crate::proofs::Resolved::resolved_fit))]
pub fn resolved_fit()
    ensures { ResolvedFit }
{}

/// The schema after a command that is typed over a schema that is proper, and stays so.
#[tactic(auto, using(crate::proofs::Scripted::steps_are_steady))]
pub fn steps_are_steady()
    ensures { StepsAreSteady }
{}

/// A script that is typed over a schema that is proper, and stays so, is well typed.
pub fn scripts_are_typed()
    ensures { ScriptsAreTyped }
{}

/// The schema of a specification is proper, and stays so, where its literals are values.
pub fn specs_are_steady()
    ensures { SpecsAreSteady }
{}
