//! Laws over the definitions alone. Each is the contract of a function that does nothing.

ghost use Rattle.type_anew.specs.RetypingKept.{CommandsKeepRoom, ScriptsKeepRoom, SpecsHaveRoom};
ghost use Rattle.type_anew.specs.RetypingLaws.{TreesAreResolved, TreesAreTyped};

/// No rule but those on sizes refuses the tree of a proper schema that is told by it and within
/// the limits on numbers.
#[tactic(auto, using(crate::proofs::Typed::trees_are_resolved))]
pub fn trees_are_resolved()
    ensures { TreesAreResolved }
{}

/// No rule at all refuses it where the policies of the schema are within the limit on sizes.
#[tactic(auto, using(crate::proofs::Typed::trees_are_typed))]
pub fn trees_are_typed()
    ensures { TreesAreTyped }
{}

/// The schema of a specification is within the limits.
pub fn specs_have_room()
    ensures { SpecsHaveRoom }
{}

/// A proper schema within the limits is so after each command that typing gives.
pub fn commands_keep_room()
    ensures { CommandsKeepRoom }
{}

/// So is each schema on the way of a script that is typed over such a one.
pub fn scripts_keep_room()
    ensures { ScriptsKeepRoom }
{}
