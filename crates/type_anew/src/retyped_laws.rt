//! Laws over the definitions alone. Each is the contract of a function that does nothing.

ghost use Rattle.type_anew.specs.RetypedKept.{CommandsKeepTold, ScriptsAreTold, SpecsAreTold};
ghost use Rattle.type_anew.specs.RetypedLaws.{CountsStay, PoliciesComeAnew, RightsStay, SchemasComeAnew};

/// The schema of a specification is told by the tree that it is written as.
#[tactic(auto, using(crate::proofs::RetypedKept::specs_are_told))]
pub fn specs_are_told()
    ensures { SpecsAreTold }
{}

/// A schema that is told by its tree is so after each command that typing gives.
#[tactic(auto, using(crate::proofs::RetypedKept::commands_keep_told))]
pub fn commands_keep_told()
    ensures { CommandsKeepTold }
{}

/// So is each schema on the way of a script that is typed over such a one.
#[tactic(auto, using(crate::proofs::RetypedKept::scripts_are_told))]
pub fn scripts_are_told()
    ensures { ScriptsAreTold }
{}

/// What typing gives of the tree of a schema has as many models and fields.
#[tactic(auto, using(crate::proofs::AnewSchemas::counts_stay))]
pub fn counts_stay()
    ensures { CountsStay }
{}

/// What typing gives of the tree of a proper schema is that schema numbered anew.
pub fn schemas_come_anew()
    ensures { SchemasComeAnew }
{}

/// What typing gives of the tree of a proper schema that is told by it has its policies with new
/// numbers.
#[tactic(auto, using(crate::proofs::AnewSchemas::policies_come_anew))]
pub fn policies_come_anew()
    ensures { PoliciesComeAnew }
{}

/// So that gives, on databases numbered anew, the rights that the schema gave.
#[tactic(auto, using(crate::proofs::Rights::rights_stay))]
pub fn rights_stay()
    ensures { RightsStay }
{}
