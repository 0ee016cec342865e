//! Laws over the definitions alone. Each is the contract of a function that does nothing.

ghost use Rattle.type_typing.specs.WellTyped.{TypedIsWellTyped};
ghost use Rattle.type_typing.specs.Worked.{WorkedTypes};

/// Worked types and faults, which show what typing gives of expressions and sets.
#[tactic(auto, using(crate::proofs::WorkedTypes::worked))]
pub fn worked_types()
    ensures { WorkedTypes }
{}

/// A policy and an initialiser that typing gives are well typed.
#[tactic(auto, using(crate::proofs::Sound::typed_is_well_typed))]
pub fn typed_is_well_typed()
    ensures { TypedIsWellTyped }
{}
