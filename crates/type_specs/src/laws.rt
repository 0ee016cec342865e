//! Laws over the definitions alone. Each is the contract of a function that does nothing.

ghost use Rattle.type_specs.specs.Worked.{WorkedSpecs};

/// Worked specifications and faults, which show what they give and which fault is the first.
#[tactic(auto, using(crate::proofs::WorkedSpecs::worked))]
pub fn worked_specs()
    ensures { WorkedSpecs }
{}
