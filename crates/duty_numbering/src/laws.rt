//! Laws over the definitions alone. Each is the contract of a function that does nothing.

ghost use Rattle.duty_numbering.specs.Signatures.{StartTypesAreThere};

/// The schema of the start databases of a script has the models that its types name.
#[tactic(auto, using(crate::proofs::SignatureLaws::start_types_are_there))]
pub fn start_types_are_there()
    ensures { StartTypesAreThere }
{}
