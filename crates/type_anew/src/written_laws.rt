//! Laws over the definitions alone. Each is the contract of a function that does nothing.

ghost use Rattle.type_anew.specs.RoundTrip.{CommandsComeBack, SpecsComeBack, WrittenIsStripped};

/// The schema of a specification is written as the tree of the specification, offsets aside.
#[tactic(auto, using(crate::proofs::TypedSpecs::specs_come_back))]
pub fn specs_come_back()
    ensures { SpecsComeBack }
{}

/// After a command, a schema is written as the tree that it was written as, with what the command
/// changes of it, as it was written.
#[tactic(auto, using(crate::proofs::Commands::commands_come_back))]
pub fn commands_come_back()
    ensures { CommandsComeBack }
{}

/// What a schema is written as has no offsets: two schemas that are written as trees that are
/// equal, offsets aside, are written as one.
#[tactic(auto, using(crate::proofs::Still::written_is_stripped))]
pub fn written_is_stripped()
    ensures { WrittenIsStripped }
{}
