//! Laws over the definitions alone. Each is the contract of a function that does nothing.

ghost use Rattle.type_commands.specs.CommandLaw.{CommandsAreResolved};
ghost use Rattle.type_commands.specs.Worked.{WorkedCommands};

/// Worked commands and faults, which show which fault is the first and where it stands.
#[tactic(auto, using(crate::proofs::WorkedCommands::worked))]
pub fn worked_commands()
    ensures { WorkedCommands }
{}

/// What a command is over a schema is a command over it: what it names is there, what it adds has
/// the next free numbers, and it gives a policy where it changes some. This is so of each command
/// that the grammar spells, where the initialiser that it gives is well typed.
#[tactic(auto, using(crate::proofs::CommandLaw::commands_are_resolved))]
pub fn commands_are_resolved()
    ensures { CommandsAreResolved }
{}
