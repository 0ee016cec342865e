//! Commands.

ghost use Rattle.type_schema.specs.SchemaViews.{command_of};
ghost use Rattle.type_typing.specs.Names.{plain_of};
ghost use Rattle.type_typing.specs.Outcome.{Gives};
ghost use Rattle.type_specs.specs.InTurn.{GivesSeen};
ghost use Rattle.type_commands.specs.Commands.{command_is_small, typed_command};
ghost use Rattle.type_scripts.specs.Counted.{counted, step_of};

use crate::places::command_places;
use crate::sizes::Sizes;
use duty_numbering::Numbering;
use std::alloc::Global;
use text_tree::Command;
use type_commands::{resolved, schema_after};
use type_schema::{Schema, TCommand};
use type_typing::TypeErr;

/// What the command gives is within the limit, over the schema after it.
#[tactic(auto, using(crate::proofs::Counted::small_counted, crate::proofs::Counted::counted_nowhere), unfolding(type_commands::specs::Commands::command_is_small, type_typing::specs::Names::plain_of))]
fn command_is_small(
    alloc: Global,
    after: &Schema,
    command: &TCommand,
    c: &Command,
) -> Result<(), TypeErr>
    ensures { Gives (command_is_small counted (plain_of after.now) (command_of command.now) c.now)
        result }
{
    let places = command_places(alloc, c)?;
    if places.is_empty() {
        // Nothing is counted, so no numbers are needed.
        return Ok(());
    }
    let numbering = Numbering::of(alloc, after)?;
    let sizes = Sizes {
        schema: after,
        numbering: &numbering,
    };
    sizes.whole_command(alloc, command, places.as_slice())
}

/// The schema after a command over a schema, and what the command is; or its first fault and the
/// place.
#[tactic(auto, unfolding(type_commands::specs::Commands::typed_command))]
pub fn step_command(
    alloc: Global,
    schema: &Schema,
    c: &Command,
) -> Result<(Schema, TCommand), TypeErr>
    ensures { GivesSeen step_of (typed_command counted (plain_of schema.now) c.now) result }
{
    let command = resolved(alloc, schema, c)?;
    let after = schema_after(alloc, schema, &command)?;
    command_is_small(alloc, &after, &command, c)?;
    Ok((after, command))
}
