//! Scripts.

ghost use Rattle.std.specs.Prelude.{◌≡◌, ◌≤◌, [], IfOk, length};
ghost use Rattle.std.specs.List.{AllByRecursion};
ghost use Rattle.text_ast.specs.Limits.{most_commands};
ghost use Rattle.type_schema.specs.SchemaViews.{schema_of, script_of};
ghost use Rattle.type_schema.specs.Script.{IsScript};
ghost use Rattle.type_typing.specs.Names.{plain_of};
ghost use Rattle.type_commands.specs.CommandLaw.{IsWritten};
ghost use Rattle.type_commands.specs.Scripts.{GivesScript, typed_script};
ghost use Rattle.type_proper.specs.Steady.{IsSteady};
ghost use Rattle.type_scripts.specs.Counted.{counted};

use crate::steps::Steps;
use std::alloc::Global;
use text_tree::Script;
use type_commands::ScriptErr;
use type_proper::{commands_have_literals, scripts_are_typed};
use type_schema::{Schema, TScript};

/// A script over a schema to which no script added a field: its commands, the schema before the
/// first and after each, and the schema of its start databases; or the number of the first bad
/// command, counted from 1, with its first fault and the place.
pub fn type_script(alloc: Global, schema: &Schema, script: &Script) -> Result<TScript, ScriptErr>
    requires steady { IsSteady (schema_of schema.now) }
    requires nothing_added { (schema_of schema.now).added ≡ [] }
    requires few { length script.now.commands ≤ most_commands }
    requires written { AllByRecursion IsWritten script.now.commands }
    ensures typed { GivesScript script_of
        (typed_script counted (plain_of schema.now) script.now) result }
    ensures script { IfOk result (λ t. IsScript (script_of t)) }
{
    let steps = Steps::over(alloc, schema, script.commands.as_slice())?;
    let typed = steps.into_script(alloc, schema)?;
    commands_have_literals(typed.commands.as_slice());
    scripts_are_typed();
    Ok(typed)
}
