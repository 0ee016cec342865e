//! Commands, and the schemas between them.

ghost use Rattle.std.specs.Prelude.{◌≡◌, ◌≤◌, IfOk, length};
ghost use Rattle.type_schema.specs.SchemaViews.{script_of};
ghost use Rattle.text_ast.specs.Limits.{most_commands};
ghost use Rattle.type_typing.specs.Names.{plain_of};
ghost use Rattle.type_commands.specs.Commands.{typed_command};
ghost use Rattle.type_commands.specs.Scripts as rule;
ghost use Rattle.type_scripts.specs.Counted.{counted, step_of};
ghost use Rattle.type_scripts.specs.Running.{TakesUp, followed_by, numbered, run_from, run_of};
ghost use Rattle.type_scripts.specs.Running.{all_of, script_of_run};

use crate::commands::step_command;
use crate::start::start_schema;
use sqlite_items::Items;
use std::alloc::{AllocError, Global};
use std::mem;
use text_tree::Command;
use type_commands::ScriptErr;
use type_schema::{Schema, TCommand, TScript};
use type_specs::copied;
use type_typing::TypeErr;

/// The commands so far, the schema before each, and the schema after them.
#[derive(Drop)]
pub(crate) struct Steps {
    commands: Vec<TCommand>,
    schemas: Vec<Schema>,
    last: Schema,
}

/// The schema after the command of this number, and what the command is.
fn numbered_step(
    alloc: Global,
    schema: &Schema,
    number: u32,
    c: &Command,
) -> Result<(Schema, TCommand), ScriptErr>
    ensures { rule.GivesScript step_of
        (numbered number (typed_command counted (plain_of schema.now) c.now)) result }
{
    match step_command(alloc, schema, c) {
        Ok(step) => Ok(step),
        Err(TypeErr::OutOfMemory) => Err(ScriptErr::OutOfMemory),
        Err(err) => Err(ScriptErr::Bad {
            command: number,
            err,
        }),
    }
}

impl Steps {
    /// No command yet over a schema.
    fn from(alloc: Global, schema: &Schema) -> Result<Steps, AllocError>
        ensures { IfOk result (λ steps. run_of steps ≡ run_from (plain_of schema.now)) }
    {
        let last = copied(alloc, schema)?;
        Ok(Steps {
            commands: Vec::new(alloc),
            schemas: Vec::new(alloc),
            last,
        })
    }

    /// Takes up the command of this number.
    fn take_up(&mut self, alloc: Global, number: u32, c: &Command) -> Result<(), ScriptErr>
        ensures { TakesUp number c.now (run_of self.old) (run_of self.new) result }
    {
        let (after, command) = numbered_step(alloc, &self.last, number, c)?;
        let before = mem::replace(&mut self.last, after);
        self.schemas.push(before)?;
        self.commands.push(command)?;
        Ok(())
    }

    /// The commands over a schema, which are counted from 1.
    pub(crate) fn over(
        alloc: Global,
        schema: &Schema,
        commands: &[Command],
    ) -> Result<Steps, ScriptErr>
        requires { length commands.now ≤ most_commands }
        ensures { rule.GivesScript (λ steps. all_of (run_of steps))
            (followed_by (run_from (plain_of schema.now))
            (rule.steps counted 1 (plain_of schema.now) commands.now)) result }
    {
        let mut steps = Steps::from(alloc, schema)?;
        for (before, c) in commands.iter().enumerate() {
            steps.take_up(alloc, before as u32 + 1, c)?;
        }
        Ok(steps)
    }

    /// The script of these commands, which began at the first schema.
    pub(crate) fn into_script(self, alloc: Global, first: &Schema) -> Result<TScript, AllocError>
        ensures { IfOk result (λ t.
            script_of t ≡ script_of_run (plain_of first.now) (run_of self)) }
    {
        let start = start_schema(alloc, first, self.commands.as_slice(), &self.last)?;
        let Steps {
            commands,
            mut schemas,
            last,
        } = self;
        schemas.push(last)?;
        Ok(TScript {
            start,
            commands: Items::from_vec(commands),
            schemas: Items::from_vec(schemas),
        })
    }
}
