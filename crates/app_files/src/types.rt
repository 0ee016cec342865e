//! The two files with their types.

ghost use Rattle.std.specs.Prelude.{◌≡◌, ℕ, List, [], IfOk};
ghost use Rattle.std.specs.List.{AllByRecursion};
ghost use Rattle.type_proper.specs.Steady.{IsSteady};
ghost use Rattle.type_schema.specs.SchemaViews.{schema_of, script_of};
ghost use Rattle.type_schema.specs.Script.{IsScript};
ghost use Rattle.text_tree.specs.Texts.{IsScriptText};
ghost use Rattle.type_typing.specs.Names.{plain_of};
ghost use Rattle.app_files.specs.Stages.{ComesTo};
ghost use Rattle.app_files.specs.Typed.{HasText, TypesScript, TypesSpec};

use crate::refusal::Refusal;
use crate::stop::Stop;
use crate::users::fault_of;
use std::alloc::Global;
use text_ast::Txt;
use text_tree::{Command, Script, Spec};
use type_commands::ScriptErr;
use type_schema::{Schema, TScript};
use type_scripts::{type_script, type_spec};
use type_typing::TypeErr;

/// The schema of the specification in the file of that name.
pub fn typed_spec(alloc: Global, name: &Txt, spec: &Spec) -> Result<Schema, Stop>
    ensures types { ComesTo (TypesSpec name.now spec.now) plain_of result }
    ensures steady { IfOk result (λ s. IsSteady (schema_of s)) }
    ensures nothing_added { IfOk result (λ s. (schema_of s).added ≡ []) }
{
    match type_spec(alloc, spec) {
        Ok(schema) => Ok(schema),
        Err(TypeErr::OutOfMemory) => Err(Stop::OutOfMemory),
        Err(err) => Err(Stop::Refused(Refusal::SpecTypes(name.copy(alloc)?, err))),
    }
}

/// The reason of a command is a text, as its type says.
fn has_text(command: &Command)
    ensures { HasText command.now }
{
    match command {
        Command::WeakenFieldPolicy(_, _, _, _, reason, _)
        | Command::WeakenPolicy(_, _, _, reason, _) => {
            let _text = reason.text.bytes();
        }
        Command::CreateModel(..)
        | Command::DeleteModel(..)
        | Command::AddStatic(..)
        | Command::RemoveStatic(..)
        | Command::AddPrincipal(..)
        | Command::AddField(..)
        | Command::RemoveField(..)
        | Command::UpdateFieldPolicy(..)
        | Command::UpdatePolicy(..) => {}
    }
}

/// The reasons of commands are texts.
fn have_texts(commands: &[Command])
    ensures { AllByRecursion HasText commands.now }
{
    for command in commands {
        has_text(command);
    }
}

/// The script in the file of that name, over the schema of its specification.
pub fn typed_script(
    alloc: Global,
    name: &Txt,
    schema: &Schema,
    script: &Script,
) -> Result<TScript, Stop>
    requires steady { IsSteady (schema_of schema.now) }
    requires nothing_added { (schema_of schema.now).added ≡ [] }
    requires spelled { (text : List ℕ) × IsScriptText text script.now }
    ensures types { ComesTo (TypesScript name.now
        (plain_of schema.now) script.now) script_of result }
    ensures script { IfOk result (λ t. IsScript (script_of t)) }
{
    have_texts(script.commands.as_slice());
    match type_script(alloc, schema, script) {
        Ok(t) => Ok(t),
        Err(ScriptErr::OutOfMemory) => Err(Stop::OutOfMemory),
        Err(ScriptErr::Bad { command, err }) => {
            let name = name.copy(alloc)?;
            let fault = fault_of(alloc, schema, script, command, err)?;
            Err(Stop::Refused(Refusal::ScriptTypes(name, fault)))
        }
    }
}
