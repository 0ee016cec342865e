//! What still uses a thing, by names.

ghost use Rattle.std.specs.Prelude.{◌≡◌, ◌==◌, [], Err, IfOk, Ok, map, option_copied};
ghost use Rattle.std.specs.List.{find};
ghost use Rattle.std.specs.Option.{option_map_or};
ghost use Rattle.type_schema.specs.Schema as plain;
ghost use Rattle.type_schema.specs.SchemaViews.{field_info_of, schema_of};
ghost use Rattle.type_commands.specs.Scripts.{typed_script};
ghost use Rattle.type_commands.specs.declared.script_err.ScriptErr.TheVariants.{Bad};
ghost use Rattle.type_scripts.specs.Counted.{counted};
ghost use Rattle.type_specs.specs.InTurn.{GivesSeen, in_turn};
ghost use Rattle.type_typing.specs.Names.{plain_of};
ghost use Rattle.check_witness.specs.Printed.{right_text};
ghost use Rattle.app_files.specs.Typed as spec;

use crate::fault::Fault;
use crate::pieces::join_pieces;
use sqlite_items::Items;
use std::alloc::{AllocError, Global};
use text_tree::{Command, Script};
use type_schema::{FieldInfo, FieldNo, ModelInfo, ModelNo, Right, Schema, Target};
use type_scripts::step_command;
use type_typing::{TypeErr, UsedBy};

/// The model of this number.
fn model_in(models: &[ModelInfo], m: ModelNo) -> Option<&ModelInfo>
    ensures { option_copied result ≡ find (λ info. info.number == m) models.now }
{
    models.iter().find(|info| info.number == m)
}

/// The field of this number.
fn field_in(fields: &[FieldInfo], f: FieldNo) -> Option<&FieldInfo>
    ensures { option_copied result ≡ find (λ info. info.number == f) fields.now }
{
    fields.iter().find(|info| info.number == f)
}

/// The name of a model, empty where there is none.
fn model_name(schema: &Schema, m: ModelNo) -> &[u8]
    ensures { result.now ≡ spec.model_name (schema_of schema.now) m }
{
    match model_in(schema.models.as_slice(), m) {
        Some(info) => info.name.bytes(),
        None => b"",
    }
}

/// The name of a field of a model, empty where there is none.
fn name_in(info: &ModelInfo, f: FieldNo) -> &[u8]
    ensures { result.now ≡ option_map_or (λ field. field.name)
        (find (λ field. field.number == f) (map field_info_of info.now.fields)) [] }
{
    match field_in(info.fields.as_slice(), f) {
        Some(field) => field.name.bytes(),
        None => b"",
    }
}

/// The name of a field, empty where there is none.
fn field_name(schema: &Schema, m: ModelNo, f: FieldNo) -> &[u8]
    ensures { result.now ≡ spec.field_name (schema_of schema.now) m f }
{
    match model_in(schema.models.as_slice(), m) {
        Some(info) => name_in(info, f),
        None => b"",
    }
}

/// The word of a right.
fn right_word(right: Right) -> &'static [u8]
    ensures { result.now ≡ right_text right }
{
    match right {
        Right::Read => b"read",
        Right::Write => b"write",
        Right::Create => b"create",
        Right::Delete => b"delete",
    }
}

/// What uses a thing and is about a field.
fn field_user_text<'t>(
    alloc: Global,
    model: &'t [u8],
    field: &'t [u8],
    word: &'t [u8],
) -> Result<Vec<u8>, AllocError>
    ensures { IfOk result (λ text. text.items
        ≡ spec.field_user_text model.now field.now word.now) }
{
    join_pieces(alloc, &[model, b".", field, b" ", word])
}

/// What uses a thing and is about a model.
fn model_user_text<'t>(
    alloc: Global,
    model: &'t [u8],
    word: &'t [u8],
) -> Result<Vec<u8>, AllocError>
    ensures { IfOk result (λ text. text.items ≡ spec.model_user_text model.now word.now) }
{
    join_pieces(alloc, &[model, b" ", word])
}

/// What uses a thing, by the names of the schema.
fn used_by_text(alloc: Global, schema: &Schema, by: UsedBy) -> Result<Vec<u8>, AllocError>
    ensures { IfOk result (λ text. text.items ≡ spec.used_by_text (schema_of schema.now) by) }
{
    match by {
        UsedBy::Policy(Target::Field(m, f), right) => {
            let model = model_name(schema, m);
            field_user_text(alloc, model, field_name(schema, m, f), right_word(right))
        }
        UsedBy::Policy(Target::Model(m), right) => {
            model_user_text(alloc, model_name(schema, m), right_word(right))
        }
        UsedBy::FieldType(m, f) => {
            let model = model_name(schema, m);
            field_user_text(alloc, model, field_name(schema, m, f), b"type")
        }
    }
}

/// The schema after a command.
fn schema_after_one(alloc: Global, schema: &Schema, command: &Command) -> Result<Schema, TypeErr>
    ensures { GivesSeen plain_of (spec.after_command (plain_of schema.now) command.now) result }
{
    let (after, _) = step_command(alloc, schema, command)?;
    Ok(after)
}

/// The schema after these commands.
fn schema_after(alloc: Global, schema: &Schema, commands: &[Command]) -> Result<Schema, TypeErr>
    ensures { GivesSeen plain_of
        (in_turn spec.after_command (plain_of schema.now) commands.now) result }
{
    let [command, rest @ ..] = commands else {
        return Ok(schema.copy(alloc)?);
    };
    let after = schema_after_one(alloc, schema, command)?;
    schema_after(alloc, &after, rest)
}

/// What still uses what the command after these removes, by the names that are there before it,
/// where that is the fault.
fn user_of(
    alloc: Global,
    schema: &Schema,
    commands: &[Command],
    err: TypeErr,
) -> Result<Items<u8>, TypeErr>
    ensures { IfOk result (λ user. (before : plain.Schema) →
        in_turn spec.after_command (plain_of schema.now) commands.now ≡ Ok before →
        user ≡ spec.user_of before err) }
{
    let TypeErr::StillUsed { by, .. } = err else {
        return Ok(Items::new(alloc));
    };
    let before = schema_after(alloc, schema, commands)?;
    let user = used_by_text(alloc, &before, by)?;
    Ok(Items::from_vec(user))
}

/// The fault of a script whose first bad command is this one.
pub fn fault_of(
    alloc: Global,
    schema: &Schema,
    script: &Script,
    command: u32,
    err: TypeErr,
) -> Result<Fault, AllocError>
    requires { typed_script counted (plain_of schema.now) script.now ≡ Err (Bad command err) }
    ensures { IfOk result (λ fault. spec.HasFault (plain_of schema.now) script.now fault) }
{
    let commands = script.commands.as_slice();
    let before = &commands[..command as usize - 1];
    // No command before the first bad one is bad: only memory may be missing.
    let Ok(user) = user_of(alloc, schema, before, err) else {
        return Err(AllocError);
    };
    Ok(Fault { command, err, user })
}
