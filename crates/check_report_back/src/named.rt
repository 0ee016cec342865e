//! What a name tells, with the number behind its `@`, if one stands there.

ghost use Rattle.std.specs.Prelude.{◌≡◌, ◌==◌, map, option_and_then, option_copied};
ghost use Rattle.std.specs.List.{find};
ghost use Rattle.std.specs.Option.{option_map};
ghost use Rattle.std.specs.Str.{bytes_eq};
ghost use Rattle.type_schema.specs.SchemaViews.{command_of, field_info_of, model_info_of};
ghost use Rattle.type_schema.specs.SchemaViews.{schema_of, script_of, static_info_of};
ghost use Rattle.type_schema.specs.Script as script;
ghost use Rattle.check_report_back.specs.Back as rule;

use type_schema::{
    FieldInfo, FieldNo, ModelInfo, ModelNo, Schema, StaticInfo, StaticNo, TCommand, TScript,
};

/// Whether two texts are the same bytes.
pub(crate) fn same(a: &[u8], b: &[u8]) -> bool
    ensures { result ≡ bytes_eq a.now b.now }
{
    a == b
}

/// The schema after so many commands.
pub(crate) fn schema_at(t: &TScript, k: u32) -> &Schema
    ensures { schema_of result.now ≡ script.schema_at (script_of t.now) k }
{
    match t.schemas.get(k as usize) {
        Some(s) => s,
        None => &t.start,
    }
}

/// The model of this number.
fn model_in(models: &[ModelInfo], m: ModelNo) -> Option<&ModelInfo>
    ensures { option_copied result ≡ find (λ info. info.number == m) models.now }
{
    models.iter().find(|info| info.number == m)
}

/// The model of this name.
fn model_of_name(models: &[ModelInfo], name: &[u8]) -> Option<ModelNo>
    ensures { result ≡ option_map (λ info. info.number)
        (find (λ info. bytes_eq info.name name.now) (map model_info_of models.now)) }
{
    let (info, models) = models.split_first()?;
    if same(info.name.bytes(), name) {
        Some(info.number)
    } else {
        model_of_name(models, name)
    }
}

/// The static of this name.
fn static_of_name(statics: &[StaticInfo], name: &[u8]) -> Option<StaticNo>
    ensures { result ≡ option_map (λ info. info.number)
        (find (λ info. bytes_eq info.name name.now) (map static_info_of statics.now)) }
{
    let (info, statics) = statics.split_first()?;
    if same(info.name.bytes(), name) {
        Some(info.number)
    } else {
        static_of_name(statics, name)
    }
}

/// The field of this name.
fn field_of_name(fields: &[FieldInfo], name: &[u8]) -> Option<FieldNo>
    ensures { result ≡ option_map (λ info. info.number)
        (find (λ info. bytes_eq info.name name.now) (map field_info_of fields.now)) }
{
    let (info, fields) = fields.split_first()?;
    if same(info.name.bytes(), name) {
        Some(info.number)
    } else {
        field_of_name(fields, name)
    }
}

/// The model that a command creates.
fn model_by(command: &TCommand) -> Option<ModelNo>
    ensures { result ≡ rule.model_by (command_of command.now) }
{
    match command {
        TCommand::CreateModel(info) => Some(info.number),
        TCommand::DeleteModel(_)
        | TCommand::AddStatic(_)
        | TCommand::RemoveStatic(_)
        | TCommand::AddPrincipal(_)
        | TCommand::AddField(_, _, _)
        | TCommand::RemoveField(_, _)
        | TCommand::UpdateFieldPolicy(_, _, _, _)
        | TCommand::WeakenFieldPolicy(_, _, _, _, _)
        | TCommand::UpdatePolicy(_, _, _)
        | TCommand::WeakenPolicy(_, _, _, _) => None,
    }
}

/// The static that a command adds.
fn static_by(command: &TCommand) -> Option<StaticNo>
    ensures { result ≡ rule.static_by (command_of command.now) }
{
    match command {
        TCommand::AddStatic(info) => Some(info.number),
        TCommand::CreateModel(_)
        | TCommand::DeleteModel(_)
        | TCommand::RemoveStatic(_)
        | TCommand::AddPrincipal(_)
        | TCommand::AddField(_, _, _)
        | TCommand::RemoveField(_, _)
        | TCommand::UpdateFieldPolicy(_, _, _, _)
        | TCommand::WeakenFieldPolicy(_, _, _, _, _)
        | TCommand::UpdatePolicy(_, _, _)
        | TCommand::WeakenPolicy(_, _, _, _) => None,
    }
}

/// The command of this number, from 1.
fn command_numbered(t: &TScript, number: u64) -> Option<&TCommand>
    ensures { option_map command_of (option_copied result)
        ≡ rule.command_numbered (script_of t.now) number }
{
    match number.checked_sub(1) {
        Some(before) => t.commands.get(before as usize),
        None => None,
    }
}

/// The model that the command of this number creates.
fn model_numbered(t: &TScript, number: u64) -> Option<ModelNo>
    ensures { result
        ≡ option_and_then rule.model_by (rule.command_numbered (script_of t.now) number) }
{
    match command_numbered(t, number) {
        Some(command) => model_by(command),
        None => None,
    }
}

/// The static that the command of this number adds.
fn static_numbered(t: &TScript, number: u64) -> Option<StaticNo>
    ensures { result
        ≡ option_and_then rule.static_by (rule.command_numbered (script_of t.now) number) }
{
    match command_numbered(t, number) {
        Some(command) => static_by(command),
        None => None,
    }
}

/// The model of the name before the first command, or the one that the numbered command creates.
pub(crate) fn model_named(t: &TScript, name: &[u8], mark: Option<u64>) -> Option<ModelNo>
    ensures { result ≡ rule.model_named (script_of t.now) name.now mark }
{
    match mark {
        Some(number) => model_numbered(t, number),
        None => model_of_name(schema_at(t, 0).models.as_slice(), name),
    }
}

/// The static of the name before the first command, or the one that the numbered command adds.
pub(crate) fn static_named(t: &TScript, name: &[u8], mark: Option<u64>) -> Option<StaticNo>
    ensures { result ≡ rule.static_named (script_of t.now) name.now mark }
{
    match mark {
        Some(number) => static_numbered(t, number),
        None => static_of_name(schema_at(t, 0).statics.as_slice(), name),
    }
}

/// The field of this name after so many commands.
pub(crate) fn field_named(t: &TScript, k: u32, m: ModelNo, name: &[u8]) -> Option<FieldNo>
    ensures { result ≡ rule.field_named (script_of t.now) k m name.now }
{
    match model_in(schema_at(t, k).models.as_slice(), m) {
        Some(info) => field_of_name(info.fields.as_slice(), name),
        None => None,
    }
}
