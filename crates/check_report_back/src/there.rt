//! Whether what the parts of a witness name is there.

ghost use Rattle.std.specs.Prelude.{◌≡◌, ◌==◌, ◌↔◌, IsTrue, is_some, map, option_and_then};
ghost use Rattle.std.specs.List.{find, flat_map};
ghost use Rattle.data_back.specs.Printed.{IsStandard};
ghost use Rattle.data_meaning.specs.Gain as gain;
ghost use Rattle.type_schema.specs.Schema as plain;
ghost use Rattle.type_schema.specs.SchemaViews.{command_of, field_info_of, model_info_of};
ghost use Rattle.type_schema.specs.SchemaViews.{schema_of, script_of, static_info_of};
ghost use Rattle.check_witness.specs.Printed.{statics_by};
ghost use Rattle.check_report_back.specs.Printed.{IsCellOn, IsPrincipalOn, IsWitnessOn};
ghost use Rattle.check_report_back.specs.Scripts.{IsCommandOf};
ghost use Rattle.check_report.specs.Views.{witness_data};
ghost use Rattle.check_report_back.specs.Told.{statics_in};

use crate::named::schema_at;
use check_report::Witness;
use data_meaning::{Cell, Principal};
use data_records::Database;
use type_schema::{
    FieldInfo, FieldNo, ModelInfo, ModelNo, Schema, StaticInfo, StaticNo, TCommand, TScript, Target,
};

/// The model of a target.
fn model_of(target: Target) -> ModelNo
    ensures { result ≡ plain.model_of_target target }
{
    match target {
        Target::Field(m, _) | Target::Model(m) => m,
    }
}

/// Whether one of the fields has the number.
fn has_number(fields: &[FieldInfo], f: FieldNo) -> bool
    ensures { result ≡ is_some (plain.field_in (map field_info_of fields.now) f) }
{
    match fields {
        [] => false,
        [info, fields @ ..] => info.number == f || has_number(fields, f),
    }
}

/// Whether one of the models has the number.
fn has_model(models: &[ModelInfo], m: ModelNo) -> bool
    ensures { result ≡ is_some (plain.model_in (map model_info_of models.now) m) }
{
    match models {
        [] => false,
        [info, models @ ..] => info.number == m || has_model(models, m),
    }
}

/// Whether the model of the number, among these, has the field.
fn has_field(models: &[ModelInfo], m: ModelNo, f: FieldNo) -> bool
    ensures { result ≡ is_some (option_and_then (λ info. plain.field_in info.fields f)
        (plain.model_in (map model_info_of models.now) m)) }
{
    match models {
        [] => false,
        [info, models @ ..] => {
            if info.number == m {
                has_number(info.fields.as_slice(), f)
            } else {
                has_field(models, m, f)
            }
        }
    }
}

/// Whether the schema has the target.
fn has_target(s: &Schema, target: Target) -> bool
    ensures { result ≡ gain.has_target (schema_of s.now) target }
{
    match target {
        Target::Field(m, f) => has_field(s.models.as_slice(), m, f),
        Target::Model(m) => has_model(s.models.as_slice(), m),
    }
}

/// Whether the static is one of these.
fn is_among(statics: &[StaticInfo], n: StaticNo) -> bool
    ensures { result
        ≡ is_some (find (λ info. info.number == n) (map static_info_of statics.now)) }
{
    match statics {
        [] => false,
        [info, statics @ ..] => info.number == n || is_among(statics, n),
    }
}

/// Whether a command adds the static.
fn adds(command: &TCommand, n: StaticNo) -> bool
    ensures { result
        ≡ is_some (find (λ info. info.number == n) (statics_by (command_of command.now))) }
{
    match command {
        TCommand::AddStatic(info) => info.number == n,
        TCommand::CreateModel(_)
        | TCommand::DeleteModel(_)
        | TCommand::RemoveStatic(_)
        | TCommand::AddPrincipal(_)
        | TCommand::AddField(_, _, _)
        | TCommand::RemoveField(_, _)
        | TCommand::UpdateFieldPolicy(_, _, _, _)
        | TCommand::WeakenFieldPolicy(_, _, _, _, _)
        | TCommand::UpdatePolicy(_, _, _)
        | TCommand::WeakenPolicy(_, _, _, _) => false,
    }
}

/// Whether one of the commands adds the static.
fn is_added(commands: &[TCommand], n: StaticNo) -> bool
    ensures { result ≡ is_some (find (λ info. info.number == n)
        (flat_map statics_by (map command_of commands.now))) }
{
    match commands {
        [] => false,
        [command, commands @ ..] => adds(command, n) || is_added(commands, n),
    }
}

/// Whether the script has the static.
fn has_static(t: &TScript, n: StaticNo) -> bool
    ensures { result ≡ is_some (find (λ info. info.number == n) (statics_in (script_of t.now))) }
{
    is_among(t.start.statics.as_slice(), n) || is_added(t.commands.as_slice(), n)
}

/// Whether the principal is a static of the script or a record of the database.
fn is_principal(t: &TScript, database: &Database, who: Principal) -> bool
    ensures { IsTrue result ↔ IsPrincipalOn (script_of t.now) database.now who }
{
    match who {
        Principal::Static(n) => has_static(t, n),
        Principal::Rec(m, id) => database.has(m, id),
    }
}

/// Whether the cell's field is there after so many commands, and its record in the database.
fn is_cell(t: &TScript, k: u32, database: &Database, cell: Option<Cell>) -> bool
    ensures { IsTrue result ↔ IsCellOn (script_of t.now) k database.now cell }
{
    match cell {
        Some(cell) => {
            has_target(schema_at(t, k), Target::Field(cell.model, cell.field))
                && database.has(cell.model, cell.id)
        }
        None => true,
    }
}

/// Whether the command is one of the script.
fn is_command(t: &TScript, k: u32) -> bool
    ensures { IsTrue result ↔ IsCommandOf (script_of t.now) k }
{
    k >= 1 && k as usize <= t.commands.as_slice().len()
}

/// Whether what the parts of a witness name is there.
pub(crate) fn is_witness(w: &Witness, t: &TScript) -> bool
    requires { IsStandard (script_of t.now).start w.now.base }
    ensures { IsTrue result ↔ IsWitnessOn (script_of t.now) (witness_data w.now) }
{
    is_command(t, w.command)
        && has_target(schema_at(t, w.command), w.target)
        && w.base.has(model_of(w.target), w.row)
        && is_principal(t, &w.base, w.who)
        && is_cell(t, w.command, &w.base, w.cell)
}
