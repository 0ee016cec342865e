//! That the names of a script are names: letters, digits and `_`.
//!
//! A contract knows that a name is one where the code takes its bytes. So the functions here go
//! over all names of a script; they answer nothing.

ghost use Rattle.std.specs.Prelude.{map};
ghost use Rattle.std.specs.List.{AllByRecursion};
ghost use Rattle.text_ast.specs.Words.{IsName};
ghost use Rattle.type_schema.specs.SchemaViews.{command_of, field_info_of, model_info_of};
ghost use Rattle.type_schema.specs.SchemaViews.{schema_of, script_of, static_info_of};
ghost use Rattle.check_report_back.specs.Scripts.{AddsNames, HasFieldNames, HaveNames};
ghost use Rattle.check_report_back.specs.Told.{HasNames};

use type_schema::{FieldInfo, ModelInfo, Schema, StaticInfo, TCommand, TScript};

/// The names of fields are names.
fn fields_have_names(fields: &[FieldInfo])
    ensures { AllByRecursion (λ f. IsName f.name) (map field_info_of fields.now) }
{
    for field in fields {
        let _name = field.name.bytes();
    }
}

/// The names of a model and of its fields are names.
fn model_has_names(model: &ModelInfo)
    ensures { HasFieldNames (model_info_of model.now) }
{
    let _name = model.name.bytes();
    fields_have_names(model.fields.as_slice());
}

/// The names of models and of their fields are names.
fn models_have_names(models: &[ModelInfo])
    ensures { AllByRecursion HasFieldNames (map model_info_of models.now) }
{
    for model in models {
        model_has_names(model);
    }
}

/// The names of statics are names.
fn statics_have_names(statics: &[StaticInfo])
    ensures { AllByRecursion (λ n. IsName n.name) (map static_info_of statics.now) }
{
    for info in statics {
        let _name = info.name.bytes();
    }
}

/// The name of a static that a command adds is a name.
fn command_has_names(command: &TCommand)
    ensures { AddsNames (command_of command.now) }
{
    match command {
        TCommand::AddStatic(info) => {
            let _name = info.name.bytes();
        }
        TCommand::CreateModel(_)
        | TCommand::DeleteModel(_)
        | TCommand::RemoveStatic(_)
        | TCommand::AddPrincipal(_)
        | TCommand::AddField(_, _, _)
        | TCommand::RemoveField(_, _)
        | TCommand::UpdateFieldPolicy(_, _, _, _)
        | TCommand::WeakenFieldPolicy(_, _, _, _, _)
        | TCommand::UpdatePolicy(_, _, _)
        | TCommand::WeakenPolicy(_, _, _, _) => {}
    }
}

/// The names of the statics that commands add are names.
fn commands_have_names(commands: &[TCommand])
    ensures { AllByRecursion AddsNames (map command_of commands.now) }
{
    for command in commands {
        command_has_names(command);
    }
}

/// The names of a schema are names.
fn schema_has_names(schema: &Schema)
    ensures { HaveNames (schema_of schema.now) }
{
    statics_have_names(schema.statics.as_slice());
    models_have_names(schema.models.as_slice());
}

/// The names of schemas are names.
fn schemas_have_names(schemas: &[Schema])
    ensures { AllByRecursion HaveNames (map schema_of schemas.now) }
{
    for schema in schemas {
        schema_has_names(schema);
    }
}

/// The names of a script are names.
pub fn scripts_have_names(t: &TScript)
    ensures { HasNames (script_of t.now) }
{
    schema_has_names(&t.start);
    commands_have_names(t.commands.as_slice());
    schemas_have_names(t.schemas.as_slice());
}
