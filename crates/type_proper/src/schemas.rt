//! The literals of models and commands.

ghost use Rattle.std.specs.List.{AllByRecursion};
ghost use Rattle.std.specs.Prelude.{map};
ghost use Rattle.std.specs.Option.{option_map};
ghost use Rattle.type_schema.specs.SchemaViews.{command_of, field_info_of, model_info_of};
ghost use Rattle.type_schema.specs.Views.{policy_of};
ghost use Rattle.type_proper.specs.Literals.{CommandHasLiterals, FieldHasLiterals};
ghost use Rattle.type_proper.specs.Literals.{GivenHasLiterals, ModelHasLiterals};

use crate::trees::{init_has_literals, policy_has_literals};
use std::rc::Rc;
use type_schema::{FieldInfo, ModelInfo, TCommand, TPolicy};

/// The literals of a policy that may be given are values.
fn given_has_literals(given: &Option<Rc<TPolicy>>)
    ensures { GivenHasLiterals (option_map (λ p. policy_of p.value) given.now) }
{
    match given {
        Some(policy) => policy_has_literals(policy),
        None => {}
    }
}

/// The literals of the policies of a field are values.
fn field_has_literals(field: &FieldInfo)
    ensures { FieldHasLiterals (field_info_of field.now) }
{
    policy_has_literals(&field.read);
    policy_has_literals(&field.write);
}

/// The literals of the policies of fields are values.
fn fields_have_literals(fields: &[FieldInfo])
    ensures { AllByRecursion FieldHasLiterals (map field_info_of fields.now) }
{
    for field in fields {
        field_has_literals(field);
    }
}

/// The literals of the policies of a model are values.
fn model_has_literals(model: &ModelInfo)
    ensures { ModelHasLiterals (model_info_of model.now) }
{
    policy_has_literals(&model.create);
    policy_has_literals(&model.delete);
    fields_have_literals(model.fields.as_slice());
}

/// The literals of the policies of models are values.
pub fn models_have_literals(models: &[ModelInfo])
    ensures { AllByRecursion ModelHasLiterals (map model_info_of models.now) }
{
    for model in models {
        model_has_literals(model);
    }
}

/// The literals of a command are values.
fn command_has_literals(command: &TCommand)
    ensures { CommandHasLiterals (command_of command.now) }
{
    match command {
        TCommand::CreateModel(model) => model_has_literals(model),
        TCommand::AddField(_, field, init) => {
            field_has_literals(field);
            init_has_literals(init);
        }
        TCommand::UpdateFieldPolicy(_, _, one, other)
        | TCommand::WeakenFieldPolicy(_, _, one, other, _)
        | TCommand::UpdatePolicy(_, one, other)
        | TCommand::WeakenPolicy(_, one, other, _) => {
            given_has_literals(one);
            given_has_literals(other);
        }
        TCommand::DeleteModel(_)
        | TCommand::AddStatic(_)
        | TCommand::RemoveStatic(_)
        | TCommand::AddPrincipal(_)
        | TCommand::RemoveField(..) => {}
    }
}

/// The literals of commands are values.
pub fn commands_have_literals(commands: &[TCommand])
    ensures { AllByRecursion CommandHasLiterals (map command_of commands.now) }
{
    for command in commands {
        command_has_literals(command);
    }
}
