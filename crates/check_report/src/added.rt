//! What the commands of a script add.

ghost use Rattle.std.specs.Prelude.{◌≡◌, ◌==◌, map, option_copied, position};
ghost use Rattle.std.specs.List.{find, flat_map, list_any};
ghost use Rattle.std.specs.Option.{option_map};
ghost use Rattle.type_schema.specs.SchemaViews.{command_of, static_info_of};
ghost use Rattle.type_schema.specs.Script.{created_by};
ghost use Rattle.check_witness.specs.Printed.{statics_by};

use type_schema::{ModelNo, StaticInfo, StaticNo, TCommand};

/// Whether a command creates the model.
fn creates(command: &TCommand, m: ModelNo) -> bool
    ensures { result ≡ list_any (λ info. info.number == m) (created_by (command_of command.now)) }
{
    match command {
        TCommand::CreateModel(info) => info.number == m,
        TCommand::DeleteModel(_)
        | TCommand::AddStatic(_)
        | TCommand::RemoveStatic(_)
        | TCommand::AddPrincipal(_)
        | TCommand::AddField(_, _, _)
        | TCommand::RemoveField(_, _)
        | TCommand::UpdateFieldPolicy(_, _, _, _)
        | TCommand::WeakenFieldPolicy(_, _, _, _, _)
        | TCommand::UpdatePolicy(_, _, _)
        | TCommand::WeakenPolicy(_, _, _, _) => false,
    }
}

/// The static that a command adds, if it has this number.
fn static_by(command: &TCommand, n: StaticNo) -> Option<&StaticInfo>
    ensures { option_map static_info_of (option_copied result)
        ≡ find (λ info. info.number == n) (statics_by (command_of command.now)) }
{
    match command {
        TCommand::AddStatic(info) => { if info.number == n { Some(info) } else { None } }
        TCommand::CreateModel(_)
        | TCommand::DeleteModel(_)
        | TCommand::RemoveStatic(_)
        | TCommand::AddPrincipal(_)
        | TCommand::AddField(_, _, _)
        | TCommand::RemoveField(_, _)
        | TCommand::UpdateFieldPolicy(_, _, _, _)
        | TCommand::WeakenFieldPolicy(_, _, _, _, _)
        | TCommand::UpdatePolicy(_, _, _)
        | TCommand::WeakenPolicy(_, _, _, _) => None,
    }
}

/// Whether a command adds the static.
fn adds(command: &TCommand, n: StaticNo) -> bool
    ensures { result ≡ list_any (λ info. info.number == n) (statics_by (command_of command.now)) }
{
    static_by(command, n).is_some()
}

/// How many commands stand before the first that creates the model, if one does.
pub(crate) fn before_model(commands: &[TCommand], m: ModelNo) -> Option<usize>
    ensures { result ≡ position
        (λ c. list_any (λ info. info.number == m) (created_by (command_of c))) commands.now }
{
    commands.iter().position(|command| creates(command, m))
}

/// How many commands stand before the first that adds the static, if one does.
pub(crate) fn before_static(commands: &[TCommand], n: StaticNo) -> Option<usize>
    ensures { result ≡ position
        (λ c. list_any (λ info. info.number == n) (statics_by (command_of c))) commands.now }
{
    commands.iter().position(|command| adds(command, n))
}

/// The static of this number that a command adds.
pub(crate) fn added_static(commands: &[TCommand], n: StaticNo) -> Option<&StaticInfo>
    ensures { option_map static_info_of (option_copied result)
        ≡ find (λ info. info.number == n) (flat_map statics_by (map command_of commands.now)) }
{
    let (command, rest) = commands.split_first()?;
    match static_by(command, n) {
        Some(info) => Some(info),
        None => added_static(rest, n),
    }
}
