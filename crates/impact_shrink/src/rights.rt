//! What policies and an initialiser come to on the database after the command of a witness.

ghost use Rattle.std.specs.Prelude.{◌≡◌, ◌-◌, ◌&&◌, false, IfOk, option_and_then};
ghost use Rattle.std.specs.List.{list_any};
ghost use Rattle.std.specs.Option.{option_map, option_map_or};
ghost use Rattle.data_meaning.specs.Database as plain;
ghost use Rattle.data_meaning.specs.Gain as gain;
ghost use Rattle.data_meaning.specs.Meaning as meaning;
ghost use Rattle.duty_meaning.specs.Duties.{init_in};
ghost use Rattle.type_schema.specs.Schema.{model_of_target};
ghost use Rattle.type_schema.specs.Script.{Script, command_at};
ghost use Rattle.type_schema.specs.SchemaViews.{command_of, script_of};
ghost use Rattle.type_schema.specs.Views.{init_of, policy_of};
ghost use Rattle.check_report.specs.Views.{witness_data};
ghost use Rattle.impact_shrink.specs.Judged as rule;

use check_report::Witness;
use data_meaning::{Cell, Principal};
use data_members::{allows, touched};
use data_records::Database;
use duty_formulas::policy_in_force;
use std::alloc::{AllocError, Global};
use type_schema::{ModelNo, Right, TCommand, TInit, TPolicy, TScript, Target};

/// The model of a target.
fn model_of(target: Target) -> ModelNo
    ensures { result ≡ model_of_target target }
{
    match target {
        Target::Field(m, _) | Target::Model(m) => m,
    }
}

/// Whether the principal is there. A static one always is.
fn is_there(database: &Database, who: Principal) -> bool
    ensures { result ≡ plain.is_there database.now who }
{
    match who {
        Principal::Static(_) => true,
        Principal::Rec(m, id) => database.has(m, id),
    }
}

/// Whether the record and the principal of the witness are there.
pub(crate) fn are_there(w: &Witness, after: &Database) -> bool
    ensures { result ≡ rule.are_there (witness_data w.now) after.now }
{
    after.has(model_of(w.target), w.row) && is_there(after, w.who)
}

/// Whether the policy, if there is one, allows the principal the right on the record.
fn allows_by(
    alloc: Global,
    policy: Option<&TPolicy>,
    database: &Database,
    who: Principal,
    id: u64,
) -> Result<bool, AllocError>
    ensures { IfOk result (λ b. b ≡ option_map_or (λ p. meaning.allows database.now p id who)
        (option_map (λ p. policy_of p.now) policy.entry) false) }
{
    match policy {
        Some(policy) => allows(alloc, database, policy, who, id),
        None => Ok(false),
    }
}

/// Whether the witness's right is had, by the policy that was in force after k commands.
pub(crate) fn has_right(
    alloc: Global,
    t: &TScript,
    w: &Witness,
    k: u32,
    after: &Database,
) -> Result<bool, AllocError>
    ensures { IfOk result (λ b. b
        ≡ rule.has_right_by (script_of t.now) (witness_data w.now) after.now k) }
{
    let policy = policy_in_force(t, k as usize, w.target, w.right);
    allows_by(alloc, policy, after, w.who, w.row)
}

/// Whether the principal of the witness may read the cell after the command.
pub(crate) fn may_read(
    alloc: Global,
    t: &TScript,
    w: &Witness,
    after: &Database,
    cell: Cell,
) -> Result<bool, AllocError>
    ensures { IfOk result (λ b. b
        ≡ rule.may_read (script_of t.now) (witness_data w.now) after.now cell) }
{
    let target = Target::Field(cell.model, cell.field);
    let policy = policy_in_force(t, w.command as usize, target, Right::Read);
    allows_by(alloc, policy, after, w.who, cell.id)
}

/// The initialiser of the field that a command adds.
fn init_of_command(command: &TCommand) -> Option<&TInit>
    ensures { (t : Script) → option_map (λ init. init_of init.now) result
        ≡ init_in t (command_of command.now) }
{
    match command {
        TCommand::AddField(_, _, init) => Some(&**init),
        TCommand::CreateModel(_)
        | TCommand::DeleteModel(_)
        | TCommand::AddStatic(_)
        | TCommand::RemoveStatic(_)
        | TCommand::AddPrincipal(_)
        | TCommand::RemoveField(..)
        | TCommand::UpdateFieldPolicy(..)
        | TCommand::WeakenFieldPolicy(..)
        | TCommand::UpdatePolicy(..)
        | TCommand::WeakenPolicy(..) => None,
    }
}

/// The command of the witness.
fn command_of_witness<'t>(t: &'t TScript, w: &Witness) -> Option<&'t TCommand>
    ensures { option_map (λ command. command_of command.now) result
        ≡ command_at (script_of t.now) (w.now.command - 1) }
{
    let place = (w.command as usize).saturating_sub(1);
    t.commands.as_slice().get(place)
}

/// The initialiser of the field that the command of the witness adds.
fn init_of_witness<'t>(t: &'t TScript, w: &Witness) -> Option<&'t TInit>
    ensures { option_map (λ init. init_of init.now) result ≡ option_and_then
        (init_in (script_of t.now)) (command_at (script_of t.now) (w.now.command - 1)) }
{
    match command_of_witness(t, w) {
        Some(command) => init_of_command(command),
        None => None,
    }
}

/// Whether the cell is one of these.
fn has_cell(cells: &[Cell], cell: Cell) -> bool
    ensures { result ≡ list_any (rule.is_same_cell cell) cells.now }
{
    cells.iter().any(|other| {
        other.model == cell.model && other.id == cell.id && other.field == cell.field
    })
}

/// Whether the initialiser of the field that the command adds touches the cell on the record.
pub(crate) fn touches(
    alloc: Global,
    t: &TScript,
    w: &Witness,
    after: &Database,
    cell: Cell,
) -> Result<bool, AllocError>
    ensures { IfOk result (λ b. b
        ≡ rule.touches (script_of t.now) (witness_data w.now) after.now cell) }
{
    let Some(init) = init_of_witness(t, w) else {
        return Ok(false);
    };
    let cells = touched(alloc, after, init, w.row)?;
    Ok(has_cell(cells.as_slice(), cell))
}
