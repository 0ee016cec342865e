//! The witness that a structure stands for.

ghost use Rattle.std.specs.Prelude.{◌≡◌, ◌-◌, IfOk, option_and_then};
ghost use Rattle.std.specs.Option.{option_map};
ghost use Rattle.duty_meaning.specs.Duties.{init_in};
ghost use Rattle.type_schema.specs.Script.{Script, command_at};
ghost use Rattle.type_schema.specs.SchemaViews.{command_of, script_of};
ghost use Rattle.type_schema.specs.Views.{init_of};
ghost use Rattle.duty_listing.specs.Uses.{use_data};
ghost use Rattle.check_scripts.specs.Picked as spec;
ghost use Rattle.check_report.specs.Views.{witness_data};

use check_report::Witness;
use check_witness::build;
use data_meaning::{Cell, Principal};
use duty_listing::{Use, uses_in};
use duty_meaning::Duty;
use form_formula::Structure;
use std::alloc::{AllocError, Global};
use type_schema::{Kind, TCommand, TInit, TScript};

/// The id of the record that the element picked at this place is.
fn id_at(picks: &[u32], place: usize) -> u64
    ensures { result ≡ spec.id_at picks.now place }
{
    match picks.get(place) {
        Some(element) => u64::from(*element) + 1,
        None => 1,
    }
}

/// The principal of a kind that the elements stand for.
fn who_of(kind: Kind, picks: &[u32]) -> Principal
    ensures { result ≡ spec.who_of kind picks.now }
{
    match kind {
        Kind::Static(n) => Principal::Static(n),
        Kind::Model(m) => Principal::Rec(m, id_at(picks, 1)),
    }
}

/// The place of the element whose field leaks.
fn source_place(kind: Kind) -> usize
    ensures { result ≡ spec.source_place kind }
{
    match kind {
        Kind::Static(_) => 1,
        Kind::Model(_) => 2,
    }
}

/// The initialiser of the field that a command adds.
fn init_of_command(command: &TCommand) -> Option<&TInit>
    ensures { (t : Script) → option_map (λ init. init_of init.now) result
        ≡ init_in t (command_of command.now) }
{
    match command {
        TCommand::AddField(_, _, init) => Some(&**init),
        TCommand::CreateModel(_)
        | TCommand::DeleteModel(_)
        | TCommand::AddStatic(_)
        | TCommand::RemoveStatic(_)
        | TCommand::AddPrincipal(_)
        | TCommand::RemoveField(..)
        | TCommand::UpdateFieldPolicy(..)
        | TCommand::WeakenFieldPolicy(..)
        | TCommand::UpdatePolicy(..)
        | TCommand::WeakenPolicy(..) => None,
    }
}

/// The command of an obligation.
fn command_of_duty(t: &TScript, duty: Duty) -> Option<&TCommand>
    ensures { option_map (λ command. command_of command.now) result
        ≡ command_at (script_of t.now) (duty.command - 1) }
{
    let place = (duty.command as usize).saturating_sub(1);
    t.commands.as_slice().get(place)
}

/// The initialiser of the field that the command of an obligation adds.
fn init_of_duty(t: &TScript, duty: Duty) -> Option<&TInit>
    ensures { option_map (λ init. init_of init.now) result ≡ option_and_then
        (init_in (script_of t.now)) (command_at (script_of t.now) (duty.command - 1)) }
{
    match command_of_duty(t, duty) {
        Some(command) => init_of_command(command),
        None => None,
    }
}

/// The use of this number in an initialiser, counted from 1.
fn use_in(alloc: Global, init: &TInit, spot: u32) -> Result<Option<Use>, AllocError>
    ensures { IfOk result (λ found. option_map use_data found
        ≡ spec.use_in (init_of init.now) spot) }
{
    let uses = uses_in(alloc, init)?;
    let place = (spot as usize).saturating_sub(1);
    Ok(uses.as_slice().get(place).copied())
}

/// The use of a field that an obligation against a leak is about.
fn use_of(alloc: Global, t: &TScript, duty: Duty, spot: u32) -> Result<Option<Use>, AllocError>
    ensures { IfOk result (λ found. option_map use_data found
        ≡ spec.use_of (script_of t.now) duty spot) }
{
    match init_of_duty(t, duty) {
        Some(init) => use_in(alloc, init, spot),
        None => Ok(None),
    }
}

/// The cell that leaks, where the obligation is against a leak.
fn cell_of(
    alloc: Global,
    t: &TScript,
    duty: Duty,
    picks: &[u32],
) -> Result<Option<Cell>, AllocError>
    ensures { IfOk result (λ cell. cell
        ≡ option_and_then (spec.leaking_cell (script_of t.now) duty picks.now) duty.spot) }
{
    let Some(spot) = duty.spot else {
        return Ok(None);
    };
    let Some(at) = use_of(alloc, t, duty, spot)? else {
        return Ok(None);
    };
    Ok(Some(Cell {
        model: at.model,
        id: id_at(picks, source_place(duty.kind)),
        field: at.field,
    }))
}

/// The witness that a structure stands for, with these elements for the quantifiers that the
/// formula of the obligation begins with.
pub fn witness_of(
    alloc: Global,
    t: &TScript,
    duty: Duty,
    structure: &Structure,
    picks: &[u32],
) -> Result<Witness, AllocError>
    ensures { IfOk result (λ w. witness_data w
        ≡ spec.picked_witness (script_of t.now) duty structure.now picks.now) }
{
    let cell = cell_of(alloc, t, duty, picks)?;
    let base = build(alloc, structure, &t.start)?;
    Ok(Witness {
        command: duty.command,
        target: duty.target,
        right: duty.right,
        base,
        row: id_at(picks, 0),
        who: who_of(duty.kind, picks),
        cell,
    })
}
