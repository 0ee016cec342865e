//! The use of a field that an obligation against a leak is about.

ghost use Rattle.std.specs.Prelude.{◌≡◌, ◌-◌, IfOk, option_and_then, slice_get};
ghost use Rattle.std.specs.Option.{option_map};
ghost use Rattle.duty_meaning.specs.Duties.{init_in};
ghost use Rattle.type_schema.specs.Script.{Script, command_at};
ghost use Rattle.type_schema.specs.SchemaViews.{command_of, schema_of, script_of};
ghost use Rattle.type_schema.specs.Uses.{init_uses_of};
ghost use Rattle.type_schema.specs.Views.{init_of};
ghost use Rattle.duty_meaning.specs.Duties.{written_at};
ghost use Rattle.duty_meaning.specs.Reach.{init_reach};
ghost use Rattle.duty_listing.specs.Uses.{use_data};
ghost use Rattle.duty_writer.specs.Terms.{term_data};
ghost use Rattle.duty_writer.specs.Made.{Makes};

use crate::numbered::Numbered;
use duty_builder::{MOST_FUEL, Start, reached};
use duty_listing::{Use, uses_in};
use duty_meaning::Duty;
use duty_writer::{MakeErr, Term, Writer};
use std::alloc::{AllocError, Global};
use type_schema::{TCommand, TInit, TScript};

/// The initialiser of the field that a command adds.
fn init_of_command(command: &TCommand) -> Option<&TInit>
    ensures { (t : Script) → option_map (λ init. init_of init.now) result
        ≡ init_in t (command_of command.now) }
{
    match command {
        TCommand::AddField(_, _, init) => Some(&**init),
        TCommand::CreateModel(_)
        | TCommand::DeleteModel(_)
        | TCommand::AddStatic(_)
        | TCommand::RemoveStatic(_)
        | TCommand::AddPrincipal(_)
        | TCommand::RemoveField(..)
        | TCommand::UpdateFieldPolicy(..)
        | TCommand::WeakenFieldPolicy(..)
        | TCommand::UpdatePolicy(..)
        | TCommand::WeakenPolicy(..) => None,
    }
}

/// The command of an obligation.
fn command_of_duty(t: &TScript, duty: Duty) -> Option<&TCommand>
    ensures { option_map (λ command. command_of command.now) result
        ≡ command_at (script_of t.now) (duty.command - 1) }
{
    let place = (duty.command as usize).saturating_sub(1);
    t.commands.as_slice().get(place)
}

/// The initialiser of the field that the command of an obligation adds.
pub(crate) fn init_of_duty(t: &TScript, duty: Duty) -> Option<&TInit>
    ensures { option_map (λ init. init_of init.now) result ≡ option_and_then
        (init_in (script_of t.now)) (command_at (script_of t.now) (duty.command - 1)) }
{
    match command_of_duty(t, duty) {
        Some(command) => init_of_command(command),
        None => None,
    }
}

/// The use at this place of an initialiser, counted from 0.
pub(crate) fn use_at(alloc: Global, init: &TInit, place: usize) -> Result<Option<Use>, AllocError>
    ensures { IfOk result (λ found. option_map use_data found
        ≡ slice_get (init_uses_of (init_of init.now)) place) }
{
    let uses = uses_in(alloc, init)?;
    Ok(uses.as_slice().get(place).copied())
}

/// Writes that the use of this number in an initialiser, counted from 0, reads its field of the
/// record that `source` is, where the initialiser is taken at the other one after k commands.
pub(crate) fn reached_at(
    w: &mut Writer,
    of: &Numbered<'_>,
    k: usize,
    init: &TInit,
    number: usize,
    row: &Term<'_>,
    source: &Term<'_>,
    above: u32,
) -> Result<u32, MakeErr>
    ensures { let t = script_of of.now.script.now in Makes w.old result w.new
        (init_reach t.start (written_at t k) (term_data source.now) (init_of init.now)
        (term_data row.now) number above) }
{
    let start = of.start_at(k);
    let upto = start.added.len();
    let made = reached(w, &start, upto, init, number, row, source, above, MOST_FUEL);
    let Start {
        schema: _,
        numbering: _,
        added: _,
    } = start;
    made
}
