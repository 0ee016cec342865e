//! Whether a witness is real over another start database.

ghost use Rattle.std.specs.Prelude.{◌≡◌, ◌≤◌, IfOk, take};
ghost use Rattle.std.specs.Bool.{Decides};
ghost use Rattle.std.specs.List.{list_any};
ghost use Rattle.data_meaning.specs.Gain.{IsStart};
ghost use Rattle.data_meaning.specs.Run.{run_to};
ghost use Rattle.type_schema.specs.Script.{IsScript, count};
ghost use Rattle.type_schema.specs.SchemaViews.{command_of, script_of};
ghost use Rattle.check_report.specs.Views.{witness_data};
ghost use Rattle.impact_shrink.specs.Judged as rule;
ghost use Rattle.impact_shrink.specs.Real.{IsReal};
ghost use Rattle.impact_shrink.specs.Small.{over};

use crate::rights::{are_there, has_right, may_read, touches};
use check_report::Witness;
use data_meaning::Cell;
use data_records::Database;
use std::alloc::{AllocError, Global};
use store_migrate::prefix;
use type_schema::{TCommand, TScript};

/// Whether the command newly allows the principal the right on the record.
fn is_newly_allowed(
    alloc: Global,
    t: &TScript,
    w: &Witness,
    after: &Database,
) -> Result<bool, AllocError>
    ensures { IfOk result (λ b. b
        ≡ rule.is_newly_allowed (script_of t.now) (witness_data w.now) after.now) }
{
    if !are_there(w, after) {
        return Ok(false);
    }
    if !has_right(alloc, t, w, w.command, after)? {
        return Ok(false);
    }
    let before = has_right(alloc, t, w, w.command.saturating_sub(1), after)?;
    Ok(!before)
}

/// Whether the principal reads the cell through the field that the command adds.
fn leaks(
    alloc: Global,
    t: &TScript,
    w: &Witness,
    after: &Database,
    cell: Cell,
) -> Result<bool, AllocError>
    ensures { IfOk result (λ b. b
        ≡ rule.leaks (script_of t.now) (witness_data w.now) after.now cell) }
{
    if !are_there(w, after) {
        return Ok(false);
    }
    if !has_right(alloc, t, w, w.command, after)? {
        return Ok(false);
    }
    if !touches(alloc, t, w, after, cell)? {
        return Ok(false);
    }
    let read = may_read(alloc, t, w, after, cell)?;
    Ok(!read)
}

/// Whether the witness is real over a start database, by the database after its command.
fn is_real_after(
    alloc: Global,
    t: &TScript,
    w: &Witness,
    d: &Database,
    after: &Database,
) -> Result<bool, AllocError>
    requires start { IsStart (script_of t.now) d.now }
    requires real { IsReal (script_of t.now) (witness_data w.now) }
    requires after { after.now ≡ run_to (script_of t.now) w.now.command d.now }
    ensures { IfOk result (λ b. Decides b
        (IsReal (script_of t.now) (over (witness_data w.now) d.now))) }
{
    let _d = d;
    match w.cell {
        Some(cell) => leaks(alloc, t, w, after, cell),
        None => is_newly_allowed(alloc, t, w, after),
    }
}

/// Whether the command changes databases.
fn changes(command: &TCommand) -> bool
    ensures { result ≡ rule.changes (command_of command.now) }
{
    match command {
        TCommand::DeleteModel(_) | TCommand::AddField(..) | TCommand::RemoveField(..) => true,
        TCommand::CreateModel(_)
        | TCommand::AddStatic(_)
        | TCommand::RemoveStatic(_)
        | TCommand::AddPrincipal(_)
        | TCommand::UpdateFieldPolicy(..)
        | TCommand::WeakenFieldPolicy(..)
        | TCommand::UpdatePolicy(..)
        | TCommand::WeakenPolicy(..) => false,
    }
}

/// Whether one of the commands changes databases.
fn any_changes(commands: &[TCommand]) -> bool
    ensures { result ≡ list_any (λ c. rule.changes (command_of c)) commands.now }
{
    commands.iter().any(|command| changes(command))
}

/// Whether one of the first k commands changes databases.
fn changes_within(t: &TScript, k: u32) -> bool
    requires { k ≤ count (script_of t.now) }
    ensures { result ≡ list_any rule.changes (take k (script_of t.now).commands) }
{
    let commands = t.commands.as_slice();
    any_changes(&commands[..k as usize])
}

/// Whether a real witness is real over another start database, of which a copy is taken through the
/// commands up to the witness's own.
fn is_real_moved(alloc: Global, t: &TScript, w: &Witness, d: &Database) -> Result<bool, AllocError>
    requires script { IsScript (script_of t.now) }
    requires real { IsReal (script_of t.now) (witness_data w.now) }
    requires start { IsStart (script_of t.now) d.now }
    ensures { IfOk result (λ b. Decides b
        (IsReal (script_of t.now) (over (witness_data w.now) d.now))) }
{
    let after = prefix(alloc, t, w.command, d)?;
    is_real_after(alloc, t, w, d, &after)
}

/// Whether a real witness is real over another start database. That one is copied only where a
/// command up to the witness's own changes databases.
pub fn is_real(alloc: Global, t: &TScript, w: &Witness, d: &Database) -> Result<bool, AllocError>
    requires script { IsScript (script_of t.now) }
    requires real { IsReal (script_of t.now) (witness_data w.now) }
    requires start { IsStart (script_of t.now) d.now }
    ensures { IfOk result (λ b. Decides b
        (IsReal (script_of t.now) (over (witness_data w.now) d.now))) }
{
    if changes_within(t, w.command) {
        return is_real_moved(alloc, t, w, d);
    }
    is_real_after(alloc, t, w, d, d)
}
