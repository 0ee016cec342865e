//! The weakenings of a script.

ghost use Rattle.std.specs.Prelude.{◌≡◌, ◌-◌, IfOk, false, filter};
ghost use Rattle.std.specs.Option.{option_map_or};
ghost use Rattle.impact_meaning.specs.Undeclared as rule;
ghost use Rattle.type_schema.specs.Script.{command_at};
ghost use Rattle.type_schema.specs.SchemaViews.{command_of, script_of};

use duty_listing::duties;
use duty_meaning::Duty;
use impact_meaning::is_weakening;
use std::alloc::{AllocError, Global};
use type_schema::TScript;

/// Whether the command of the obligation declares a weakening.
fn is_of_weakening(t: &TScript, duty: Duty) -> bool
    ensures { result ≡ option_map_or rule.is_weakening
        (command_at (script_of t.now) (duty.command - 1)) false }
{
    let place = (duty.command as usize).saturating_sub(1);
    match t.commands.as_slice().get(place) {
        Some(command) => is_weakening(command),
        None => false,
    }
}

/// Those of the obligations whose commands declare a weakening.
fn of_weakenings(alloc: Global, t: &TScript, duties: &[Duty]) -> Result<Vec<Duty>, AllocError>
    ensures { IfOk result (λ found. found.items
        ≡ filter (λ duty. option_map_or rule.is_weakening (command_at (script_of t.now)
        (duty.command - 1)) false) duties.now) }
{
    let mut found = Vec::new(alloc);
    for duty in duties {
        if is_of_weakening(t, *duty) {
            found.push(*duty)?;
        }
    }
    Ok(found)
}

/// The weakenings of the script, where this is the script with its weakenings taken for updates.
pub(crate) fn weakenings(
    alloc: Global,
    t: &TScript,
    undeclared: &TScript,
) -> Result<Vec<Duty>, AllocError>
    requires { script_of undeclared.now ≡ rule.undeclared (script_of t.now) }
    ensures { IfOk result (λ found. found.items ≡ rule.weakenings_of (script_of t.now)) }
{
    let all = duties(alloc, undeclared)?;
    of_weakenings(alloc, t, all.as_slice())
}
