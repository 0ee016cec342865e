//! The formula of an obligation.

ghost use Rattle.std.specs.Prelude.{◌≡◌, ◌≤◌, ◌<◌, ◌*◌, [], Contains, IfOk, Err, length};
ghost use Rattle.duty_meaning.specs.Duties.{formula_of, obligations_of};
ghost use Rattle.duty_meaning.specs.Sizes.{size};
ghost use Rattle.duty_writer.specs.declared.make_err.MakeErr.TheVariants.{Full};
ghost use Rattle.duty_formulas.specs.Limits.{largest_formula};
ghost use Rattle.form_formula.specs.Nodes.{StandsFor};
ghost use Rattle.type_schema.specs.Script.{IsScript};
ghost use Rattle.type_schema.specs.SchemaViews.{script_of};
ghost use Rattle.form_formula.specs.declared.limits.TheConstants.{MOST_ARENA_NODES};

use crate::flows::flow_formula;
use crate::gains::gain_formula;
use crate::numbered::Numbered;
use duty_meaning::Duty;
use duty_writer::MakeErr;
use form_formula::Arena;
use std::alloc::Global;

/// Makes the formula of an obligation of the script, in an arena that is empty, and gives its
/// number. There is room in the arena for the normal form. The error `Full` comes only where the
/// formula has more than 500,000 nodes.
pub fn duty_formula(
    alloc: Global,
    arena: &mut Arena,
    of: &Numbered<'_>,
    duty: Duty,
) -> Result<u32, MakeErr>
    requires empty { arena.old ≡ [] }
    requires script { IsScript (script_of of.now.script.now) }
    requires listed { Contains (obligations_of (script_of of.now.script.now)) duty }
    ensures formula { IfOk result (λ id. StandsFor arena.new id (formula_of
        (script_of of.now.script.now) duty)) }
    ensures too_large { result ≡ Err Full
        → largest_formula < size (formula_of (script_of of.now.script.now) duty) }
    ensures room { IfOk result (λ id. 3 * length arena.new ≤ MOST_ARENA_NODES) }
{
    match duty.spot {
        Some(spot) => flow_formula(alloc, arena, of, duty, spot),
        None => gain_formula(alloc, arena, of, duty),
    }
}
