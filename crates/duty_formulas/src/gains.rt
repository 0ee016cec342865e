//! The formula of an obligation against a gain.

ghost use Rattle.std.specs.Prelude.{◌≡◌, ◌≤◌, ◌<◌, ◌*◌, IfOk, Err, None, length};
ghost use Rattle.duty_meaning.specs.Duties.{gain_formula_of};
ghost use Rattle.duty_meaning.specs.Sizes.{size};
ghost use Rattle.form_formula.specs.Nodes.{StandsFor};
ghost use Rattle.type_schema.specs.Schema as plain;
ghost use Rattle.type_schema.specs.SchemaViews.{script_of};
ghost use Rattle.duty_writer.specs.Terms.{term_data};
ghost use Rattle.duty_builder.specs.Values.{who_data};
ghost use Rattle.duty_formulas.specs.Parts as part;
ghost use Rattle.duty_writer.specs.Made.{Makes};
ghost use Rattle.duty_writer.specs.declared.make_err.MakeErr.TheVariants.{Full};
ghost use Rattle.duty_formulas.specs.Limits.{largest_formula};
ghost use Rattle.form_formula.specs.declared.limits.TheConstants.{MOST_ARENA_NODES};

use crate::arenas::{put_back, writer_over};
use crate::numbered::Numbered;
use crate::rights::right_at;
use duty_builder::Who;
use duty_meaning::Duty;
use duty_writer::{MakeErr, Term, Writer};
use form_formula::Arena;
use std::alloc::Global;
use type_schema::{Kind, ModelNo, Target};

/// The model whose records a right is on.
pub(crate) fn model_of_target(target: Target) -> ModelNo
    ensures { result ≡ plain.model_of_target target }
{
    match target {
        Target::Field(m, _) | Target::Model(m) => m,
    }
}

/// Writes that who is asked about has the right on the record after the command and not before.
fn gained(
    w: &mut Writer,
    of: &Numbered<'_>,
    duty: Duty,
    row: &Term<'_>,
    who: &Who<'_>,
    above: u32,
) -> Result<u32, MakeErr>
    ensures { Makes w.old result w.new (part.gained (script_of of.now.script.now) duty
        (term_data row.now) (who_data who.now) above) }
{
    let k = duty.command as usize;
    let (target, right) = (duty.target, duty.right);
    let after = right_at(w, of, k, target, right, row, who, true, above)?;
    let before = k.saturating_sub(1);
    let not_before = right_at(w, of, before, target, right, row, who, false, above)?;
    w.both(after, not_before)
}

/// Writes that some principal of the kind gains the right on the record.
fn gained_by_some(
    w: &mut Writer,
    of: &Numbered<'_>,
    duty: Duty,
    row: &Term<'_>,
) -> Result<u32, MakeErr>
    ensures { Makes w.old result w.new
        (part.gained_by_some (script_of of.now.script.now) duty (term_data row.now)) }
{
    match duty.kind {
        Kind::Static(n) => gained(w, of, duty, row, &Who::Static(n), 1),
        Kind::Model(m) => {
            let sort = of.sort_of(m);
            let term = Term::Bound(sort, 1);
            let id = gained(w, of, duty, row, &Who::Record(m, &term), 2)?;
            w.exists(sort, id)
        }
    }
}

/// Writes the formula of an obligation against a gain.
fn gain(w: &mut Writer, of: &Numbered<'_>, duty: Duty) -> Result<u32, MakeErr>
    ensures { Makes w.old result w.new
        (gain_formula_of (script_of of.now.script.now) duty) }
{
    let sort = of.sort_of(model_of_target(duty.target));
    let id = gained_by_some(w, of, duty, &Term::Bound(sort, 0))?;
    w.exists(sort, id)
}

/// Makes the formula of an obligation of the script that is against a gain, in the arena, and gives
/// its number: after the command some principal of the kind has the right on some record, and
/// before it that principal did not have it. There is room in the arena for the normal form. The
/// error `Full` comes only where the formula has more than 500,000 nodes.
pub fn gain_formula(
    alloc: Global,
    arena: &mut Arena,
    of: &Numbered<'_>,
    duty: Duty,
) -> Result<u32, MakeErr>
    requires { duty.spot ≡ None }
    ensures formula { IfOk result (λ id. StandsFor arena.new id
        (gain_formula_of (script_of of.now.script.now) duty)) }
    ensures too_large { result ≡ Err Full
        → largest_formula < size (gain_formula_of (script_of of.now.script.now) duty) }
    ensures room { IfOk result (λ id. 3 * length arena.new ≤ MOST_ARENA_NODES) }
{
    let mut w = writer_over(alloc, arena)?;
    let made = gain(&mut w, of, duty);
    put_back(arena, w, made)
}
