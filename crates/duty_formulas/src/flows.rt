//! The formula of an obligation against a leak.

ghost use Rattle.std.specs.Prelude.{◌≡◌, ◌≤◌, ◌<◌, ◌*◌, IfOk, Err, Some, length};
ghost use Rattle.duty_meaning.specs.Duties.{flow_formula_of, leak_formula};
ghost use Rattle.duty_meaning.specs.Sizes.{size};
ghost use Rattle.form_formula.specs.Nodes.{StandsFor};
ghost use Rattle.type_schema.specs.SchemaViews.{script_of};
ghost use Rattle.type_schema.specs.Views.{init_of};
ghost use Rattle.duty_listing.specs.Uses.{use_data};
ghost use Rattle.duty_writer.specs.Terms.{term_data};
ghost use Rattle.duty_builder.specs.Values.{who_data};
ghost use Rattle.duty_formulas.specs.Parts as part;
ghost use Rattle.duty_writer.specs.Made.{Makes};
ghost use Rattle.duty_writer.specs.declared.make_err.MakeErr.TheVariants.{Full};
ghost use Rattle.duty_formulas.specs.Limits.{largest_formula};
ghost use Rattle.form_formula.specs.declared.limits.TheConstants.{MOST_ARENA_NODES};

use crate::arenas::{put_back, writer_over};
use crate::gains::model_of_target;
use crate::numbered::Numbered;
use crate::rights::right_at;
use crate::uses::{init_of_duty, reached_at, use_at};
use duty_builder::Who;
use duty_listing::Use;
use duty_meaning::Duty;
use duty_writer::{MakeErr, Term, Writer};
use form_formula::Arena;
use std::alloc::Global;
use type_schema::{Kind, Right, TInit, Target};

/// The use of a field that an obligation against a leak is about.
#[derive(Clone, Copy)]
struct Spot<'a> {
    duty: Duty,
    /// The initialiser of the field that the command adds.
    init: &'a TInit,
    /// The number of the use in the initialiser, from 0.
    number: usize,
    /// The field that is used.
    at: Use,
}

/// Writes that the use reads its field of the record that `source` is, where the initialiser is
/// taken at the other one, and that who is asked about may not read it there.
fn denied(
    w: &mut Writer,
    of: &Numbered<'_>,
    spot: &Spot<'_>,
    row: &Term<'_>,
    who: &Who<'_>,
    source: &Term<'_>,
    above: u32,
) -> Result<u32, MakeErr>
    ensures { let s = spot.now in Makes w.old result w.new
        (part.denied (script_of of.now.script.now) s.duty (init_of s.init.now) s.number
        (use_data s.at) (term_data row.now) (who_data who.now) (term_data source.now) above) }
{
    let k = spot.duty.command as usize;
    let reads = reached_at(w, of, k, spot.init, spot.number, row, source, above)?;
    let target = Target::Field(spot.at.model, spot.at.field);
    let may_not = right_at(w, of, k, target, Right::Read, source, who, false, above)?;
    w.both(reads, may_not)
}

/// Writes that who is asked about may read the added field on the record, too.
fn leaked(
    w: &mut Writer,
    of: &Numbered<'_>,
    spot: &Spot<'_>,
    row: &Term<'_>,
    who: &Who<'_>,
    source: &Term<'_>,
    above: u32,
) -> Result<u32, MakeErr>
    ensures { let s = spot.now in Makes w.old result w.new
        (part.leaked (script_of of.now.script.now) s.duty (init_of s.init.now) s.number
        (use_data s.at) (term_data row.now) (who_data who.now) (term_data source.now) above) }
{
    let k = spot.duty.command as usize;
    let target = spot.duty.target;
    let may = right_at(w, of, k, target, Right::Read, row, who, true, above)?;
    let rest = denied(w, of, spot, row, who, source, above)?;
    w.both(may, rest)
}

/// Writes that it is so for some record whose field is read.
fn leaked_from_some(
    w: &mut Writer,
    of: &Numbered<'_>,
    spot: &Spot<'_>,
    row: &Term<'_>,
    who: &Who<'_>,
    above: u32,
) -> Result<u32, MakeErr>
    requires { above ≤ 2 }
    ensures { let s = spot.now in Makes w.old result w.new
        (part.leaked_from_some (script_of of.now.script.now) s.duty (init_of s.init.now) s.number
        (use_data s.at) (term_data row.now) (who_data who.now) above) }
{
    let sort = of.sort_of(spot.at.model);
    let source = Term::Bound(sort, above);
    let id = leaked(w, of, spot, row, who, &source, above + 1)?;
    w.exists(sort, id)
}

/// Writes that it is so for some principal of the kind.
fn leaked_to_some(
    w: &mut Writer,
    of: &Numbered<'_>,
    spot: &Spot<'_>,
    row: &Term<'_>,
) -> Result<u32, MakeErr>
    ensures { let s = spot.now in Makes w.old result w.new
        (part.leaked_to_some (script_of of.now.script.now) s.duty (init_of s.init.now) s.number
        (use_data s.at) (term_data row.now)) }
{
    match spot.duty.kind {
        Kind::Static(n) => leaked_from_some(w, of, spot, row, &Who::Static(n), 1),
        Kind::Model(m) => {
            let sort = of.sort_of(m);
            let term = Term::Bound(sort, 1);
            let id = leaked_from_some(w, of, spot, row, &Who::Record(m, &term), 2)?;
            w.exists(sort, id)
        }
    }
}

/// Writes that the use leaks.
fn leak(w: &mut Writer, of: &Numbered<'_>, spot: &Spot<'_>) -> Result<u32, MakeErr>
    ensures { let s = spot.now in Makes w.old result w.new
        (leak_formula (script_of of.now.script.now) s.duty (init_of s.init.now) s.number
        (use_data s.at)) }
{
    let sort = of.sort_of(model_of_target(spot.duty.target));
    let id = leaked_to_some(w, of, spot, &Term::Bound(sort, 0))?;
    w.exists(sort, id)
}

/// Writes the formula of an obligation against a leak of the use of this number, counted from 1.
fn flow(
    alloc: Global,
    w: &mut Writer,
    of: &Numbered<'_>,
    duty: Duty,
    spot: u32,
) -> Result<u32, MakeErr>
    ensures { Makes w.old result w.new
        (flow_formula_of (script_of of.now.script.now) duty spot) }
{
    let Some(init) = init_of_duty(of.script, duty) else {
        return w.constant(false);
    };
    let number = (spot as usize).saturating_sub(1);
    let Some(at) = use_at(alloc, init, number)? else {
        return w.constant(false);
    };
    let spot = Spot {
        duty,
        init,
        number,
        at,
    };
    leak(w, of, &spot)
}

/// Makes the formula of an obligation of the script that is against a leak, in the arena, and gives
/// its number: some principal of the kind may read the added field on some record, and the use
/// reads its field of a record on which that principal may not read it. There is room in the arena
/// for the normal form. The error `Full` comes only where the formula has more than 500,000 nodes.
pub fn flow_formula(
    alloc: Global,
    arena: &mut Arena,
    of: &Numbered<'_>,
    duty: Duty,
    spot: u32,
) -> Result<u32, MakeErr>
    requires { duty.spot ≡ Some spot }
    ensures formula { IfOk result (λ id. StandsFor arena.new id
        (flow_formula_of (script_of of.now.script.now) duty spot)) }
    ensures too_large { result ≡ Err Full
        → largest_formula < size (flow_formula_of (script_of of.now.script.now) duty spot) }
    ensures room { IfOk result (λ id. 3 * length arena.new ≤ MOST_ARENA_NODES) }
{
    let mut w = writer_over(alloc, arena)?;
    let made = flow(alloc, &mut w, of, duty, spot);
    put_back(arena, w, made)
}
