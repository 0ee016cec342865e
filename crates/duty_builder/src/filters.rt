//! Filters, and the values that they compare.
//!
//! Beside what it is about, a function takes what all hand on: the writer, the start, how many
//! quantifiers stand above, and how deep the walk may go. So some have up to ten parameters.

ghost use Rattle.std.specs.Prelude.{◌≡◌, ◌∷◌, map, fold};
ghost use Rattle.type_schema.specs.Trees as plain;
ghost use Rattle.type_schema.specs.Views.{filter_of, filters_of};
ghost use Rattle.form_formula.specs.Nodes.{formula_of};
ghost use Rattle.form_formula.specs.Trees as tree;
ghost use Rattle.duty_meaning.specs.Cases.{and_if};
ghost use Rattle.duty_meaning.specs.Cases.{all_if};
ghost use Rattle.duty_meaning.specs.Formulas.{filters_at, nothing_written, passes};
ghost use Rattle.duty_writer.specs.Terms.{term_data};
ghost use Rattle.duty_writer.specs.Made.{Makes, MakesFor, IsPart};
ghost use Rattle.duty_builder.specs.Values.{schema_in, written_in, scene_data, source_data};
ghost use Rattle.duty_builder.specs.Values.{rest_cost};

use crate::added::upto_of;
use crate::conditions::compare;
use crate::start::Start;
use crate::values::{Goal, Scene, Source, Steps, deeper, test_of};
use crate::walking::ask;
use duty_writer::{MakeErr, Term, Writer};
use text_tree::FilterOp;
use type_schema::{ModelNo, TFilter};

/// Writes whether what a field holds passes the test of a filter.
#[cycle(formulas)]
fn pass(
    w: &mut Writer,
    start: &Start<'_>,
    op: FilterOp,
    held: &Source<'_>,
    v: &Source<'_>,
    sign: bool,
    above: u32,
    fuel: u32,
) -> Result<u32, MakeErr>
    ensures { let c = start.now in let s = schema_in c in Makes w.old result w.new
        (passes s nothing_written op (source_data c held.now) (source_data c v.now) sign above) }
{
    let fuel = deeper(fuel)?;
    match op {
        FilterOp::Cmp(op) => compare(w, start, op, &*held, &*v, sign, above, fuel),
        FilterOp::Has => ask(
            w,
            start,
            &*v,
            &Steps::Done,
            &Goal::In(sign, &*held),
            above,
            fuel,
        ),
    }
}

/// Writes whether the record of the model that a term is meets every filter.
#[cycle(formulas)]
pub(crate) fn meets(
    w: &mut Writer,
    start: &Start<'_>,
    scene: &Scene<'_>,
    m: ModelNo,
    filters: &[TFilter],
    t: &Term<'_>,
    sign: bool,
    above: u32,
    fuel: u32,
) -> Result<u32, MakeErr>
    ensures { let c = start.now in let s = schema_in c in Makes w.old result w.new
        (all_if sign (filters_at s (written_in c scene.now) (scene_data c scene.now)
        m (filters_of (map filter_of filters.now)) (term_data t.now) sign above)) }
{
    let fuel = deeper(fuel)?;
    match filters {
        [] => w.constant(sign),
        [first, rest @ ..] => {
            let id = meets_one(w, start, &*scene, m, first, &*t, sign, above, fuel)?;
            meets_more(w, start, &*scene, m, rest, &*t, sign, id, above, fuel)
        }
    }
}

/// Writes whether the record of the model that a term is meets the filter.
#[cycle(formulas)]
fn meets_one(
    w: &mut Writer,
    start: &Start<'_>,
    scene: &Scene<'_>,
    m: ModelNo,
    filter: &TFilter,
    t: &Term<'_>,
    sign: bool,
    above: u32,
    fuel: u32,
) -> Result<u32, MakeErr>
    ensures { let c = start.now in let s = schema_in c in (f : tree.Formula) →
        ((rest : plain.Filters) → filters_at s (written_in c scene.now) (scene_data c scene.now)
        m (filter_of filter.now rest) (term_data t.now) sign above
        ≡ f ∷ filters_at s (written_in c scene.now) (scene_data c scene.now)
        m rest (term_data t.now) sign above) → Makes w.old result w.new f }
{
    let fuel = deeper(fuel)?;
    let test = test_of(&*filter);
    let held = Source::Field(upto_of(&*scene), m, test.0, &*t);
    let v = Source::Expr(&*scene, test.2);
    pass(w, start, test.1, &held, &v, sign, above, fuel)
}

/// Writes whether a formula holds and the record of the model that a term is meets the filters.
#[cycle(formulas)]
fn meets_more(
    w: &mut Writer,
    start: &Start<'_>,
    scene: &Scene<'_>,
    m: ModelNo,
    filters: &[TFilter],
    t: &Term<'_>,
    sign: bool,
    id: u32,
    above: u32,
    fuel: u32,
) -> Result<u32, MakeErr>
    requires { IsPart w.old id }
    ensures { let c = start.now in let s = schema_in c in
        let formulas = filters_at s (written_in c scene.now) (scene_data c scene.now)
        m (filters_of (map filter_of filters.now)) (term_data t.now) sign above in
        MakesFor (rest_cost formulas) w.old result w.new
        (fold (and_if sign) (formula_of w.old.arena id) formulas) }
{
    let fuel = deeper(fuel)?;
    match filters {
        [] => Ok(id),
        [first, rest @ ..] => {
            let a = meets_one(w, start, &*scene, m, first, &*t, sign, above, fuel)?;
            let id = w.and_if(sign, id, a)?;
            meets_more(w, start, &*scene, m, rest, &*t, sign, id, above, fuel)
        }
    }
}
