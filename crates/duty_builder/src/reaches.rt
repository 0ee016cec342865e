//! The formulas of uses of fields: of which record a use reads its field.

ghost use Rattle.std.specs.Prelude.{◌≡◌, ◌++◌, ◌∷◌, [], true};
ghost use Rattle.type_schema.specs.Views.{expr_of, set_of};
ghost use Rattle.form_formula.specs.Trees as tree;
ghost use Rattle.duty_meaning.specs.Structures.{sort_of};
ghost use Rattle.duty_meaning.specs.Cases.{condition_of};
ghost use Rattle.duty_meaning.specs.Formulas.{cases_of};
ghost use Rattle.duty_meaning.specs.Reach.{end_is_none, end_is_some};
ghost use Rattle.duty_writer.specs.Terms.{term_data};
ghost use Rattle.duty_writer.specs.Made.{Makes};
ghost use Rattle.duty_builder.specs.Places.{use_data, place_data, each_formula, taken_data};
ghost use Rattle.duty_builder.specs.Values.{schema_in, written_in, scene_data, end_data, part_data};
ghost use Rattle.duty_builder.specs.Values.{end_formula};

use crate::conditions::condition;
use crate::formulas::{join, write};
use crate::places::{Place, place_of};
use crate::start::Start;
use crate::values::{End, Goal, Part, Scene, Source, Steps, Use, Who, below, deeper};
use crate::walking::walk;
use duty_writer::{MakeErr, Term, Writer};
use type_schema::{ModelNo, TExpr, TSet};

/// Writes that a use reads its field of the record that a term is.
#[cycle(formulas)]
pub(crate) fn reach(
    w: &mut Writer,
    start: &Start<'_>,
    scene: &Scene<'_>,
    used: &Use<'_>,
    y: &Term<'_>,
    above: u32,
    fuel: u32,
) -> Result<u32, MakeErr>
    ensures { let c = start.now in let s = schema_in c in Makes w.old result w.new
        (use_data s (written_in c scene.now) (term_data y.now) (scene_data c scene.now)
        used.now above) }
{
    let fuel = deeper(fuel)?;
    let place = place_of(&*used)?;
    at_place(w, start, &*scene, &place, &*y, above, fuel)
}

/// Writes that a use at this place reads its field of the record that a term is.
#[cycle(formulas)]
fn at_place(
    w: &mut Writer,
    start: &Start<'_>,
    scene: &Scene<'_>,
    place: &Place<'_>,
    y: &Term<'_>,
    above: u32,
    fuel: u32,
) -> Result<u32, MakeErr>
    ensures { let c = start.now in let s = schema_in c in Makes w.old result w.new
        (place_data s (written_in c scene.now) (term_data y.now) (scene_data c scene.now)
        place.now above) }
{
    let fuel = deeper(fuel)?;
    match place {
        Place::Nowhere => w.constant(false),
        Place::Filter => w.constant(true),
        Place::Access(e) => {
            let goal = Goal::Equal(true, &*y);
            walk(w, start, &*scene, &**e, &Steps::Done, &goal, above, fuel)
        }
        Place::Within(used) => reach(w, start, &*scene, used, &*y, above, fuel),
        Place::Where(e, sign, used) => {
            let source = Source::Expr(&*scene, &**e);
            let holds = Part::Holds(&source, *sign);
            let inner = Part::Reach(&*scene, used, &*y);
            join(w, start, true, &holds, &inner, above, fuel)
        }
        Place::Taken(e, sign, used) => {
            let goal = Goal::Taken(*sign, &*scene, used, &*y);
            walk(w, start, &*scene, &**e, &Steps::Done, &goal, above, fuel)
        }
        Place::Each(set, n, used) => {
            let sort = start.sort_of(*n);
            each(w, start, &*scene, &**set, *n, sort, used, &*y, above, fuel)
        }
    }
}

/// Writes that at some record of a set a use reads its field of the record that a term is.
#[cycle(formulas)]
fn each(
    w: &mut Writer,
    start: &Start<'_>,
    scene: &Scene<'_>,
    set: &TSet,
    n: ModelNo,
    sort: u32,
    used: &Use<'_>,
    y: &Term<'_>,
    above: u32,
    fuel: u32,
) -> Result<u32, MakeErr>
    requires { sort ≡ sort_of (schema_in start.now) n }
    ensures { let c = start.now in let s = schema_in c in Makes w.old result w.new
        (each_formula s (written_in c scene.now) (term_data y.now) (scene_data c scene.now)
        (set_of set.now) n used.now above) }
{
    let fuel = deeper(fuel)?;
    let inner = below(above)?;
    let t = Term::Bound(sort, above);
    let end = End::Term(&t);
    let scene_each = Scene::Inner(&*scene, &end);
    let record = Who::Record(n, &t);
    let a = Part::Member(&*scene, &*set, &record, true);
    let b = Part::Reach(&scene_each, &*used, &*y);
    let body = join(w, start, true, &a, &b, inner, fuel)?;
    w.exists(sort, body)
}

/// Writes that whether the option at an end has a value is as the sign says, and that a use in the
/// part that is taken then reads its field of the record that a term is.
#[cycle(formulas)]
pub(crate) fn taken(
    w: &mut Writer,
    start: &Start<'_>,
    end: &End<'_>,
    sign: bool,
    scene: &Scene<'_>,
    used: &Use<'_>,
    y: &Term<'_>,
    above: u32,
    fuel: u32,
) -> Result<u32, MakeErr>
    ensures { let c = start.now in let s = schema_in c in Makes w.old result w.new
        (taken_data s (written_in c scene.now) (term_data y.now) (scene_data c scene.now) sign
        used.now above (end_data c end.now)) }
{
    let fuel = deeper(fuel)?;
    if sign {
        end_if_some(w, start, &*end, &*scene, &*used, &*y, above, fuel)
    } else {
        let part = Part::Reach(&*scene, &*used, &*y);
        end_if_none(w, start, &*end, &part, above, fuel)
    }
}

/// Writes a part, and that the option at an end has no value.
#[cycle(formulas)]
fn end_if_none(
    w: &mut Writer,
    start: &Start<'_>,
    end: &End<'_>,
    part: &Part<'_>,
    above: u32,
    fuel: u32,
) -> Result<u32, MakeErr>
    ensures { let c = start.now in let s = schema_in c in Makes w.old result w.new
        (end_is_none s (part_data c above part.now) (end_data c end.now)) }
{
    let fuel = deeper(fuel)?;
    match end {
        End::Some(_) => w.constant(false),
        End::Held(m, f, t) => {
            let empty = Part::Present(false, *m, *f, &**t);
            join(w, start, true, &empty, &*part, above, fuel)
        }
        End::Term(_) | End::Truth(..) | End::Among(..) | End::None => {
            write(w, start, &*part, above, fuel)
        }
    }
}

/// Writes that the option at an end has a value, and that a use, where this is the value of one
/// more variable, reads its field of the record that a term is.
#[cycle(formulas)]
fn end_if_some(
    w: &mut Writer,
    start: &Start<'_>,
    end: &End<'_>,
    scene: &Scene<'_>,
    used: &Use<'_>,
    y: &Term<'_>,
    above: u32,
    fuel: u32,
) -> Result<u32, MakeErr>
    ensures { let c = start.now in let s = schema_in c in Makes w.old result w.new
        (end_is_some s (λ v. use_data s (written_in c scene.now) (term_data y.now)
        (scene_data c scene.now ++ v ∷ []) used.now above) (end_data c end.now)) }
{
    let fuel = deeper(fuel)?;
    match end {
        End::Some(v) => {
            let inner = Scene::Inner(&*scene, &**v);
            reach(w, start, &inner, &*used, &*y, above, fuel)
        }
        End::Held(m, f, t) => {
            let inner = Scene::Inner(&*scene, &*end);
            let full = Part::Present(true, *m, *f, &**t);
            let part = Part::Reach(&inner, &*used, &*y);
            join(w, start, true, &full, &part, above, fuel)
        }
        End::Term(_) | End::Truth(..) | End::Among(..) | End::None => w.constant(false),
    }
}

/// Writes a formula of the size that the value at an end counts as.
#[cycle(formulas)]
pub(crate) fn end_cost(
    w: &mut Writer,
    start: &Start<'_>,
    end: &End<'_>,
    above: u32,
    fuel: u32,
) -> Result<u32, MakeErr>
    ensures { let c = start.now in let s = schema_in c in Makes w.old result w.new
        (end_formula s above (end_data c end.now)) }
{
    let fuel = deeper(fuel)?;
    match end {
        End::Term(t) => w.equal(true, &Term::Bound(0, 0), &**t),
        End::Held(m, f, t) => {
            let t = Term::App(start.function_of(*m, *f), &**t);
            w.equal(true, &Term::Bound(0, 0), &t)
        }
        End::Truth(scene, e) => truth_cost(w, start, &**scene, &**e, above, fuel),
        End::Among(..) | End::None => w.constant(true),
        End::Some(v) => end_cost(w, start, &**v, above, fuel),
    }
}

/// Writes a formula of the size that the truth value of an expression counts as.
#[cycle(formulas)]
fn truth_cost(
    w: &mut Writer,
    start: &Start<'_>,
    scene: &Scene<'_>,
    e: &TExpr,
    above: u32,
    fuel: u32,
) -> Result<u32, MakeErr>
    ensures { let c = start.now in let s = schema_in c in Makes w.old result w.new
        (tree.exists 0 (condition_of s (cases_of s (written_in c scene.now)
        (scene_data c scene.now) (expr_of e.now)) true above)) }
{
    let fuel = deeper(fuel)?;
    let id = condition(w, start, &*scene, &*e, true, above, fuel)?;
    w.exists(0, id)
}
