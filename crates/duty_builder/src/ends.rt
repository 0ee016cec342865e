//! What is asked of the ends of values.
//!
//! Beside what it is about, a function takes what all hand on: the writer, the start, how many
//! quantifiers stand above, and how deep the walk may go. So some have up to ten parameters.

ghost use Rattle.std.specs.Prelude.{◌∷◌, ◌++◌, []};
ghost use Rattle.type_schema.specs.Views.{set_of};
ghost use Rattle.form_formula.specs.Trees as tree;
ghost use Rattle.duty_meaning.specs.Cases.{of_term, of_option};
ghost use Rattle.duty_meaning.specs.Cases.{end_holds, end_has};
ghost use Rattle.duty_meaning.specs.Cases.{chosen};
ghost use Rattle.duty_meaning.specs.Formulas.{is_in};
ghost use Rattle.duty_writer.specs.Terms.{term_data};
ghost use Rattle.duty_writer.specs.Made.{Makes};
ghost use Rattle.duty_builder.specs.Values.{schema_in, written_in, scene_data, end_data};
ghost use Rattle.duty_builder.specs.Values.{who_data, goal_data, term_goal};

use crate::conditions::{condition, equal, less};
use crate::formulas::choose;
use crate::members::member;
use crate::reaches::{end_cost, taken};
use crate::start::Start;
use crate::values::{End, Goal, Part, Scene, Steps, Who, asked_about, deeper};
use crate::walking::ask;
use duty_writer::{MakeErr, Term, Writer};
use type_schema::TSet;

/// Writes what is asked of an end.
#[cycle(formulas)]
pub(crate) fn finish(
    w: &mut Writer,
    start: &Start<'_>,
    end: &End<'_>,
    goal: &Goal<'_>,
    above: u32,
    fuel: u32,
) -> Result<u32, MakeErr>
    ensures { let c = start.now in let s = schema_in c in Makes w.old result w.new
        (goal_data c goal.now above (end_data c end.now)) }
{
    let fuel = deeper(fuel)?;
    match goal {
        Goal::Holds(sign) => end_holds(w, start, &*end, *sign, above, fuel),
        Goal::Has(sign, u) => end_has(w, start, &*end, *sign, &**u, above, fuel),
        Goal::Chosen(sign, scene, a, c, who) => {
            choose_set(
                w, start, &**scene, &**a, &**c, &**who, *sign, &*end, above, fuel,
            )
        }
        Goal::Taken(sign, scene, used, y) => {
            taken(w, start, &*end, *sign, &**scene, &**used, &**y, above, fuel)
        }
        Goal::Cost => end_cost(w, start, &*end, above, fuel),
        Goal::Equal(..)
        | Goal::Below(..)
        | Goal::EqualTo(..)
        | Goal::LessThan(..)
        | Goal::Within(..)
        | Goal::Is(..)
        | Goal::In(..) => end_term(w, start, &*end, &*goal, above, fuel),
    }
}

/// Writes whether the truth value at an end is as the sign says.
#[cycle(formulas)]
fn end_holds(
    w: &mut Writer,
    start: &Start<'_>,
    end: &End<'_>,
    sign: bool,
    above: u32,
    fuel: u32,
) -> Result<u32, MakeErr>
    ensures { let c = start.now in let s = schema_in c in Makes w.old result w.new
        (end_holds s sign above (end_data c end.now)) }
{
    let fuel = deeper(fuel)?;
    match end {
        End::Held(m, f, t) => w.flag(sign, start.function_for(w.mode, *m, *f), &**t),
        End::Truth(scene, e) => condition(w, start, &**scene, &**e, sign, above, fuel),
        End::Term(_) | End::Among(..) | End::None | End::Some(_) => w.constant(false),
    }
}

/// Writes whether the set at an end has a term.
#[cycle(formulas)]
fn end_has(
    w: &mut Writer,
    start: &Start<'_>,
    end: &End<'_>,
    sign: bool,
    u: &Term<'_>,
    above: u32,
    fuel: u32,
) -> Result<u32, MakeErr>
    ensures { let c = start.now in let s = schema_in c in Makes w.old result w.new
        (end_has s (term_data u.now) sign above (end_data c end.now)) }
{
    let fuel = deeper(fuel)?;
    match end {
        End::Held(m, f, t) => w.has(sign, start.relation_for(w.mode, *m, *f), &**t, &*u),
        End::Among(scene, m, set) => {
            let who = Who::Record(*m, &*u);
            member(w, start, &**scene, &**set, &who, sign, above, fuel)
        }
        End::Term(_) | End::Truth(..) | End::None | End::Some(_) => w.constant(false),
    }
}

/// Writes what is asked of the term at an end.
#[cycle(formulas)]
fn end_term(
    w: &mut Writer,
    start: &Start<'_>,
    end: &End<'_>,
    goal: &Goal<'_>,
    above: u32,
    fuel: u32,
) -> Result<u32, MakeErr>
    ensures { let c = start.now in let s = schema_in c in Makes w.old result w.new
        (of_term s tree.no (term_goal c goal.now above) (end_data c end.now)) }
{
    let fuel = deeper(fuel)?;
    match end {
        End::Term(t) => at_term(w, start, &**t, &*goal, above, fuel),
        End::Held(m, f, t) => {
            let t = Term::App(start.function_of(*m, *f), &**t);
            at_term(w, start, &t, &*goal, above, fuel)
        }
        End::Truth(..) | End::Among(..) | End::None | End::Some(_) => w.constant(false),
    }
}

// Long, since each thing that is asked has its own arm.
/// Writes what is asked of a term.
#[cycle(formulas)]
fn at_term(
    w: &mut Writer,
    start: &Start<'_>,
    t: &Term<'_>,
    goal: &Goal<'_>,
    above: u32,
    fuel: u32,
) -> Result<u32, MakeErr>
    ensures { let c = start.now in let s = schema_in c in Makes w.old result w.new
        (term_goal c goal.now above (term_data t.now)) }
{
    let fuel = deeper(fuel)?;
    match goal {
        Goal::Equal(sign, u) => w.equal(*sign, &**u, &*t),
        Goal::Below(sign, u) => w.less(*sign, &**u, &*t),
        Goal::EqualTo(sign, v) => {
            ask(
                w,
                start,
                &**v,
                &Steps::Done,
                &Goal::Equal(*sign, &*t),
                above,
                fuel,
            )
        }
        Goal::LessThan(sign, v) => {
            ask(
                w,
                start,
                &**v,
                &Steps::Done,
                &Goal::Below(*sign, &*t),
                above,
                fuel,
            )
        }
        Goal::Within(sign, scene, m, set) => {
            let who = Who::Record(*m, &*t);
            member(w, start, &**scene, &**set, &who, *sign, above, fuel)
        }
        Goal::Is(sign, m, who) => match asked_about(&**who, *m) {
            Some(u) => w.equal(*sign, u, &*t),
            None => w.constant(!*sign),
        },
        Goal::In(sign, v) => ask(
            w,
            start,
            &**v,
            &Steps::Done,
            &Goal::Has(*sign, &*t),
            above,
            fuel,
        ),
        Goal::Holds(_) | Goal::Has(..) | Goal::Chosen(..) | Goal::Taken(..) | Goal::Cost =>
            w.constant(false),
    }
}

/// Writes whether who is asked about is in the set that the option at an end chooses.
#[cycle(formulas)]
fn choose_set(
    w: &mut Writer,
    start: &Start<'_>,
    scene: &Scene<'_>,
    a: &TSet,
    some: &TSet,
    who: &Who<'_>,
    sign: bool,
    end: &End<'_>,
    above: u32,
    fuel: u32,
) -> Result<u32, MakeErr>
    ensures { let c = start.now in let s = schema_in c in Makes w.old result w.new
        (of_option s (chosen above)
        (is_in s (written_in c scene.now) (scene_data c scene.now) (set_of a.now) (who_data who.now) sign above)
        (λ x. is_in s (written_in c scene.now) (scene_data c scene.now ++ x ∷ []) (set_of some.now)
        (who_data who.now) sign above) (end_data c end.now)) }
{
    let fuel = deeper(fuel)?;
    match end {
        End::Some(v) => {
            let scene = Scene::Inner(&*scene, &**v);
            member(w, start, &scene, &*some, &*who, sign, above, fuel)
        }
        End::Held(m, f, t) => {
            let inner = Scene::Inner(&*scene, &*end);
            let then = Part::Member(&*scene, &*a, &*who, sign);
            let other = Part::Member(&inner, &*some, &*who, sign);
            let yes = Part::Present(false, *m, *f, &**t);
            let no = Part::Present(true, *m, *f, &**t);
            choose(w, start, &yes, &then, &no, &other, above, fuel)
        }
        End::Term(_) | End::Truth(..) | End::Among(..) | End::None => {
            member(w, start, &*scene, &*a, &*who, sign, above, fuel)
        }
    }
}
