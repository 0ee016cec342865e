//! Values, walked to their ends.
//!
//! Beside what it is about, a function takes what all hand on: the writer, the start, how many
//! quantifiers stand above, and how deep the walk may go. So some have up to ten parameters.

ghost use Rattle.std.specs.Prelude.{◌∷◌, ◌++◌, []};
ghost use Rattle.type_schema.specs.Views.{expr_of};
ghost use Rattle.duty_meaning.specs.Cases.{at_ends, of_term, of_option};
ghost use Rattle.duty_meaning.specs.Cases.{none, choice, some_of};
ghost use Rattle.duty_meaning.specs.Cases.{at_term};
ghost use Rattle.duty_meaning.specs.Formulas.{cases_of, field_cases};
ghost use Rattle.duty_writer.specs.Terms.{term_data};
ghost use Rattle.duty_writer.specs.Made.{Makes};
ghost use Rattle.duty_builder.specs.Values.{schema_in, written_in, written_upto, scene_data, end_data, source_data};
ghost use Rattle.duty_builder.specs.Values.{steps_data, goal_data, asked_of};

use crate::added::{init_at, upto_of, value_at};
use crate::chains::{
    Chain, LONG_ROW, LONG_STEPS, SHORT_ROW, SHORT_STEPS, Stop, follow, past_row, takes_field,
};
use crate::ends::finish;
use crate::formulas::choose_ask;
use crate::start::Start;
use crate::truths::{is_truth_at, is_truth_end};
use crate::values::{End, Goal, Part, Scene, Source, Steps, deeper};
use duty_writer::{MakeErr, Term, Writer};
use type_schema::{FieldNo, ModelNo, TExpr, TInit};

/// Asks of each end of a value, after the steps.
#[cycle(formulas)]
pub(crate) fn ask(
    w: &mut Writer,
    start: &Start<'_>,
    source: &Source<'_>,
    steps: &Steps<'_>,
    goal: &Goal<'_>,
    above: u32,
    fuel: u32,
) -> Result<u32, MakeErr>
    ensures { let c = start.now in let s = schema_in c in Makes w.old result w.new
        (asked_of c above steps.now goal.now (source_data c source.now)) }
{
    let fuel = deeper(fuel)?;
    match source {
        Source::Expr(scene, e) => walk(w, start, &**scene, &**e, &*steps, &*goal, above, fuel),
        Source::Field(upto, m, f, t) => {
            field(w, start, *upto, *m, *f, &**t, &*steps, &*goal, above, fuel)
        }
    }
}

// Long, since each form of an expression has its own arm.
/// Asks of each end of an expression, after the steps.
#[cycle(formulas)]
pub(crate) fn walk(
    w: &mut Writer,
    start: &Start<'_>,
    scene: &Scene<'_>,
    e: &TExpr,
    steps: &Steps<'_>,
    goal: &Goal<'_>,
    above: u32,
    fuel: u32,
) -> Result<u32, MakeErr>
    ensures { let c = start.now in let s = schema_in c in Makes w.old result w.new
        (asked_of c above steps.now goal.now
        (cases_of s (written_in c scene.now) (scene_data c scene.now) (expr_of e.now))) }
{
    let fuel = deeper(fuel)?;
    match e {
        TExpr::Num(n) => {
            let t = Term::Num(*n);
            ask_end(w, start, &End::Term(&t), &*steps, &*goal, above, fuel)
        }
        TExpr::Str(text) => {
            let t = Term::Str(text);
            ask_end(w, start, &End::Term(&t), &*steps, &*goal, above, fuel)
        }
        TExpr::Var(place, _) => {
            let end = value_at(start, &*scene, *place)?;
            ask_end(w, start, &end, &*steps, &*goal, above, fuel)
        }
        TExpr::NoneLit => ask_end(w, start, &End::None, &*steps, &*goal, above, fuel),
        TExpr::SomeLit(a) => wrap(w, start, &*scene, a.get(), &*steps, &*goal, above, fuel),
        TExpr::Get(a, m, f) => {
            let steps = Steps::Get(upto_of(&*scene), *m, *f, &*steps);
            walk(w, start, &*scene, a.get(), &steps, &*goal, above, fuel)
        }
        TExpr::IfE(c, a, b) => {
            let c = Source::Expr(&*scene, c.get());
            let a = Source::Expr(&*scene, a.get());
            let b = Source::Expr(&*scene, b.get());
            let yes = Part::Holds(&c, true);
            let no = Part::Holds(&c, false);
            choose_ask(w, start, &yes, &a, &no, &b, &*steps, &*goal, above, fuel)
        }
        TExpr::MatchE(of, a, _, c) => {
            let steps = Steps::Match(&*scene, a.get(), c.get(), &*steps);
            walk(w, start, &*scene, of.get(), &steps, &*goal, above, fuel)
        }
        TExpr::Flag(_)
        | TExpr::Eq(..)
        | TExpr::Iff(..)
        | TExpr::Less(..)
        | TExpr::Member(..)
        | TExpr::Not(_)
        | TExpr::And(..)
        | TExpr::Or(..) => {
            ask_end(
                w,
                start,
                &End::Truth(&*scene, &*e),
                &*steps,
                &*goal,
                above,
                fuel,
            )
        }
    }
}

/// Asks of each end of an option that holds the value of an expression, after the steps.
#[cycle(formulas)]
fn wrap(
    w: &mut Writer,
    start: &Start<'_>,
    scene: &Scene<'_>,
    e: &TExpr,
    steps: &Steps<'_>,
    goal: &Goal<'_>,
    above: u32,
    fuel: u32,
) -> Result<u32, MakeErr>
    ensures { let c = start.now in let s = schema_in c in Makes w.old result w.new
        (asked_of c above steps.now goal.now (some_of s
        (cases_of s (written_in c scene.now) (scene_data c scene.now) (expr_of e.now)))) }
{
    let fuel = deeper(fuel)?;
    let source = Source::Expr(&*scene, &*e);
    let is_truth = is_truth_at(start, &source, fuel)?;
    if is_truth {
        let end = End::Truth(&*scene, &*e);
        return ask_end(w, start, &End::Some(&end), &*steps, &*goal, above, fuel);
    }
    walk(
        w,
        start,
        &*scene,
        &*e,
        &Steps::Wrap(&*steps),
        &*goal,
        above,
        fuel,
    )
}

/// Asks of each end of what the steps make of an end.
#[cycle(formulas)]
fn ask_end(
    w: &mut Writer,
    start: &Start<'_>,
    end: &End<'_>,
    steps: &Steps<'_>,
    goal: &Goal<'_>,
    above: u32,
    fuel: u32,
) -> Result<u32, MakeErr>
    ensures { let c = start.now in let s = schema_in c in Makes w.old result w.new
        (at_ends above (goal_data c goal.now above)
        (steps_data c steps.now (end_data c end.now))) }
{
    let fuel = deeper(fuel)?;
    match steps {
        Steps::Done => finish(w, start, &*end, &*goal, above, fuel),
        Steps::Get(upto, m, f, next) => {
            get(w, start, *upto, *m, *f, &*end, &**next, &*goal, above, fuel)
        }
        Steps::Match(scene, a, c, next) => {
            take_apart(
                w, start, &**scene, &**a, &**c, &*end, &**next, &*goal, above, fuel,
            )
        }
        Steps::Wrap(next) => ask_end(w, start, &End::Some(&*end), &**next, &*goal, above, fuel),
        Steps::Just(scene, e, next) => {
            if is_truth_end(start, &*end) {
                let end = End::Truth(&**scene, &**e);
                ask_end(w, start, &End::Some(&end), &**next, &*goal, above, fuel)
            } else {
                ask_end(w, start, &End::Some(&*end), &**next, &*goal, above, fuel)
            }
        }
    }
}

/// Asks of each end of a field of the record at an end, after the steps.
#[cycle(formulas)]
pub(crate) fn get(
    w: &mut Writer,
    start: &Start<'_>,
    upto: usize,
    m: ModelNo,
    f: FieldNo,
    end: &End<'_>,
    steps: &Steps<'_>,
    goal: &Goal<'_>,
    above: u32,
    fuel: u32,
) -> Result<u32, MakeErr>
    ensures { let c = start.now in let s = schema_in c in Makes w.old result w.new
        (asked_of c above steps.now goal.now (of_term s none
        (field_cases s (written_upto c upto) m f) (end_data c end.now))) }
{
    let fuel = deeper(fuel)?;
    match end {
        End::Term(t) => field(w, start, upto, m, f, &**t, &*steps, &*goal, above, fuel),
        End::Held(n, g, t) => {
            let t = Term::App(start.function_of(*n, *g), &**t);
            field(w, start, upto, m, f, &t, &*steps, &*goal, above, fuel)
        }
        End::Truth(..) | End::Among(..) | End::None | End::Some(_) => {
            ask_end(w, start, &End::None, &*steps, &*goal, above, fuel)
        }
    }
}

// Long, since a field is written out, kept or gone along.
/// Asks of each end of what a field holds at a term, after the steps.
#[cycle(formulas)]
fn field(
    w: &mut Writer,
    start: &Start<'_>,
    upto: usize,
    m: ModelNo,
    f: FieldNo,
    t: &Term<'_>,
    steps: &Steps<'_>,
    goal: &Goal<'_>,
    above: u32,
    fuel: u32,
) -> Result<u32, MakeErr>
    ensures { let c = start.now in let s = schema_in c in Makes w.old result w.new
        (asked_of c above steps.now goal.now
        (field_cases s (written_upto c upto) m f (term_data t.now))) }
{
    let fuel = deeper(fuel)?;
    let Some((before, init)) = init_at(start, upto, m, f) else {
        return ask_end(
            w,
            start,
            &End::Held(m, f, &*t),
            &*steps,
            &*goal,
            above,
            fuel,
        );
    };
    let none = Scene::Start(before);
    let end = End::Term(&*t);
    let scene = Scene::Inner(&none, &end);
    match init {
        TInit::Plain(e) => {
            if takes_field(e) {
                chained(w, start, before, e, &*t, &*steps, &*goal, above, fuel)
            } else {
                walk(w, start, &scene, e, &*steps, &*goal, above, fuel)
            }
        }
        TInit::OfSet(n, set) => {
            ask_end(
                w,
                start,
                &End::Among(&scene, *n, set),
                &*steps,
                &*goal,
                above,
                fuel,
            )
        }
    }
}

/// Asks of each end of an expression over one variable, whose value is a term, after the steps. A
/// chain of fields is gone along at once.
#[cycle(formulas)]
fn chained(
    w: &mut Writer,
    start: &Start<'_>,
    upto: usize,
    e: &TExpr,
    t: &Term<'_>,
    steps: &Steps<'_>,
    goal: &Goal<'_>,
    above: u32,
    fuel: u32,
) -> Result<u32, MakeErr>
    ensures { let c = start.now in let s = schema_in c in Makes w.old result w.new
        (asked_of c above steps.now goal.now
        (cases_of s (written_upto c upto) (at_term (term_data t.now) ∷ []) (expr_of e.now))) }
{
    let fuel = past_row(fuel, SHORT_STEPS)?;
    let mut row = [0; SHORT_ROW];
    let mut chain = Chain::new();
    match follow(start, upto, &*e, &mut chain, &mut row, fuel) {
        Ok(()) => {
            let t = Term::Chain(chain.functions_in(&row), &*t);
            let end = chain.end_at(start, &t);
            ask_end(w, start, &end, &*steps, &*goal, above, fuel)
        }
        Err(Stop::Full) => { chained_far(w, start, upto, &*e, &*t, &*steps, &*goal, above, fuel) }
        Err(Stop::Other) => {
            let none = Scene::Start(upto);
            let end = End::Term(&*t);
            let scene = Scene::Inner(&none, &end);
            walk(w, start, &scene, &*e, &*steps, &*goal, above, fuel)
        }
    }
}

/// The same, where a chain has a long row.
#[cycle(formulas)]
fn chained_far(
    w: &mut Writer,
    start: &Start<'_>,
    upto: usize,
    e: &TExpr,
    t: &Term<'_>,
    steps: &Steps<'_>,
    goal: &Goal<'_>,
    above: u32,
    fuel: u32,
) -> Result<u32, MakeErr>
    ensures { let c = start.now in let s = schema_in c in Makes w.old result w.new
        (asked_of c above steps.now goal.now
        (cases_of s (written_upto c upto) (at_term (term_data t.now) ∷ []) (expr_of e.now))) }
{
    let fuel = past_row(fuel, LONG_STEPS)?;
    let mut row = [0; LONG_ROW];
    let mut chain = Chain::new();
    match follow(start, upto, &*e, &mut chain, &mut row, fuel) {
        Ok(()) => {
            let t = Term::Chain(chain.functions_in(&row), &*t);
            let end = chain.end_at(start, &t);
            ask_end(w, start, &end, &*steps, &*goal, above, fuel)
        }
        Err(_) => {
            let none = Scene::Start(upto);
            let end = End::Term(&*t);
            let scene = Scene::Inner(&none, &end);
            walk(w, start, &scene, &*e, &*steps, &*goal, above, fuel)
        }
    }
}

/// Asks of each end of what stands for the option at an end, after the steps.
#[cycle(formulas)]
fn take_apart(
    w: &mut Writer,
    start: &Start<'_>,
    scene: &Scene<'_>,
    a: &TExpr,
    some: &TExpr,
    end: &End<'_>,
    steps: &Steps<'_>,
    goal: &Goal<'_>,
    above: u32,
    fuel: u32,
) -> Result<u32, MakeErr>
    ensures { let c = start.now in let s = schema_in c in Makes w.old result w.new
        (asked_of c above steps.now goal.now (of_option s choice
        (cases_of s (written_in c scene.now) (scene_data c scene.now) (expr_of a.now))
        (λ x. cases_of s (written_in c scene.now) (scene_data c scene.now
        ++ x ∷ []) (expr_of some.now))
        (end_data c end.now))) }
{
    let fuel = deeper(fuel)?;
    match end {
        End::Some(v) => {
            walk(
                w,
                start,
                &Scene::Inner(&*scene, &**v),
                &*some,
                &*steps,
                &*goal,
                above,
                fuel,
            )
        }
        End::Held(m, f, t) => {
            let inner = Scene::Inner(&*scene, &*end);
            let a = Source::Expr(&*scene, &*a);
            let c = Source::Expr(&inner, &*some);
            let yes = Part::Present(false, *m, *f, &**t);
            let no = Part::Present(true, *m, *f, &**t);
            choose_ask(w, start, &yes, &a, &no, &c, &*steps, &*goal, above, fuel)
        }
        End::Term(_) | End::Truth(..) | End::Among(..) | End::None => {
            walk(w, start, &*scene, &*a, &*steps, &*goal, above, fuel)
        }
    }
}
