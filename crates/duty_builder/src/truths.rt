//! Whether a value is a truth value, as its first end shows.

ghost use Rattle.std.specs.Prelude.{◌≡◌, ◌∷◌, ◌++◌, [], IfOk};
ghost use Rattle.type_schema.specs.Views.{expr_of};
ghost use Rattle.duty_meaning.specs.Cases.{is_truth, continued, at_term, of_term, of_option, choice, none};
ghost use Rattle.duty_meaning.specs.Formulas.{cases_of, field_cases};
ghost use Rattle.duty_writer.specs.Terms.{term_data};
ghost use Rattle.duty_builder.specs.Values.{schema_in, written_in, written_upto, scene_data, end_data, source_data, steps_data};

use crate::added::{init_at, upto_of, value_at};
use crate::chains::{
    Chain, LONG_ROW, LONG_STEPS, SHORT_ROW, SHORT_STEPS, Stop, follow, past_row, takes_field,
};
use crate::start::Start;
use crate::values::{End, Scene, Source, Steps, deeper};
use duty_writer::Term;
use std::alloc::AllocError;
use type_schema::{FieldNo, ModelNo, TExpr, TInit, TTy};

/// Whether a value without choices is a truth value.
pub(crate) fn is_truth_end(start: &Start<'_>, end: &End<'_>) -> bool
    ensures { let c = start.now in let s = schema_in c in result ≡ is_truth s (end_data c end.now) }
{
    match end {
        End::Held(m, f, _) => start.is_truth_field(*m, *f),
        End::Truth(..) => true,
        End::Term(_) | End::Among(..) | End::None | End::Some(_) => false,
    }
}

/// Whether a value is a truth value.
pub(crate) fn is_truth_at(
    start: &Start<'_>,
    source: &Source<'_>,
    fuel: u32,
) -> Result<bool, AllocError>
    ensures { let c = start.now in let s = schema_in c in
        IfOk result (λ b. b ≡ is_truth s (source_data c source.now)) }
{
    match source {
        Source::Expr(scene, e) => first(start, &**scene, &**e, &Steps::Done, fuel),
        Source::Field(upto, m, f, t) => {
            first_field(start, *upto, *m, *f, &**t, &Steps::Done, fuel)
        }
    }
}

// Long, since each form of an expression has its own arm.
/// Whether the first end of an expression, after the steps, is a truth value.
#[cycle(first)]
fn first(
    start: &Start<'_>,
    scene: &Scene<'_>,
    e: &TExpr,
    steps: &Steps<'_>,
    fuel: u32,
) -> Result<bool, AllocError>
    ensures { let c = start.now in let s = schema_in c in
        IfOk result (λ b. b ≡ is_truth s (continued (steps_data c steps.now)
        (cases_of s (written_in c scene.now) (scene_data c scene.now) (expr_of e.now)))) }
{
    let fuel = deeper(fuel)?;
    match e {
        TExpr::Num(n) => first_end(start, &End::Term(&Term::Num(*n)), &*steps, fuel),
        TExpr::Str(text) => first_end(start, &End::Term(&Term::Str(text)), &*steps, fuel),
        TExpr::Var(place, _) => {
            let end = value_at(start, &*scene, *place)?;
            first_end(start, &end, &*steps, fuel)
        }
        TExpr::NoneLit => first_end(start, &End::None, &*steps, fuel),
        TExpr::SomeLit(a) => {
            let a = a.get();
            first(
                start,
                &*scene,
                &*a,
                &Steps::Just(&*scene, &*a, &*steps),
                fuel,
            )
        }
        TExpr::Get(a, m, f) => {
            let steps = Steps::Get(upto_of(&*scene), *m, *f, &*steps);
            first(start, &*scene, a.get(), &steps, fuel)
        }
        TExpr::IfE(_, a, _) => first(start, &*scene, a.get(), &*steps, fuel),
        TExpr::MatchE(of, a, _, c) => {
            let steps = Steps::Match(&*scene, a.get(), c.get(), &*steps);
            first(start, &*scene, of.get(), &steps, fuel)
        }
        TExpr::Flag(_)
        | TExpr::Eq(..)
        | TExpr::Iff(..)
        | TExpr::Less(..)
        | TExpr::Member(..)
        | TExpr::Not(_)
        | TExpr::And(..)
        | TExpr::Or(..) => first_end(start, &End::Truth(&*scene, &*e), &*steps, fuel),
    }
}

/// Whether the first end of what the steps make of an end is a truth value.
#[cycle(first)]
fn first_end(
    start: &Start<'_>,
    end: &End<'_>,
    steps: &Steps<'_>,
    fuel: u32,
) -> Result<bool, AllocError>
    ensures { let c = start.now in let s = schema_in c in
        IfOk result (λ b. b ≡ is_truth s (steps_data c steps.now (end_data c end.now))) }
{
    let fuel = deeper(fuel)?;
    match steps {
        Steps::Done => Ok(is_truth_end(start, &*end)),
        Steps::Get(upto, m, f, next) => { first_get(start, *upto, *m, *f, &*end, &**next, fuel) }
        Steps::Match(scene, a, c, next) => {
            first_match(start, &**scene, &**a, &**c, &*end, &**next, fuel)
        }
        Steps::Wrap(next) => first_end(start, &End::Some(&*end), &**next, fuel),
        Steps::Just(scene, e, next) => {
            if is_truth_end(start, &*end) {
                first_end(
                    start,
                    &End::Some(&End::Truth(&**scene, &**e)),
                    &**next,
                    fuel,
                )
            } else {
                first_end(start, &End::Some(&*end), &**next, fuel)
            }
        }
    }
}

/// Whether the first end of what stands for the option at an end, after the steps, is a truth
/// value.
#[cycle(first)]
fn first_match(
    start: &Start<'_>,
    scene: &Scene<'_>,
    a: &TExpr,
    some: &TExpr,
    end: &End<'_>,
    steps: &Steps<'_>,
    fuel: u32,
) -> Result<bool, AllocError>
    ensures { let c = start.now in let s = schema_in c in
        IfOk result (λ b. b ≡ is_truth s (continued (steps_data c steps.now) (of_option s choice
        (cases_of s (written_in c scene.now) (scene_data c scene.now) (expr_of a.now))
        (λ x. cases_of s (written_in c scene.now) (scene_data c scene.now ++ x ∷ [])
        (expr_of some.now)) (end_data c end.now)))) }
{
    let fuel = deeper(fuel)?;
    match end {
        End::Some(v) => { first(start, &Scene::Inner(&*scene, &**v), &*some, &*steps, fuel) }
        End::Term(_) | End::Held(..) | End::Truth(..) | End::Among(..) | End::None => {
            first(start, &*scene, &*a, &*steps, fuel)
        }
    }
}

/// Whether the first end of a field of the record at an end, after the steps, is a truth value.
#[cycle(first)]
fn first_get(
    start: &Start<'_>,
    upto: usize,
    m: ModelNo,
    f: FieldNo,
    end: &End<'_>,
    steps: &Steps<'_>,
    fuel: u32,
) -> Result<bool, AllocError>
    ensures { let c = start.now in let s = schema_in c in
        IfOk result (λ b. b ≡ is_truth s (continued (steps_data c steps.now)
        (of_term s none (field_cases s (written_upto c upto) m f)
        (end_data c end.now)))) }
{
    let fuel = deeper(fuel)?;
    match end {
        End::Term(t) => first_field(start, upto, m, f, &**t, &*steps, fuel),
        End::Held(n, g, t) => {
            let t = Term::App(start.function_of(*n, *g), &**t);
            first_field(start, upto, m, f, &t, &*steps, fuel)
        }
        End::Truth(..) | End::Among(..) | End::None | End::Some(_) => {
            first_end(start, &End::None, &*steps, fuel)
        }
    }
}

/// Whether the first end of what a field holds at a term, after the steps, is a truth value.
#[cycle(first)]
fn first_field(
    start: &Start<'_>,
    upto: usize,
    m: ModelNo,
    f: FieldNo,
    t: &Term<'_>,
    steps: &Steps<'_>,
    fuel: u32,
) -> Result<bool, AllocError>
    ensures { let c = start.now in let s = schema_in c in
        IfOk result (λ b. b ≡ is_truth s (continued (steps_data c steps.now)
        (field_cases s (written_upto c upto) m f (term_data t.now)))) }
{
    let fuel = deeper(fuel)?;
    let Some((before, init)) = init_at(start, upto, m, f) else {
        return first_end(start, &End::Held(m, f, &*t), &*steps, fuel);
    };
    let none = Scene::Start(before);
    let end = End::Term(&*t);
    let scene = Scene::Inner(&none, &end);
    match init {
        TInit::Plain(e) => {
            if takes_field(e) {
                first_chained(start, before, e, &*t, &*steps, fuel)
            } else {
                first(start, &scene, e, &*steps, fuel)
            }
        }
        TInit::OfSet(n, set) => first_end(start, &End::Among(&scene, *n, set), &*steps, fuel),
    }
}

/// Whether the first end of an expression over one variable, whose value is a term, after the
/// steps, is a truth value. A chain of fields is gone along at once.
#[cycle(first)]
fn first_chained(
    start: &Start<'_>,
    upto: usize,
    e: &TExpr,
    t: &Term<'_>,
    steps: &Steps<'_>,
    fuel: u32,
) -> Result<bool, AllocError>
    ensures { let c = start.now in let s = schema_in c in
        IfOk result (λ b. b ≡ is_truth s (continued (steps_data c steps.now)
        (cases_of s (written_upto c upto) (at_term (term_data t.now) ∷ []) (expr_of e.now)))) }
{
    let fuel = past_row(fuel, SHORT_STEPS)?;
    let mut row = [0; SHORT_ROW];
    let mut chain = Chain::new();
    match follow(start, upto, &*e, &mut chain, &mut row, fuel) {
        Ok(()) => {
            let t = Term::Chain(chain.functions_in(&row), &*t);
            first_end(start, &chain.end_at(start, &t), &*steps, fuel)
        }
        Err(Stop::Full) => first_chained_far(start, upto, &*e, &*t, &*steps, fuel),
        Err(Stop::Other) => {
            let none = Scene::Start(upto);
            let end = End::Term(&*t);
            first(start, &Scene::Inner(&none, &end), &*e, &*steps, fuel)
        }
    }
}

/// The same, where a chain has a long row.
#[cycle(first)]
fn first_chained_far(
    start: &Start<'_>,
    upto: usize,
    e: &TExpr,
    t: &Term<'_>,
    steps: &Steps<'_>,
    fuel: u32,
) -> Result<bool, AllocError>
    ensures { let c = start.now in let s = schema_in c in
        IfOk result (λ b. b ≡ is_truth s (continued (steps_data c steps.now)
        (cases_of s (written_upto c upto) (at_term (term_data t.now) ∷ []) (expr_of e.now)))) }
{
    let fuel = past_row(fuel, LONG_STEPS)?;
    let mut row = [0; LONG_ROW];
    let mut chain = Chain::new();
    match follow(start, upto, &*e, &mut chain, &mut row, fuel) {
        Ok(()) => {
            let t = Term::Chain(chain.functions_in(&row), &*t);
            first_end(start, &chain.end_at(start, &t), &*steps, fuel)
        }
        Err(_) => {
            let none = Scene::Start(upto);
            let end = End::Term(&*t);
            first(start, &Scene::Inner(&none, &end), &*e, &*steps, fuel)
        }
    }
}
