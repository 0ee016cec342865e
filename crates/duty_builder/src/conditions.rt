//! Truth values, and how values compare.
//!
//! Beside what it is about, a function takes what all hand on: the writer, the start, how many
//! quantifiers stand above, and how deep the walk may go. So some have up to ten parameters.

ghost use Rattle.type_schema.specs.Views.{expr_of};
ghost use Rattle.duty_meaning.specs.Cases.{condition_of};
ghost use Rattle.duty_meaning.specs.Cases.{compared, are_equal, less_term};
ghost use Rattle.duty_meaning.specs.Cases.{same_condition};
ghost use Rattle.duty_meaning.specs.Formulas.{cases_of};
ghost use Rattle.duty_writer.specs.Made.{Makes};
ghost use Rattle.duty_builder.specs.Values.{schema_in, written_in, scene_data, source_data};

use crate::formulas::{choose, join};
use crate::negations::unnegated;
use crate::start::Start;
use crate::truths::is_truth_at;
use crate::values::{Goal, Part, Scene, Source, Steps, any, deeper, same_truth};
use crate::walking::{ask, get, walk};
use duty_writer::{MakeErr, Writer};
use text_tree::CmpOp;
use type_schema::TExpr;

/// Writes whether a truth value is as the sign says.
#[cycle(formulas)]
pub(crate) fn holds(
    w: &mut Writer,
    start: &Start<'_>,
    source: &Source<'_>,
    sign: bool,
    above: u32,
    fuel: u32,
) -> Result<u32, MakeErr>
    ensures { let c = start.now in let s = schema_in c in Makes w.old result w.new
        (condition_of s (source_data c source.now) sign above) }
{
    let fuel = deeper(fuel)?;
    match source {
        Source::Expr(scene, e) => condition(w, start, &**scene, &**e, sign, above, fuel),
        Source::Field(..) => {
            ask(
                w,
                start,
                &*source,
                &Steps::Done,
                &Goal::Holds(sign),
                above,
                fuel,
            )
        }
    }
}

// Long, since each form of an expression has its own arm.
/// Writes whether the truth value of an expression is as the sign says.
#[cycle(formulas)]
pub(crate) fn condition(
    w: &mut Writer,
    start: &Start<'_>,
    scene: &Scene<'_>,
    e: &TExpr,
    sign: bool,
    above: u32,
    fuel: u32,
) -> Result<u32, MakeErr>
    ensures { let c = start.now in let s = schema_in c in Makes w.old result w.new
        (condition_of s
        (cases_of s (written_in c scene.now) (scene_data c scene.now) (expr_of e.now)) sign above) }
{
    let fuel = deeper(fuel)?;
    match e {
        TExpr::Flag(b) => w.constant(same_truth(sign, *b)),
        TExpr::Eq(a, b, _) => {
            let a = Source::Expr(&*scene, a.get());
            let b = Source::Expr(&*scene, b.get());
            ask(
                w,
                start,
                &a,
                &Steps::Done,
                &Goal::EqualTo(sign, &b),
                above,
                fuel,
            )
        }
        TExpr::Iff(a, b, _) => {
            let a = Source::Expr(&*scene, a.get());
            let b = Source::Expr(&*scene, b.get());
            same(w, start, &a, &b, sign, above, fuel)
        }
        TExpr::Less(a, b, _) => {
            let a = Source::Expr(&*scene, a.get());
            let b = Source::Expr(&*scene, b.get());
            ask(
                w,
                start,
                &a,
                &Steps::Done,
                &Goal::LessThan(sign, &b),
                above,
                fuel,
            )
        }
        TExpr::Member(of, m, set) => {
            let goal = Goal::Within(sign, &*scene, *m, set.get());
            walk(
                w,
                start,
                &*scene,
                of.get(),
                &Steps::Done,
                &goal,
                above,
                fuel,
            )
        }
        TExpr::Not(a) => {
            // One in the other they are taken at once, since this frame is the largest.
            let (inner, sign) = unnegated(a.get(), !sign);
            condition(w, start, &*scene, inner, sign, above, fuel)
        }
        TExpr::And(a, b) => {
            let a = Source::Expr(&*scene, a.get());
            let b = Source::Expr(&*scene, b.get());
            join(
                w,
                start,
                sign,
                &Part::Holds(&a, sign),
                &Part::Holds(&b, sign),
                above,
                fuel,
            )
        }
        TExpr::Or(a, b) => {
            let a = Source::Expr(&*scene, a.get());
            let b = Source::Expr(&*scene, b.get());
            join(
                w,
                start,
                !sign,
                &Part::Holds(&a, sign),
                &Part::Holds(&b, sign),
                above,
                fuel,
            )
        }
        TExpr::Num(_)
        | TExpr::Str(_)
        | TExpr::Var(..)
        | TExpr::NoneLit
        | TExpr::SomeLit(_)
        | TExpr::Get(..)
        | TExpr::IfE(..)
        | TExpr::MatchE(..) => {
            walk(
                w,
                start,
                &*scene,
                &*e,
                &Steps::Done,
                &Goal::Holds(sign),
                above,
                fuel,
            )
        }
    }
}

/// Writes whether two truth values are the same.
#[cycle(formulas)]
fn same(
    w: &mut Writer,
    start: &Start<'_>,
    a: &Source<'_>,
    b: &Source<'_>,
    sign: bool,
    above: u32,
    fuel: u32,
) -> Result<u32, MakeErr>
    ensures { let c = start.now in let s = schema_in c in Makes w.old result w.new
        (same_condition (condition_of s (source_data c a.now))
        (condition_of s (source_data c b.now)) sign above) }
{
    let fuel = deeper(fuel)?;
    let yes = Part::Holds(&*a, true);
    let no = Part::Holds(&*a, false);
    let then = Part::Holds(&*b, sign);
    let other = Part::Holds(&*b, !sign);
    choose(w, start, &yes, &then, &no, &other, above, fuel)
}

/// Writes whether two values are equal.
#[cycle(formulas)]
pub(crate) fn equal(
    w: &mut Writer,
    start: &Start<'_>,
    a: &Source<'_>,
    b: &Source<'_>,
    sign: bool,
    above: u32,
    fuel: u32,
) -> Result<u32, MakeErr>
    ensures { let c = start.now in let s = schema_in c in Makes w.old result w.new
        (are_equal s (source_data c a.now) (source_data c b.now) sign above) }
{
    let fuel = deeper(fuel)?;
    let first = is_truth_at(start, &*a, fuel)?;
    let second = is_truth_at(start, &*b, fuel)?;
    if any(first, second) {
        same(w, start, &*a, &*b, sign, above, fuel)
    } else {
        ask(
            w,
            start,
            &*a,
            &Steps::Done,
            &Goal::EqualTo(sign, &*b),
            above,
            fuel,
        )
    }
}

/// Writes whether the first value is below the second.
#[cycle(formulas)]
pub(crate) fn less(
    w: &mut Writer,
    start: &Start<'_>,
    a: &Source<'_>,
    b: &Source<'_>,
    sign: bool,
    above: u32,
    fuel: u32,
) -> Result<u32, MakeErr>
    ensures { let c = start.now in let s = schema_in c in Makes w.old result w.new
        (less_term s (source_data c a.now) (source_data c b.now) sign above) }
{
    let fuel = deeper(fuel)?;
    ask(
        w,
        start,
        &*a,
        &Steps::Done,
        &Goal::LessThan(sign, &*b),
        above,
        fuel,
    )
}

/// Writes whether two values compare so.
#[cycle(formulas)]
pub(crate) fn compare(
    w: &mut Writer,
    start: &Start<'_>,
    op: CmpOp,
    a: &Source<'_>,
    b: &Source<'_>,
    sign: bool,
    above: u32,
    fuel: u32,
) -> Result<u32, MakeErr>
    ensures { let c = start.now in let s = schema_in c in Makes w.old result w.new
        (compared s op (source_data c a.now) (source_data c b.now) sign above) }
{
    let fuel = deeper(fuel)?;
    match op {
        CmpOp::Eq => equal(w, start, &*a, &*b, sign, above, fuel),
        CmpOp::Ne => equal(w, start, &*a, &*b, !sign, above, fuel),
        CmpOp::Lt => less(w, start, &*a, &*b, sign, above, fuel),
        CmpOp::Le => less(w, start, &*b, &*a, !sign, above, fuel),
        CmpOp::Gt => less(w, start, &*b, &*a, sign, above, fuel),
        CmpOp::Ge => less(w, start, &*a, &*b, !sign, above, fuel),
    }
}
