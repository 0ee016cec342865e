//! The formulas of values, sets and policies, part by part.
//!
//! Beside what it is about, a function takes what all hand on: the writer, the start, how many
//! quantifiers stand above, and how deep the walk may go. So some have up to ten parameters.

ghost use Rattle.form_formula.specs.Trees as tree;
ghost use Rattle.duty_meaning.specs.Cases.{and_if};
ghost use Rattle.duty_writer.specs.Made.{Makes};
ghost use Rattle.duty_builder.specs.Values.{schema_in, source_data};
ghost use Rattle.duty_builder.specs.Values.{asked_of};
ghost use Rattle.duty_builder.specs.Values.{part_data};

use crate::conditions::holds;
use crate::members::member;
use crate::reaches::reach;
use crate::start::Start;
use crate::values::{Goal, Part, Source, Steps, deeper};
use crate::walking::ask;
use duty_writer::{MakeErr, Writer};

/// Writes a part of a formula.
#[cycle(formulas)]
pub fn write(
    w: &mut Writer,
    start: &Start<'_>,
    part: &Part<'_>,
    above: u32,
    fuel: u32,
) -> Result<u32, MakeErr>
    ensures { let c = start.now in let s = schema_in c in Makes w.old result w.new
        (part_data c above part.now) }
{
    let fuel = deeper(fuel)?;
    match part {
        Part::Holds(source, sign) => holds(w, start, &**source, *sign, above, fuel),
        Part::Member(scene, set, who, sign) => {
            member(w, start, &**scene, &**set, &**who, *sign, above, fuel)
        }
        Part::Present(sign, m, f, t) => {
            w.present(*sign, start.function_for(w.mode, *m, *f), &**t)
        }
        Part::Reach(scene, used, y) => { reach(w, start, &**scene, &**used, &**y, above, fuel) }
    }
}

/// Writes that both parts hold; where the sign is not, that one of them does.
#[cycle(formulas)]
pub(crate) fn join(
    w: &mut Writer,
    start: &Start<'_>,
    sign: bool,
    p: &Part<'_>,
    q: &Part<'_>,
    above: u32,
    fuel: u32,
) -> Result<u32, MakeErr>
    ensures { let c = start.now in let s = schema_in c in Makes w.old result w.new
        (and_if sign (part_data c above p.now) (part_data c above q.now)) }
{
    let fuel = deeper(fuel)?;
    let a = write(w, start, &*p, above, fuel)?;
    let b = write(w, start, &*q, above, fuel)?;
    w.and_if(sign, a, b)
}

/// Writes that the first part holds and the second does, or the third and the fourth.
#[cycle(formulas)]
pub(crate) fn choose(
    w: &mut Writer,
    start: &Start<'_>,
    yes: &Part<'_>,
    then: &Part<'_>,
    no: &Part<'_>,
    other: &Part<'_>,
    above: u32,
    fuel: u32,
) -> Result<u32, MakeErr>
    ensures { let c = start.now in let s = schema_in c in Makes w.old result w.new
        (tree.either (tree.both (part_data c above yes.now) (part_data c above then.now))
        (tree.both (part_data c above no.now) (part_data c above other.now))) }
{
    let fuel = deeper(fuel)?;
    let a = join(w, start, true, &*yes, &*then, above, fuel)?;
    let b = join(w, start, true, &*no, &*other, above, fuel)?;
    w.either(a, b)
}

/// Writes that a part holds and each end of a value, after the steps, is as asked; where the sign
/// is not, that one of the two is.
#[cycle(formulas)]
pub(crate) fn ask_where(
    w: &mut Writer,
    start: &Start<'_>,
    sign: bool,
    part: &Part<'_>,
    source: &Source<'_>,
    steps: &Steps<'_>,
    goal: &Goal<'_>,
    above: u32,
    fuel: u32,
) -> Result<u32, MakeErr>
    ensures { let c = start.now in Makes w.old result w.new
        (and_if sign (part_data c above part.now)
        (asked_of c above steps.now goal.now (source_data c source.now))) }
{
    let fuel = deeper(fuel)?;
    let a = write(w, start, &*part, above, fuel)?;
    let b = ask(w, start, &*source, &*steps, &*goal, above, fuel)?;
    w.and_if(sign, a, b)
}

/// Asks of each end of the first value where the first part holds, of the second where the second
/// does.
#[cycle(formulas)]
pub(crate) fn choose_ask(
    w: &mut Writer,
    start: &Start<'_>,
    yes: &Part<'_>,
    a: &Source<'_>,
    no: &Part<'_>,
    b: &Source<'_>,
    steps: &Steps<'_>,
    goal: &Goal<'_>,
    above: u32,
    fuel: u32,
) -> Result<u32, MakeErr>
    ensures { let c = start.now in Makes w.old result w.new (tree.either
        (tree.both (part_data c above yes.now)
        (asked_of c above steps.now goal.now (source_data c a.now)))
        (tree.both (part_data c above no.now)
        (asked_of c above steps.now goal.now (source_data c b.now)))) }
{
    let fuel = deeper(fuel)?;
    let x = ask_where(w, start, true, &*yes, &*a, &*steps, &*goal, above, fuel)?;
    let y = ask_where(w, start, true, &*no, &*b, &*steps, &*goal, above, fuel)?;
    w.either(x, y)
}
