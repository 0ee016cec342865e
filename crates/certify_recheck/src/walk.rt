//! One line of a tree after another, along a path.

ghost use Rattle.std.specs.Prelude.{◌≡◌, ◌+◌, ◌<◌, ◌≤◌, [], ◌∷◌, length, IfErr, IfOk};
ghost use Rattle.certify_recheck.specs.Due.{tree};
ghost use Rattle.certify_recheck.specs.Spots.{IsRefusal, Passes};
ghost use Rattle.certify_recheck.specs.Walking.{IsClosed, IsFront, IsReady, IsStep};
ghost use Rattle.certify_recheck.specs.declared.line.Line.TheVariants as line;

use crate::fault::RecheckErr;
use crate::line::Line;
use crate::reading::read_at;
use crate::spot::Spot;
use crate::theories::{Told, has_no_model, take_back};
use certify_clauses::{Atom, Clauses, Literal, Path};
use solve_theory::Theory;
use sqlite_items::Items;
use std::alloc::{AllocError, Global};

/// What a line did to a path.
#[derive(Clone, Copy)]
pub enum Step {
    /// It was not the next line; the path is as before.
    Bad,
    /// It was, and the path is that of the next tree that is due.
    More,
    /// It was the last one.
    Done,
}

/// Goes into a split.
fn split<C: Clauses>(c: &C, path: &mut Path, var: u32) -> Result<Step, AllocError>
    requires { path.old.vars ≡ (C.problem c.now).vars }
    ensures vars { path.new.vars ≡ path.old.vars }
    ensures longer { IsFront path.old.literals path.new.literals }
    ensures step { IfOk result (λ step. IsStep (C.problem c.now) path.old.literals (line.Split var)
        path.new.literals step) }
{
    if var >= c.vars() {
        return Ok(Step::Bad);
    }
    match path.value_of(var) {
        Some(_) => Ok(Step::Bad),
        None => {
            path.push(Literal { var, plus: true })?;
            Ok(Step::More)
        }
    }
}

/// Goes on behind a leaf.
fn close<C: Clauses, T: Theory<Lit = Atom, Model = (Items<u32>, Items<i64>)>>(
    c: &C,
    path: &mut Path,
    told: &mut Told<T>,
) -> Result<Step, AllocError>
    requires ready { IsReady (C.problem c.now) path.old.literals told.old.count
        (T.literals told.old.theory) (T.capacity told.old.theory) (T.takes told.old.theory)
        (T.models told.old.theory) T.meets }
    ensures ready { IsReady (C.problem c.now) path.new.literals told.new.count
        (T.literals told.new.theory) (T.capacity told.new.theory) (T.takes told.new.theory)
        (T.models told.new.theory) T.meets }
    ensures vars { path.new.vars ≡ path.old.vars }
    ensures step { IfOk result (IsClosed path.old.literals path.new.literals) }
{
    while let Some(last) = take_back(c, path, told) {
        if last.plus {
            path.push(last.opposite())?;
            return Ok(Step::More);
        }
    }
    Ok(Step::Done)
}

/// Goes one line of a tree on, along its path, where the line is the next one.
pub fn take_line<C: Clauses, T: Theory<Lit = Atom, Model = (Items<u32>, Items<i64>)>>(
    c: &C,
    path: &mut Path,
    told: &mut Told<T>,
    line: Line,
) -> Result<Step, AllocError>
    requires vars { path.old.vars ≡ (C.problem c.now).vars }
    requires ready { IsReady (C.problem c.now) path.old.literals told.old.count
        (T.literals told.old.theory) (T.capacity told.old.theory) (T.takes told.old.theory)
        (T.models told.old.theory) T.meets }
    ensures vars { path.new.vars ≡ path.old.vars }
    ensures ready { IsReady (C.problem c.now) path.new.literals told.new.count
        (T.literals told.new.theory) (T.capacity told.new.theory) (T.takes told.new.theory)
        (T.models told.new.theory) T.meets }
    ensures step { IfOk result (λ step. IsStep (C.problem c.now) path.old.literals line
        path.new.literals step) }
{
    match line {
        Line::Split(var) => split(c, path, var),
        Line::Clause(number) => {
            if c.is_false(number, path)? {
                close(c, path, told)
            } else {
                Ok(Step::Bad)
            }
        }
        Line::Theory => {
            if has_no_model(c, path.literals(), told) {
                close(c, path, told)
            } else {
                Ok(Step::Bad)
            }
        }
        Line::Heading | Line::Duty(_) | Line::End | Line::Other => Ok(Step::Bad),
    }
}

/// Goes along the lines of a tree from a spot on, and gives the spot behind it.
pub(crate) fn walk<C: Clauses, T: Theory<Lit = Atom, Model = (Items<u32>, Items<i64>)>>(
    alloc: Global,
    c: &C,
    told: &mut Told<T>,
    text: &[u8],
    from: Spot,
) -> Result<Spot, RecheckErr>
    requires ready { IsReady (C.problem c.now) [] told.old.count (T.literals told.old.theory)
        (T.capacity told.old.theory) (T.takes told.old.theory) (T.models told.old.theory) T.meets }
    requires at { from.at ≤ length text.now }
    requires line { from.line + length text.now < 18446744073709551615 + from.at }
    ensures ok { IfOk result (Passes text.now from (tree (C.problem c.now) [] ∷ [])) }
    ensures within { IfOk result (λ spot. spot.at ≤ length text.now) }
    ensures few { IfOk result (λ spot. spot.line + from.at ≤ from.line + spot.at) }
    ensures bad { IfErr result (IsRefusal text.now from (tree (C.problem c.now) [] ∷ [])) }
{
    let mut path = Path::new(alloc, c.vars() as usize)?;
    let mut at = from.at;
    let mut line = from.line;
    while let Some(read) = read_at(text, at) {
        match take_line(c, &mut path, told, read.line)? {
            Step::Bad => return Err(RecheckErr::BadLine { line }),
            Step::More => {
                at = read.next;
                line += 1;
            }
            Step::Done => {
                return Ok(Spot {
                    at: read.next,
                    line: line + 1,
                });
            }
        }
    }
    Err(RecheckErr::BadLine { line })
}
