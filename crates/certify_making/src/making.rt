//! The text of one obligation's part.

ghost use Rattle.std.specs.Prelude.{◌≡◌, [], ◌<◌, IfOk, MatchOption, false, length, true};
ghost use Rattle.certify_recheck.specs.Due.{IsNext, due_at, tree};
ghost use Rattle.certify_recheck.specs.Walking.{IsReady};
ghost use Rattle.certify_making.specs.Following.{HasGone, IsBegun};
ghost use Rattle.certify_clauses.specs.InMemory.{problem_in};
ghost use Rattle.certify_making.specs.Open.{HasAssignment, HasVarsBelow, IsOpen};
ghost use Rattle.certify_making.specs.Texts.{IsPartText, IsSmall};

use crate::leaves::false_clause;
use crate::planned::planned_line;
use crate::splits::open_variable;
use crate::text::push_line;
use certify_clauses::{Atom, Clauses, ListedClauses, Path};
use certify_plan::{Plan, find_plan};
use certify_recheck::{Line, Step, Told, has_no_model, procedures, take_line};
use solve_theory::Theory;
use sqlite_items::Items;
use std::alloc::{AllocError, Global};

/// No number of a certificate is as large.
const NUMBERS_END: usize = 2_000_000_000;

/// The next line of a tree along a path, if there is one: a clause that is false, or the theories,
/// or a split.
fn next_line<T: Theory<Lit = Atom, Model = (Items<u32>, Items<i64>)>>(
    c: &ListedClauses,
    path: &Path,
    told: &mut Told<T>,
) -> Result<Option<Line>, AllocError>
    requires vars { path.now.vars ≡ length c.now.atoms.items }
    requires few_vars { length c.now.atoms.items < 2000000000 }
    requires few_clauses { length c.now.clauses.items < 2000000000 }
    requires ready { IsReady (problem_in c.now) path.now.literals told.old.count
        (T.literals told.old.theory) (T.capacity told.old.theory) (T.takes told.old.theory)
        (T.models told.old.theory) T.meets }
    ensures ready { IsReady (problem_in c.now) path.now.literals told.new.count
        (T.literals told.new.theory) (T.capacity told.new.theory) (T.takes told.new.theory)
        (T.models told.new.theory) T.meets }
    ensures next { IfOk result (λ line. MatchOption line (IsOpen (problem_in c.now)
        path.now.literals) (λ l. IsNext (tree (problem_in c.now) path.now.literals) l × IsSmall l)) }
{
    let vars = c.vars();
    if let Some(number) = false_clause(c, path)? {
        return Ok(Some(Line::Clause(number)));
    }
    if has_no_model(c, path.literals(), told) {
        return Ok(Some(Line::Theory));
    }
    match open_variable(c, vars, path) {
        Some(var) => Ok(Some(Line::Split(var))),
        None => Ok(None),
    }
}

/// The next line of a tree along a path, if there is one: that of the plan, if it has one.
fn line_to_write<T: Theory<Lit = Atom, Model = (Items<u32>, Items<i64>)>>(
    c: &ListedClauses,
    plan: &mut Plan,
    path: &Path,
    told: &mut Told<T>,
) -> Result<Option<Line>, AllocError>
    requires vars { path.now.vars ≡ length c.now.atoms.items }
    requires few_vars { length c.now.atoms.items < 2000000000 }
    requires few_clauses { length c.now.clauses.items < 2000000000 }
    requires ready { IsReady (problem_in c.now) path.now.literals told.old.count
        (T.literals told.old.theory) (T.capacity told.old.theory) (T.takes told.old.theory)
        (T.models told.old.theory) T.meets }
    ensures ready { IsReady (problem_in c.now) path.now.literals told.new.count
        (T.literals told.new.theory) (T.capacity told.new.theory) (T.takes told.new.theory)
        (T.models told.new.theory) T.meets }
    ensures next { IfOk result (λ line. MatchOption line (IsOpen (problem_in c.now)
        path.now.literals) (λ l. IsNext (tree (problem_in c.now) path.now.literals) l × IsSmall l)) }
{
    match planned_line(c, plan, path, told)? {
        Some(line) => Ok(Some(line)),
        None => next_line(c, path, told),
    }
}

/// What a line did to a tree that is made.
#[derive(Clone, Copy)]
pub(crate) enum Went {
    /// It was written, and others are due.
    On,
    /// It was written, and was the last one.
    Done,
    /// There was none: some assignment is lawful.
    Open,
}

/// Goes one line on in a tree: writes the next line.
fn go_on<T: Theory<Lit = Atom, Model = (Items<u32>, Items<i64>)>>(
    duty: u32,
    c: &ListedClauses,
    plan: &mut Plan,
    path: &mut Path,
    told: &mut Told<T>,
    text: &mut Vec<u8>,
) -> Result<Went, AllocError>
    requires vars { path.old.vars ≡ length c.now.atoms.items }
    requires few_vars { length c.now.atoms.items < 2000000000 }
    requires few_clauses { length c.now.clauses.items < 2000000000 }
    requires below { HasVarsBelow (problem_in c.now) }
    requires ready { IsReady (problem_in c.now) path.old.literals told.old.count
        (T.literals told.old.theory) (T.capacity told.old.theory) (T.takes told.old.theory)
        (T.models told.old.theory) T.meets }
    ensures vars { path.new.vars ≡ path.old.vars }
    ensures ready { IsReady (problem_in c.now) path.new.literals told.new.count
        (T.literals told.new.theory) (T.capacity told.new.theory) (T.takes told.new.theory)
        (T.models told.new.theory) T.meets }
    ensures went { IfOk result (HasGone (problem_in c.now) duty path.old.literals
        path.new.literals text.old.items text.new.items) }
{
    let next = line_to_write(c, plan, path, told)?;
    let Some(line) = next else {
        return Ok(Went::Open);
    };
    let step = take_line(c, path, told, line)?;
    push_line(line, text)?;
    let _few = path.literals();
    match step {
        Step::Bad => unreachable!(),
        Step::More => Ok(Went::On),
        Step::Done => Ok(Went::Done),
    }
}

/// The lines of a tree behind the line of an obligation; false where some assignment is lawful.
fn push_tree<T: Theory<Lit = Atom, Model = (Items<u32>, Items<i64>)>>(
    duty: u32,
    c: &ListedClauses,
    plan: &mut Plan,
    path: &mut Path,
    told: &mut Told<T>,
    text: &mut Vec<u8>,
) -> Result<bool, AllocError>
    requires vars { path.old.vars ≡ length c.now.atoms.items }
    requires few_vars { length c.now.atoms.items < 2000000000 }
    requires few_clauses { length c.now.clauses.items < 2000000000 }
    requires below { HasVarsBelow (problem_in c.now) }
    requires ready { IsReady (problem_in c.now) path.old.literals told.old.count
        (T.literals told.old.theory) (T.capacity told.old.theory) (T.takes told.old.theory)
        (T.models told.old.theory) T.meets }
    requires begun { IsBegun (problem_in c.now) duty text.old.items
        (due_at (problem_in c.now) path.old.literals) }
    ensures made { IfOk result (λ made. made ≡ true →
        IsBegun (problem_in c.now) duty text.new.items []) }
    ensures open { IfOk result (λ made. made ≡ false → HasAssignment (problem_in c.now)) }
{
    'lines: loop {
        match go_on(duty, c, plan, path, told, text)? {
            Went::On => {}
            Went::Done => return Ok(true),
            Went::Open => return Ok(false),
        }
    }
}

/// The text of an obligation's part of a certificate: its line and those of a lawful tree over its
/// clauses. None exactly where some assignment is lawful.
///
/// The lines are those of a plan, as long as they are lawful. Without one, a variable of a clause of
/// which all other literals are false is split first, so that one side closes at once. Two thousand million variables or clauses count as memory that is not there.
pub fn part_text(alloc: Global, duty: u32, c: &ListedClauses) -> Result<Option<Vec<u8>>, AllocError>
    requires small { duty < 2000000000 }
    requires below { HasVarsBelow (problem_in c.now) }
    ensures { IfOk result (λ made. MatchOption made (HasAssignment (problem_in c.now))
        (λ text. IsPartText (problem_in c.now) duty text.items)) }
{
    if c.atoms.len() >= NUMBERS_END || c.clauses.len() >= NUMBERS_END {
        return Err(AllocError);
    }
    let mut text = Vec::new(alloc);
    push_line(Line::Duty(duty), &mut text)?;
    let mut path = Path::new(alloc, c.atoms.len())?;
    let mut told = procedures(alloc, c)?;
    let mut plan = find_plan(alloc, c)?;
    if push_tree(duty, c, &mut plan, &mut path, &mut told, &mut text)? {
        Ok(Some(text))
    } else {
        Ok(None)
    }
}
