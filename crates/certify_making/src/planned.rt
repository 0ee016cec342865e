//! The lines of a plan.

ghost use Rattle.std.specs.Prelude.{◌≡◌, ◌<◌, IfOk, IfSome, IsTrue, length};
ghost use Rattle.certify_clauses.specs.InMemory.{problem_in};
ghost use Rattle.certify_making.specs.Texts.{IsSmall};
ghost use Rattle.certify_recheck.specs.Due.{IsNext, tree};
ghost use Rattle.certify_recheck.specs.Walking.{IsReady};

use certify_clauses::{Atom, Clauses, ListedClauses, Path};
use certify_plan::Plan;
use certify_recheck::{Line, Told, has_no_model};
use solve_theory::Theory;
use sqlite_items::Items;
use std::alloc::AllocError;

/// Whether a line is the next one of a tree along a path. False may say that its number is too
/// large.
fn is_next<T: Theory<Lit = Atom, Model = (Items<u32>, Items<i64>)>>(
    c: &ListedClauses,
    path: &Path,
    told: &mut Told<T>,
    line: Line,
) -> Result<bool, AllocError>
    requires vars { path.now.vars ≡ length c.now.atoms.items }
    requires few_vars { length c.now.atoms.items < 2000000000 }
    requires ready { IsReady (problem_in c.now) path.now.literals told.old.count
        (T.literals told.old.theory) (T.capacity told.old.theory) (T.takes told.old.theory)
        (T.models told.old.theory) T.meets }
    ensures ready { IsReady (problem_in c.now) path.now.literals told.new.count
        (T.literals told.new.theory) (T.capacity told.new.theory) (T.takes told.new.theory)
        (T.models told.new.theory) T.meets }
    ensures next { IfOk result (λ is. IsTrue is → IsNext (tree (problem_in c.now)
        path.now.literals) line × IsSmall line) }
{
    match line {
        Line::Split(var) => Ok(var < c.vars() && path.value_of(var).is_none()),
        Line::Clause(number) => {
            if number >= 2_000_000_000 {
                return Ok(false);
            }
            c.is_false(number, path)
        }
        Line::Theory => Ok(has_no_model(c, path.literals(), told)),
        Line::Heading | Line::Duty(_) | Line::End | Line::Other => Ok(false),
    }
}

/// The next line of the plan, where it is the next one of a tree along the path. The plan is given
/// up where it is not.
pub(crate) fn planned_line<T: Theory<Lit = Atom, Model = (Items<u32>, Items<i64>)>>(
    c: &ListedClauses,
    plan: &mut Plan,
    path: &Path,
    told: &mut Told<T>,
) -> Result<Option<Line>, AllocError>
    requires vars { path.now.vars ≡ length c.now.atoms.items }
    requires few_vars { length c.now.atoms.items < 2000000000 }
    requires ready { IsReady (problem_in c.now) path.now.literals told.old.count
        (T.literals told.old.theory) (T.capacity told.old.theory) (T.takes told.old.theory)
        (T.models told.old.theory) T.meets }
    ensures ready { IsReady (problem_in c.now) path.now.literals told.new.count
        (T.literals told.new.theory) (T.capacity told.new.theory) (T.takes told.new.theory)
        (T.models told.new.theory) T.meets }
    ensures next { IfOk result (λ line. IfSome line (λ l. IsNext (tree (problem_in c.now)
        path.now.literals) l × IsSmall l)) }
{
    let Some(line) = plan.next(path)? else {
        return Ok(None);
    };
    if is_next(c, path, told, line)? {
        return Ok(Some(line));
    }
    plan.give_up();
    Ok(None)
}
