//! A look at a clause that watches what became false.

ghost use Rattle.std.specs.Prelude.{◌<◌, Some, IfSome};
ghost use Rattle.solve_solver.specs.Clauses.{IsWithin};
ghost use Rattle.solve_solver.specs.Watches.{IsLookAt};

use crate::literal::PLit;
use crate::trail::Trail;
use crate::units::ClauseState;

/// What a look at a clause shows, of which one watched literal is false.
#[derive(Clone, Copy)]
pub enum Look {
    /// This literal of the clause is not false, and not the other one that is watched.
    Moves(PLit),
    /// There is no such literal: the clause is in conflict, or a unit, or the other one is true.
    Stays(ClauseState),
}

/// Looks at a clause that watches `other` beside a literal that is false.
pub fn look_into(trail: &Trail, clause: &[PLit], other: PLit) -> Look
    requires within { IsWithin trail.now.vars clause.now }
    requires other { other.var < trail.now.vars }
    ensures { IsLookAt trail.now.vars trail.now.entries (Some clause.now) result }
{
    let mut has_other = false;
    for literal in clause {
        if *literal == other {
            has_other = true;
        } else if !trail.is_false(*literal) {
            return Look::Moves(*literal);
        }
    }
    if !has_other {
        return Look::Stays(ClauseState::Conflict);
    }
    match trail.literal_value(other) {
        None => Look::Stays(ClauseState::UnitLiteral(other)),
        Some(false) => Look::Stays(ClauseState::Conflict),
        Some(true) => Look::Stays(ClauseState::Open),
    }
}

/// The two literals of a clause that are to be watched: those that are not false first, and then
/// those that became false last. They are the same where no two differ.
pub fn latest_two(trail: &Trail, clause: &[PLit]) -> Option<(PLit, PLit)>
    requires { IsWithin trail.now.vars clause.now }
    ensures { IfSome result (λ two. (two.0.var < trail.now.vars) × (two.1.var < trail.now.vars)) }
{
    let first = clause.first()?;
    let mut best = *first;
    let mut second = *first;
    for literal in clause {
        if rank(trail, *literal) > rank(trail, best) {
            second = best;
            best = *literal;
        } else if *literal != best
            && (second == best || rank(trail, *literal) > rank(trail, second))
        {
            second = *literal;
        }
    }
    Some((best, second))
}

/// How late a literal became false: later than any where it is not.
fn rank(trail: &Trail, literal: PLit) -> usize
    requires { literal.var < trail.now.vars }
{
    if trail.is_false(literal) {
        trail.place(literal.var)
    } else {
        usize::MAX
    }
}
