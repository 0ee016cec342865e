//! The scan of all clauses for one that is in conflict or a unit.

ghost use Rattle.std.specs.Prelude.{◌≡◌, ◌<◌, ◌≤◌, length, All};
ghost use Rattle.solve_solver.specs.Clauses.{IsWithin};
ghost use Rattle.solve_solver.specs.Units.{IsStateOf, IsFoundIn, IsFoundWithin};

use crate::clauses::Clauses;
use crate::literal::PLit;
use crate::trail::Trail;

/// What a clause says under a trail.
#[derive(Clone, Copy)]
pub enum ClauseState {
    /// Each literal is false.
    Conflict,
    /// Each literal is false but this one, which is not set.
    UnitLiteral(PLit),
    /// Some literal is true, or two that differ are not set.
    Open,
}

/// What `clause` says under `trail`.
pub fn clause_state(trail: &Trail, clause: &[PLit]) -> ClauseState
    requires { IsWithin trail.now.vars clause.now }
    ensures { IsStateOf trail.now.entries clause.now result }
{
    let mut unset: Option<PLit> = None;
    for literal in clause {
        match trail.literal_value(*literal) {
            Some(true) => return ClauseState::Open,
            Some(false) => (),
            None => match unset {
                Some(other) if other.is_same(*literal) => (),
                Some(_) => return ClauseState::Open,
                None => unset = Some(*literal),
            },
        }
    }
    match unset {
        None => ClauseState::Conflict,
        Some(literal) => ClauseState::UnitLiteral(literal),
    }
}

/// What a scan met: a conflict or a unit and the place of its clause, or `Open`, where the place
/// says nothing.
#[derive(Clone, Copy)]
pub struct Found {
    pub state: ClauseState,
    pub clause: usize,
}

/// A conflict or unit among the clauses, or `Open` where there is none. The scan begins at the
/// clause `from` and goes round.
pub fn find_unit(trail: &Trail, clauses: &Clauses, from: usize) -> Found
    requires { All (IsWithin trail.now.vars) clauses.now.list }
    ensures { IsFoundIn trail.now.entries clauses.now.list result.state result.clause }
{
    let count = clauses.len();
    let middle = from.min(count);
    let found = scan(trail, clauses, middle, count);
    match found.state {
        ClauseState::Open => scan(trail, clauses, 0, middle),
        _ => found,
    }
}

/// The first conflict or unit among the clauses from `start` up to `end`.
pub fn scan(trail: &Trail, clauses: &Clauses, start: usize, end: usize) -> Found
    requires within { All (IsWithin trail.now.vars) clauses.now.list }
    requires inside { end ≤ length clauses.now.list }
    ensures { IsFoundWithin trail.now.entries clauses.now.list start end result.state result.clause }
{
    for clause in start..end {
        match clause_state(trail, clauses.clause(clause)) {
            ClauseState::Open => (),
            state => return Found { state, clause },
        }
    }
    Found {
        state: ClauseState::Open,
        clause: end,
    }
}
