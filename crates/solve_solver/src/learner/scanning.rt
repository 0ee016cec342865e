//! What a search meets next.

ghost use Rattle.std.specs.Prelude.{◌≡◌};
ghost use Rattle.solve_solver.specs.ContextView.{Lawful};
ghost use Rattle.solve_solver.specs.LearnerView.{clause_by};
ghost use Rattle.solve_solver.specs.Scanned.{IsMetIn};
ghost use Rattle.solve_solver.specs.Watches.{IsMet};

use super::Learner;
use crate::reason::Reason;
use crate::units::{ClauseState, scan};
use crate::watches::Step;
use solve_theory::Theory;

impl<T: Theory> Learner<T> {
    /// A conflict or unit that was met: among the clauses that watch what became false, and among
    /// those that were not looked at yet.
    pub fn scan(&mut self) -> Step
        ensures kept { self.new ≡ self.old }
        ensures shown { IsMetIn (Lawful T.models T.meets self.old.state) self.old.state.vars
            self.old.state.entries result.state }
        ensures met { IsMet self.old.state.entries (clause_by self.old result.reason) result.state }
    {
        let trail = self.state.trail();
        let given = self.state.clauses();
        let step = self.watches.find(trail, given, &self.learned, true);
        match step.state {
            ClauseState::Open => self.scan_new(),
            _ => step,
        }
    }

    /// The same among the clauses that were not looked at yet.
    fn scan_new(&mut self) -> Step
        ensures kept { self.new ≡ self.old }
        ensures shown { IsMetIn (Lawful T.models T.meets self.old.state) self.old.state.vars
            self.old.state.entries result.state }
        ensures met { IsMet self.old.state.entries (clause_by self.old result.reason) result.state }
    {
        let given = self.state.clauses();
        let count = given.len();
        let found = scan(self.state.trail(), given, self.next.min(count), count);
        self.next = found.clause.saturating_add(1).min(count);
        Step {
            state: found.state,
            reason: Reason::Given(found.clause),
        }
    }
}
