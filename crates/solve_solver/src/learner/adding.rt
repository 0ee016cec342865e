//! How a clause that is added meets what is set.

ghost use Rattle.std.specs.Prelude.{◌≡◌, ◌<◌, ◌+◌, ◌∷◌, ◌++◌, [], length, OnOk, OnErr};
ghost use Rattle.solve_solver.specs.Clauses.{IsWithin};
ghost use Rattle.solve_solver.specs.ContextView.{SameProblem};

use super::Learner;
use crate::limits::TOO_MANY;
use crate::literal::PLit;
use crate::looking::latest_two;
use crate::units::{ClauseState, clause_state};
use solve_theory::Theory;
use std::alloc::AllocError;

impl<T: Theory> Learner<T> {
    /// Puts a clause behind the others, and takes decisions back where it is in conflict. Where
    /// memory is wanted the learner is as before.
    pub fn add_clause(&mut self, clause: &[PLit]) -> Result<(), AllocError>
        requires within { IsWithin self.old.state.vars clause.now }
        requires few { length self.old.state.clauses + 1 < TOO_MANY }
        ensures problem { let clauses = self.new.state.clauses in
            SameProblem T.capacity T.takes T.models (record self.old.state { clauses = clauses })
            self.new.state }
        ensures clauses { OnOk result
            (self.new.state.clauses ≡ self.old.state.clauses ++ clause.now ∷ []) }
        ensures kept { self.new ≡ record self.old { state = self.new.state } }
        ensures err { OnErr result (self.new ≡ self.old) }
    {
        let place = self.state.clauses().len();
        self.watches.reserve(place + 1)?;
        self.state.push_clause(clause)?;
        self.meet(place, clause);
        Ok(())
    }

    /// Takes decisions back where the clause of a place, which is new, is in conflict, and lets it
    /// be looked at and watched.
    fn meet(&mut self, place: usize, clause: &[PLit])
        requires { IsWithin self.old.state.vars clause.now }
        ensures problem { SameProblem T.capacity T.takes T.models self.old.state self.new.state }
        ensures kept { self.new ≡ record self.old { state = self.new.state } }
    {
        self.make_way(clause);
        self.next = self.next.min(place);
        if let Some((first, second)) = latest_two(self.state.trail(), clause) {
            self.watches.watch_given(place, first, second);
        }
    }

    /// Takes decisions back until a clause is not in conflict, and all of them where it has but one
    /// literal.
    fn make_way(&mut self, clause: &[PLit])
        requires { IsWithin self.old.state.vars clause.now }
        ensures problem { SameProblem T.capacity T.takes T.models self.old.state self.new.state }
        ensures kept { self.new ≡ record self.old { state = self.new.state } }
    {
        if clause.len() < 2 {
            return self.pop_decisions();
        }
        for _ in 0..self.state.decisions() {
            match clause_state(self.state.trail(), clause) {
                ClauseState::Conflict => self.pop_level(),
                _ => break,
            }
        }
    }
}
