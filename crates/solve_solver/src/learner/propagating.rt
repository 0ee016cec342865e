//! What follows from the given clauses alone.

ghost use Rattle.std.specs.Prelude.{◌≡◌, All};
ghost use Rattle.solve_solver.specs.Assumed.{IsEnd, IsExtended};
ghost use Rattle.solve_solver.specs.Clauses.{IsWithin};
ghost use Rattle.solve_solver.specs.ContextView.{SameProblem};
ghost use Rattle.solve_solver.specs.Units.{IsFoundIn};

use super::Learner;
use crate::reason::Reason;
use crate::trail::{Entry, Trail};
use crate::units::{ClauseState, Found, find_unit};
use solve_theory::Theory;

impl<T: Theory> Learner<T> {
    /// Begins a search: from nothing where that is said, else from what is set.
    pub fn begin(&mut self, anew: bool)
        ensures problem { SameProblem T.capacity T.takes T.models self.old.state self.new.state }
        ensures kept { self.new ≡ record self.old { state = self.new.state } }
    {
        if anew {
            self.restart();
            self.look_anew(true);
        }
    }

    /// Lets all watches be looked at again, where that is said.
    pub fn look_anew(&mut self, anew: bool)
        ensures { self.new ≡ self.old }
    {
        if anew {
            self.watches.rewind(0);
            self.next = 0;
        }
    }

    /// Sets what follows from the clauses that are given, in a trail of its own, and gives the
    /// place of a clause that is in conflict then, if there is one.
    pub fn propagate(&mut self, trail: &mut Trail) -> Option<usize>
        requires { trail.old.vars ≡ self.old.state.vars }
        ensures kept { self.new ≡ self.old }
        ensures vars { trail.new.vars ≡ trail.old.vars }
        ensures end { IsEnd self.old.state.clauses trail.new.entries result }
        ensures extended { IsExtended self.old.state.vars self.old.state.clauses trail.old.entries
            trail.new.entries }
    {
        loop {
            let found = self.find_given(trail);
            match found.state {
                ClauseState::Open => return None,
                ClauseState::Conflict => return Some(found.clause),
                ClauseState::UnitLiteral(literal) => trail.push(Entry {
                    literal,
                    decided: false,
                }),
            }
        }
    }

    /// A conflict or unit among the clauses that are given, or `Open` where there is none: first
    /// among those that watch what became false, and then among all.
    fn find_given(&mut self, trail: &Trail) -> Found
        requires { trail.now.vars ≡ self.old.state.vars }
        ensures kept { self.new ≡ self.old }
        ensures found { IsFoundIn trail.now.entries self.old.state.clauses result.state
            result.clause }
        ensures within { All (IsWithin self.old.state.vars) self.old.state.clauses }
    {
        let given = self.state.clauses();
        let step = self.watches.find(trail, given, &self.learned, false);
        match step.reason {
            Reason::Given(clause) => match step.state {
                ClauseState::Open => find_unit(trail, given, 0),
                state => Found { state, clause },
            },
            _ => find_unit(trail, given, 0),
        }
    }
}
