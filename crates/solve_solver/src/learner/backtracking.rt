//! What is taken back after a conflict.

ghost use Rattle.std.specs.Prelude.{◌≡◌, ◌↔◌, ◌<◌, ◌≤◌, ◌∷◌, [], None, length, IsTrue, MatchOption};
ghost use Rattle.std.specs.Bool.{OnTrue, OnFalse};
ghost use Rattle.solve_solver.specs.Dropping.{IsDropped, before_decision};
ghost use Rattle.solve_solver.specs.Marks.{ForcesMarked, IsFreeLevel, IsRefutedMarked};
ghost use Rattle.solve_solver.specs.ContextView.{Lawful, SameProblem};
ghost use Rattle.solve_solver.specs.Steps.{IsExhausted, IsReached, IsTakenBack, work};
ghost use Rattle.solve_solver.specs.Trail.{trail_literals, value_in};
ghost use Rattle.solve_solver.specs.Work.{rest};

use super::Learner;
use crate::literal::PLit;
use crate::progress::Progress;
use crate::trail::Entry;
use solve_theory::Theory;

impl<T: Theory> Learner<T> {
    /// Takes literals back, each for what it follows from, up to the first that alone stands for
    /// its level, and then the rest of that level. Gives the opposite of that literal, which the
    /// marked ones force.
    pub fn pop_to_point(&mut self) -> Option<PLit>
        requires { IsRefutedMarked (Lawful T.models T.meets self.old.state) self.old.marks
            self.old.state.entries }
        ensures problem { SameProblem T.capacity T.takes T.models self.old.state self.new.state }
        ensures kept { self.new ≡ record self.old {
          state = self.new.state;
          marks = self.new.marks;
          preferences = self.new.preferences;
        } }
        ensures cases { MatchOption result (IsExhausted T.literals T.models T.meets self.new.state)
            (IsTakenBack (Lawful T.models T.meets self.old.state) self.new.marks
            self.old.state.vars self.old.state.entries self.new.state.entries) }
    {
        while let Some(entry) = self.state.pop() {
            let literal = entry.literal;
            self.preferences.offer(literal.var);
            self.watches.rewind(self.state.len());
            if self.marks[literal.var as usize] {
                self.preferences.bump(literal.var);
                if entry.decided {
                    return Some(literal.opposite());
                }
                if self.pop_free_level() {
                    return Some(literal.opposite());
                }
                let reason = self.reasons[literal.var as usize];
                self.explain(reason, Some(literal));
            }
        }
        None
    }

    /// Takes the latest level back where nothing is marked in it, and says whether that was so.
    fn pop_free_level(&mut self) -> bool
        ensures problem { SameProblem T.capacity T.takes T.models self.old.state self.new.state }
        ensures kept { self.new ≡ record self.old { state = self.new.state } }
        ensures free { IsTrue result ↔ IsFreeLevel self.old.marks self.old.state.entries }
        ensures dropped { OnTrue result
            (self.new.state.entries ≡ before_decision self.old.state.entries) }
        ensures same { OnFalse result (self.new.state.entries ≡ self.old.state.entries) }
    {
        let free = self.state.trail().is_free_level(self.marks.as_slice());
        if free {
            self.pop_level();
        }
        free
    }

    /// Takes back the levels in which nothing is marked, from the latest on.
    pub fn pop_free_levels(&mut self)
        ensures problem { SameProblem T.capacity T.takes T.models self.old.state self.new.state }
        ensures kept { self.new ≡ record self.old { state = self.new.state } }
        ensures ended { ¬ IsFreeLevel self.old.marks self.new.state.entries }
        ensures dropped { IsDropped self.old.marks self.old.state.vars self.old.state.entries
            self.new.state.entries }
        ensures no_more { let vars = self.old.state.vars in
            rest vars self.new.state.entries ≤ rest vars self.old.state.entries }
    {
        while self.pop_free_level() {}
    }

    /// Takes the latest literal back, whose variable may be decided again.
    fn pop(&mut self) -> Option<Entry>
        ensures problem { SameProblem T.capacity T.takes T.models self.old.state self.new.state }
        ensures kept { self.new ≡ record self.old { state = self.new.state } }
        ensures entries { MatchOption result
            ((self.old.state.entries ≡ []) × (self.new.state.entries ≡ []))
            (λ e. self.old.state.entries ≡ e ∷ self.new.state.entries) }
        ensures in_step { T.literals self.new.state.theory
            ≡ trail_literals self.new.state.atoms self.new.state.entries }
    {
        let entry = self.state.pop()?;
        self.preferences.offer(entry.literal.var);
        self.watches.rewind(self.state.len());
        Some(entry)
    }

    /// Takes literals back up to the latest decision, which goes too.
    pub fn pop_level(&mut self)
        ensures problem { SameProblem T.capacity T.takes T.models self.old.state self.new.state }
        ensures kept { self.new ≡ record self.old { state = self.new.state } }
        ensures entries { self.new.state.entries ≡ before_decision self.old.state.entries }
    {
        while let Some(entry) = self.pop() {
            if entry.decided {
                return;
            }
        }
    }

    /// Takes all decisions back, and what was set since. What was set before them stays.
    pub fn pop_decisions(&mut self)
        ensures problem { SameProblem T.capacity T.takes T.models self.old.state self.new.state }
        ensures kept { self.new ≡ record self.old { state = self.new.state } }
        ensures few { length self.new.state.entries ≤ self.new.state.vars }
    {
        for _ in 0..self.state.decisions() {
            self.pop_level();
        }
        self.watches.rewind(self.state.len());
    }

    /// Takes all decisions back, and forgets clauses where more were learned than are to be kept.
    pub fn begin_anew(&mut self)
        ensures problem { SameProblem T.capacity T.takes T.models self.old.state self.new.state }
        ensures kept { self.new ≡ record self.old {
          state = self.new.state;
          learned = self.new.learned;
          reasons = self.new.reasons;
        } }
        ensures few { length self.new.state.entries ≤ self.new.state.vars }
    {
        let set = self.state.len();
        self.pop_decisions();
        self.reduce(set);
    }

    /// Takes everything back that is set. What was learned stays.
    pub fn restart(&mut self)
        ensures problem { SameProblem T.capacity T.takes T.models self.old.state self.new.state }
        ensures unset { self.new.state.entries ≡ [] }
        ensures nothing { T.literals self.new.state.theory ≡ [] }
        ensures kept { self.new ≡ record self.old { state = self.new.state } }
    {
        while self.pop().is_some() {}
    }

    /// Learns from what is marked, goes back over the decisions that have no part in it, and
    /// follows the literal that it forces.
    pub fn conclude(&mut self, literal: PLit) -> Progress
        requires within { literal.var < self.old.state.vars }
        requires unset { value_in self.old.state.entries literal.var ≡ None }
        requires forced { ForcesMarked (Lawful T.models T.meets self.old.state) self.old.marks
            self.old.state.entries literal }
        ensures problem { SameProblem T.capacity T.takes T.models self.old.state self.new.state }
        ensures reached { IsReached T.literals T.models T.meets result self.new.marks
            self.new.state }
        ensures less { work result self.new.state ≤ rest self.old.state.vars self.old.state.entries }
    {
        self.minimize();
        self.pop_free_levels();
        let reason = self.learn(literal);
        self.follow(literal, reason)
    }
}
