//! What is learned from a conflict.

ghost use Rattle.std.specs.Prelude.{◌≡◌, ◌<◌, ◌+◌, ◌⊎◌, length, List, Bool, IsTrue, MatchOption, replicate, reverse, slice_get, slice_set, true, false, Some};
ghost use Rattle.std.specs.Bool.{OnTrue};
ghost use Rattle.std.specs.Option.{IfSome};
ghost use Rattle.solve_solver.specs.Assignment.{literal_value, value_at};
ghost use Rattle.solve_solver.specs.LearnerView.{IsExplained, IsMinimal, IsMinimizedAt, clause_by};
ghost use Rattle.solve_solver.specs.Marks.{ForcesMarked, HasMarks, IsAsStrong, IsBacked, IsBackedMarked, IsMarkedBy, IsShownBy, collected};
ghost use Rattle.solve_solver.specs.Preferences.{decayed, bumped_all};
ghost use Rattle.solve_solver.specs.Root.{AreImplied, oldest};
ghost use Rattle.solve_solver.specs.ContextView.{Lawful};
ghost use Rattle.solve_solver.specs.Trail.{value_in, IsTrail};

use super::Learner;
use crate::literal::PLit;
use crate::marking::{is_marked_but, mark_clause};
use crate::reason::Reason;
use solve_theory::Theory;

impl<T: Theory> Learner<T> {
    /// Marks why a literal follows, or where there is none why the trail is refuted, and notes that
    /// the clause of the reason has part in a conflict.
    pub fn explain(&mut self, reason: Reason, literal: Option<PLit>)
        requires { IsBacked (Lawful T.models T.meets self.old.state) self.old.state.entries literal }
        ensures kept { self.new ≡ record self.old { marks = self.new.marks } }
        ensures more { HasMarks self.new.marks self.old.marks }
        ensures marked { IsBackedMarked (Lawful T.models T.meets self.old.state) self.new.marks
            self.old.state.entries literal }
        ensures sparing { IfSome (clause_by self.old reason) (λ clause.
            IsShownBy self.old.state.entries literal clause
            → IsMarkedBy self.old.state.entries literal clause self.old.marks self.new.marks true) }
    {
        self.bump(reason);
        self.mark_why(reason, literal);
    }

    /// Marks why a literal follows, or where there is none why the trail is refuted: by the clause
    /// of the reason where it shows that, else all that is set.
    fn mark_why(&mut self, reason: Reason, literal: Option<PLit>)
        requires { IsBacked (Lawful T.models T.meets self.old.state) self.old.state.entries literal }
        ensures kept { self.new ≡ record self.old { marks = self.new.marks } }
        ensures more { HasMarks self.new.marks self.old.marks }
        ensures marked { IsBackedMarked (Lawful T.models T.meets self.old.state) self.new.marks
            self.old.state.entries literal }
        ensures sparing { IfSome (clause_by self.old reason) (λ clause.
            IsShownBy self.old.state.entries literal clause
            → IsMarkedBy self.old.state.entries literal clause self.old.marks self.new.marks true) }
    {
        if !self.mark_reason(reason, literal) {
            self.marks.fill(true);
        }
    }

    /// Marks why a literal follows by the clause of a reason, and says whether that shows it.
    fn mark_reason(&mut self, reason: Reason, literal: Option<PLit>) -> bool
        ensures kept { self.new ≡ record self.old { marks = self.new.marks } }
        ensures marked { OnTrue result (IsBackedMarked (Lawful T.models T.meets self.old.state)
            self.new.marks self.old.state.entries literal) }
        ensures by { MatchOption (clause_by self.old reason)
            ((result ≡ false) × (self.new.marks ≡ self.old.marks))
            (λ clause. IsMarkedBy self.old.state.entries literal clause self.old.marks
            self.new.marks
            result) }
        ensures each { length self.new.marks ≡ self.old.state.vars }
        ensures is_trail { IsTrail self.old.state.vars self.old.state.entries }
    {
        let trail = self.state.trail();
        match reason {
            Reason::Given(index) => {
                self.state
                    .mark_clause(index, literal, self.marks.as_mut_slice())
            }
            Reason::Learned(slot) => match self.learned.clause(slot) {
                Some(clause) => mark_clause(trail, clause, literal, self.marks.as_mut_slice()),
                None => false,
            },
            Reason::Unknown => false,
        }
    }

    /// Takes marks away from literals that follow from the marked ones that are left.
    pub fn minimize(&mut self)
        ensures kept { self.new ≡ record self.old { marks = self.new.marks } }
        ensures fewer { HasMarks self.old.marks self.new.marks }
        ensures strong { IsAsStrong (Lawful T.models T.meets self.old.state) self.old.state.entries
            self.new.marks self.old.marks }
        ensures minimal { IsMinimal self.old self.new.marks self.old.state.entries }
    {
        self.minimize_from_latest();
        self.minimize_from_oldest();
    }

    /// Does so from the latest literal on, so that each is seen beside all that it may follow from.
    fn minimize_from_latest(&mut self)
        ensures kept { self.new ≡ record self.old { marks = self.new.marks } }
        ensures fewer { HasMarks self.old.marks self.new.marks }
        ensures strong { IsAsStrong (Lawful T.models T.meets self.old.state) self.old.state.entries
            self.new.marks self.old.marks }
    {
        let count = self.state.len();
        for passed in 0..count {
            self.minimize_at(count - 1 - passed, false);
        }
    }

    /// Does so from the oldest literal on, and takes the marks of all literals that no decision
    /// came before.
    fn minimize_from_oldest(&mut self)
        ensures kept { self.new ≡ record self.old { marks = self.new.marks } }
        ensures fewer { HasMarks self.old.marks self.new.marks }
        ensures strong { IsAsStrong (Lawful T.models T.meets self.old.state) self.old.state.entries
            self.new.marks self.old.marks }
        ensures minimal { IsMinimal self.old self.new.marks self.old.state.entries }
    {
        let mut root = true;
        for place in 0..self.state.len() {
            root = self.minimize_at(place, root);
        }
    }

    /// Takes the mark of the literal at a place of the trail away, counted from the oldest on,
    /// where it follows from the marked ones that are left. `root` says that nothing before it was
    /// decided, and the result that nothing up to it was.
    fn minimize_at(&mut self, place: usize, root: bool) -> bool
        requires within { place < length self.old.state.entries }
        requires root { OnTrue root (AreImplied (oldest place self.old.state.entries)) }
        ensures kept { self.new ≡ record self.old { marks = self.new.marks } }
        ensures strong { IsAsStrong (Lawful T.models T.meets self.old.state) self.old.state.entries
            self.new.marks self.old.marks }
        ensures minimized { IfSome (slice_get (reverse self.old.state.entries) place)
            (λ entry. IsMinimizedAt self.old self.new.marks root entry result) }
        ensures root { OnTrue result (AreImplied (oldest (place + 1) self.old.state.entries)) }
    {
        let entry = self.state.entry(place);
        if entry.decided {
            return false;
        }
        if self.is_explained(entry.literal, root) {
            self.marks[entry.literal.var as usize] = false;
        }
        root
    }

    /// Whether a literal that is set follows from the marked ones without its own mark: by the
    /// clause of its reason, or at all, which `root` says.
    fn is_explained(&self, literal: PLit, root: bool) -> bool
        requires within { literal.var < self.now.state.vars }
        requires root { OnTrue root ((assignment : List Bool) →
            Lawful T.models T.meets self.now.state assignment
            → IsTrue (literal_value assignment literal)) }
        ensures forced { OnTrue result (ForcesMarked (Lawful T.models T.meets self.now.state)
            (slice_set self.now.marks literal.var false) self.now.state.entries literal) }
        ensures root { IsTrue root → IsTrue result }
        ensures by { IsTrue (value_at self.now.marks literal.var)
            → IsExplained self.now self.now.marks literal → IsTrue result }
        ensures only { IsTrue result → IsTrue root ⊎ (IsTrue (value_at self.now.marks literal.var)
            × IsExplained self.now self.now.marks literal) }
    {
        let marks = self.marks.as_slice();
        if root {
            return true;
        }
        if !marks[literal.var as usize] {
            return false;
        }
        match self.reasons[literal.var as usize] {
            Reason::Given(index) => self.state.is_explained(index, literal, marks),
            Reason::Learned(slot) => match self.learned.clause(slot) {
                Some(clause) => is_marked_but(self.state.trail(), clause, literal, marks),
                None => false,
            },
            Reason::Unknown => false,
        }
    }

    /// Notes that the clause of a reason has part in a conflict.
    fn bump(&mut self, reason: Reason)
        ensures { self.new ≡ self.old }
    {
        if let Reason::Learned(slot) = reason {
            self.learned.bump(slot);
        }
    }

    /// Learns that a literal follows from the marked ones, and takes all marks away.
    pub fn learn(&mut self, literal: PLit) -> Reason
        requires within { literal.var < self.old.state.vars }
        requires unset { value_in self.old.state.entries literal.var ≡ None }
        requires forced { ForcesMarked (Lawful T.models T.meets self.old.state) self.old.marks
            self.old.state.entries literal }
        ensures kept { let clause = collected literal self.old.marks self.old.state.entries in
            self.new ≡ record self.old {
              marks = replicate (length self.old.marks) false;
              learned = self.new.learned;
              preferences = decayed (bumped_all self.old.preferences clause);
            } }
        ensures reason { let clause = collected literal self.old.marks self.old.state.entries in
            clause_by self.new result ≡ Some clause }
    {
        self.state
            .collect(literal, self.marks.as_slice(), &mut self.draft);
        self.marks.fill(false);
        self.preferences.bump_all(self.draft.items());
        self.preferences.decay();
        let slot = self.learned.push(self.draft.items());
        self.watches.attach(slot, self.draft.items());
        Reason::Learned(slot)
    }
}
