//! The steps of a search.

ghost use Rattle.std.specs.Prelude.{◌≡◌, ◌≢◌, ℕ, ◌<◌, ◌≤◌, ◌∷◌, ◌++◌, ◌⊎◌, [], None, length, All, IfOk, OnOk, OnErr, replicate, slice_set, false};
ghost use Rattle.std.specs.Bool.{OnTrue, OnFalse};
ghost use Rattle.solve_solver.specs.Assignment.{negated};
ghost use Rattle.solve_solver.specs.Clauses.{IsWithin};
ghost use Rattle.solve_solver.specs.Learned.{learned_list};
ghost use Rattle.solve_solver.specs.Marks.{ForcesMarked, IsRefutedMarked};
ghost use Rattle.solve_solver.specs.Preferences.{noted};
ghost use Rattle.solve_solver.specs.Scanned.{IsNext};
ghost use Rattle.solve_solver.specs.ContextView.{Lawful, IsTaken, SameProblem};
ghost use Rattle.solve_solver.specs.Steps.{IsDecided, IsExhausted, IsFollowed, IsReached, IsSolved, work};
ghost use Rattle.solve_solver.specs.Trail.{value_in, Forces};
ghost use Rattle.solve_solver.specs.Work.{rest};

mod adding;
mod backtracking;
mod explaining;
mod forgetting;
mod propagating;
mod scanning;

use crate::atoms::Atoms;
use crate::clauses::Clauses;
use crate::context::Context;
use crate::learned::Learned;
use crate::limits::TOO_MANY;
use crate::literal::PLit;
use crate::preferences::Preferences;
use crate::progress::Progress;
use crate::reason::Reason;
use crate::restarts::Restarts;
use crate::trail::Entry;
use crate::units::ClauseState;
use crate::watches::Watches;
use solve_theory::{LitBuf, Theory};
use std::alloc::{AllocError, Global};
use std::marker::Model;

/// For how many learned clauses there is room for each variable.
const LEARNED_EACH: usize = 8;

/// For how many there is room for all variables at most.
const USUAL_LEARNED: usize = 16_384;

/// For how many more there is room at most: for as many as there are clauses.
const MORE_LEARNED: usize = 65_536;

/// For how many literals a clause it has room, where there are so many variables.
const USUAL_WIDTH: usize = 32;

/// A search that learns from its conflicts.
#[derive(Drop)]
pub struct Learner<T: Theory> {
    state: Context<T>,
    learned: Learned,
    /// Of each variable, the clause by which it was set.
    reasons: Vec<Reason>,
    /// Of each variable, whether it has part in the conflict that is looked at.
    marks: Vec<bool>,
    preferences: Preferences,
    /// The clause that is learned.
    draft: LitBuf<PLit>,
    watches: Watches,
    /// The first clause that was not looked at yet.
    next: usize,
}

impl<T: Theory> Model for Learner<T> {
    ghost use Rattle.std.specs.Prelude.{length, vec_len};
    ghost use Rattle.solve_solver.specs.Learned.{learned_list};
    ghost use Rattle.solve_solver.specs.LearnerView.{LearnerView, IsLearner};

    ghost Value = { LearnerView T T.Lit };

    ghost view = { λ s. record {
      state = s.state;
      marks = s.marks.items;
      learned = s.learned;
      reasons = s.reasons.items;
      preferences = s.preferences;
    } };

    ghost invariant = { λ s. IsLearner T.models T.meets s.state
        (learned_list s.learned) s.learned.width
        (vec_len s.marks) (vec_len s.reasons) (length s.preferences.scores) s.draft.capacity s.watches };
}

impl<T: Theory + Drop> Learner<T> {
    /// A search with nothing set and nothing learned. There is an entry of `atoms` for each of the
    /// `vars` variables.
    pub fn new(
        alloc: Global,
        vars: u32,
        clauses: Clauses,
        atoms: Atoms<T::Lit>,
        theory: T,
    ) -> Result<Learner<T>, AllocError>
        requires empty { T.literals theory ≡ [] }
        requires room { vars ≤ T.capacity theory }
        requires one_each { length atoms ≡ vars }
        requires taken { All (IsTaken (T.takes theory)) atoms }
        requires within { All (IsWithin vars) clauses.list }
        requires few_vars { vars < TOO_MANY }
        requires few_clauses { length clauses.list < TOO_MANY }
        ensures state { IfOk result (λ s. s.state ≡ record {
          vars = vars;
          clauses = clauses.list;
          atoms = atoms;
          theory = theory;
          entries = [];
        }) }
        ensures nothing { IfOk result (λ s.
            (s.marks ≡ replicate vars false) × (learned_list s.learned ≡ [])) }
    {
        let width = vars as usize;
        let usual = (LEARNED_EACH * width).min(USUAL_LEARNED).max(1);
        let most = usual + clauses.len().min(MORE_LEARNED);
        let literals = (most * width.min(USUAL_WIDTH)).max(width);
        let learned = Learned::new(alloc, most, literals, width, clauses.len())?;
        let reasons = vec![in alloc; Reason::Unknown; vars as usize]?;
        let marks = vec![in alloc; false; vars as usize]?;
        let preferences = Preferences::new(alloc, vars)?;
        let draft = LitBuf::new(alloc, vars as usize)?;
        let watches = Watches::new(alloc, vars, most, &clauses)?;
        let state = Context::new(alloc, vars, clauses, atoms, theory)?;
        Ok(Learner {
            state,
            learned,
            reasons,
            marks,
            preferences,
            draft,
            watches,
            next: 0,
        })
    }
}

impl<T: Theory> Learner<T> {
    /// The theory, as the search left it.
    pub fn theory(&self) -> &T
        ensures { result.now ≡ self.now.state.theory }
    {
        self.state.theory()
    }

    /// The value of a variable, where it is set.
    pub fn value(&self, var: u32) -> Option<bool>
        requires { var < self.now.state.vars }
        ensures { result ≡ value_in self.now.state.entries var }
    {
        self.state.value(var)
    }

    /// Lets a variable be tried with this value first, until it has another.
    pub fn prefer(&mut self, literal: PLit)
        requires { literal.var < self.old.state.vars }
        ensures { self.new ≡ record self.old { preferences = noted self.old.preferences literal } }
    {
        self.preferences.note(literal);
    }

    /// Makes a literal true, unless the theory refuses it. Then the literals that are why get
    /// marks.
    fn set(&mut self, entry: Entry) -> bool
        requires within { entry.literal.var < self.old.state.vars }
        requires unset { value_in self.old.state.entries entry.literal.var ≡ None }
        requires follows { OnFalse entry.decided
            (Forces (Lawful T.models T.meets self.old.state) self.old.state.entries entry.literal) }
        ensures problem { SameProblem T.capacity T.takes T.models self.old.state self.new.state }
        ensures kept { self.new ≡ record self.old {
          state = self.new.state;
          marks = self.new.marks;
          preferences = noted self.old.preferences entry.literal;
        } }
        ensures taken { OnTrue result (self.new.state.entries ≡ entry ∷ self.old.state.entries) }
        ensures refused { OnFalse result (self.new.state.entries ≡ self.old.state.entries) }
        ensures unmarked { OnTrue result (self.new.marks ≡ self.old.marks) }
        ensures why { OnFalse result (ForcesMarked
            (Lawful T.models T.meets self.old.state) self.new.marks
            self.old.state.entries (negated entry.literal)) }
        ensures room { length self.old.state.entries < self.old.state.vars }
    {
        self.preferences.note(entry.literal);
        self.state.assign(entry, self.marks.as_mut_slice())
    }

    /// Makes a literal true that follows from what is set, and notes why. Where the theory refuses
    /// it, what is marked is refuted.
    pub fn follow(&mut self, literal: PLit, reason: Reason) -> Progress
        requires next { IsNext (Lawful T.models T.meets self.old.state) self.old.state.vars
            self.old.state.entries literal }
        ensures problem { SameProblem T.capacity T.takes T.models self.old.state self.new.state }
        ensures kept { self.new ≡ record self.old {
          state = self.new.state;
          marks = self.new.marks;
          reasons = slice_set self.old.reasons literal.var reason;
          preferences = noted self.old.preferences literal;
        } }
        ensures reached { IsReached T.literals T.models T.meets result self.new.marks
            self.new.state }
        ensures set { IsFollowed self.old.state.entries self.new.state.entries literal result }
        ensures less { work result self.new.state ≤ rest self.old.state.vars self.old.state.entries }
        ensures room { length self.old.state.entries < self.old.state.vars }
    {
        self.reasons[literal.var as usize] = reason;
        let entry = Entry {
            literal,
            decided: false,
        };
        if self.set(entry) {
            return Progress::Open;
        }
        self.explain(reason, Some(literal));
        Progress::Refuted
    }

    /// Decides that a literal is true, or makes it false where the theory refuses that, and learns
    /// why.
    fn decide(&mut self, literal: PLit) -> Progress
        requires within { literal.var < self.old.state.vars }
        requires unset { value_in self.old.state.entries literal.var ≡ None }
        ensures problem { SameProblem T.capacity T.takes T.models self.old.state self.new.state }
        ensures reached { IsReached T.literals T.models T.meets result self.new.marks
            self.new.state }
        ensures less { work result self.new.state < work Progress.Open self.old.state }
    {
        let entry = Entry {
            literal,
            decided: true,
        };
        if self.set(entry) {
            return Progress::Open;
        }
        self.conclude(literal.opposite())
    }

    /// Goes on by a conflict, a unit or a decision.
    fn advance(&mut self) -> Progress
        ensures problem { SameProblem T.capacity T.takes T.models self.old.state self.new.state }
        ensures reached { IsReached T.literals T.models T.meets result self.new.marks
            self.new.state }
        ensures less { work result self.new.state < work Progress.Open self.old.state }
    {
        let step = self.scan();
        match step.state {
            ClauseState::Conflict => {
                self.explain(step.reason, None);
                Progress::Refuted
            }
            ClauseState::UnitLiteral(literal) => self.follow(literal, step.reason),
            ClauseState::Open => match self.preferences.choose(self.state.trail()) {
                Some(literal) => {
                    let literal = self.state.inclined(literal);
                    self.decide(literal)
                }
                None => self.finish(),
            },
        }
    }

    /// Looks at all clauses once each variable is set.
    fn finish(&mut self) -> Progress
        requires { (var : ℕ) → var < self.old.state.vars →
            value_in self.old.state.entries var ≢ None }
        ensures problem { SameProblem T.capacity T.takes T.models self.old.state self.new.state }
        ensures reached { IsReached T.literals T.models T.meets result self.new.marks
            self.new.state }
        ensures less { work result self.new.state < work Progress.Open self.old.state }
    {
        let found = self.state.find_unit(0);
        match found.state {
            ClauseState::Conflict => {
                self.explain(Reason::Given(found.clause), None);
                Progress::Refuted
            }
            ClauseState::UnitLiteral(literal) => self.follow(literal, Reason::Given(found.clause)),
            ClauseState::Open => Progress::Found,
        }
    }

    /// Learns from a conflict, goes back over the decisions that have no part in what was learned,
    /// and follows it.
    fn backtrack(&mut self) -> Progress
        requires { IsRefutedMarked (Lawful T.models T.meets self.old.state) self.old.marks
            self.old.state.entries }
        ensures problem { SameProblem T.capacity T.takes T.models self.old.state self.new.state }
        ensures reached { IsReached T.literals T.models T.meets result self.new.marks
            self.new.state }
        ensures less { work result self.new.state < work Progress.Refuted self.old.state }
    {
        let Some(literal) = self.pop_to_point() else {
            return Progress::Exhausted;
        };
        self.conclude(literal)
    }

    /// Counts a conflict, and forgets clauses where more were learned than are to be kept. A
    /// restart is due where there is no room to learn one clause more even so.
    fn count(&mut self, restarts: &mut Restarts)
        ensures restarts { restarts.new ≡ restarts.old }
        ensures kept { self.new ≡ record self.old {
          learned = self.new.learned;
          reasons = self.new.reasons;
        } }
    {
        restarts.count();
        let set = self.state.len();
        self.reduce(set);
        if !self.learned.has_room() {
            restarts.hasten();
        }
    }

    /// Goes on until there is a lawful assignment or none is left, and says whether there is one.
    pub fn run(&mut self) -> bool
        ensures problem { SameProblem T.capacity T.takes T.models self.old.state self.new.state }
        ensures found { OnTrue result (IsSolved T.literals T.models T.meets self.new.state) }
        ensures none_left { OnFalse result
            (IsExhausted T.literals T.models T.meets self.new.state) }
    {
        let mut restarts = Restarts::new();
        let mut progress = Progress::Open;
        loop {
            match progress {
                Progress::Open if restarts.is_due() => {
                    restarts.take();
                    self.begin_anew();
                }
                Progress::Open => progress = self.advance(),
                Progress::Refuted => {
                    progress = self.backtrack();
                    self.count(&mut restarts);
                }
                Progress::Found => return true,
                Progress::Exhausted => return false,
            }
        }
    }
}
