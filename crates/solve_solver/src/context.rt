//! The clauses, the theory and the trail in step.

ghost use Rattle.std.specs.Prelude.{◌≡◌, ◌↔◌, ◌<◌, ◌≤◌, ◌∷◌, ◌++◌, [], None, Some, length, reverse, All, IfOk, IfSome, IsSomeAnd, IsTrue, OnOk, OnErr, MatchOption, slice_get, slice_index_or, slice_set, false};
ghost use Rattle.std.specs.Bool.{OnTrue, OnFalse};
ghost use Rattle.solve_theory.specs.Models.{HasModelSaying};
ghost use Rattle.solve_solver.specs.Assignment.{negated};
ghost use Rattle.solve_solver.specs.Clauses.{IsWithin};
ghost use Rattle.solve_solver.specs.Marks.{ForcesMarked, HasMarks, IsEntailed, IsBackedMarked, IsMarkedBut, IsMarkedBy, collected};
ghost use Rattle.solve_solver.specs.ContextView.{Lawful, IsTaken, SameProblem};
ghost use Rattle.solve_solver.specs.Root.{IsEntryAt};
ghost use Rattle.solve_solver.specs.Scanned.{IsScanned};
ghost use Rattle.solve_solver.specs.Trail.{value_in, Forces, Follows, IsTrail, trail_literals};
ghost use Rattle.solve_solver.specs.Units.{IsFoundIn};

use crate::asserting::{theory_literal, try_assert};
use crate::atoms::Atoms;
use crate::clauses::Clauses;
use crate::literal::PLit;
use crate::marking::{collect, is_marked_but, mark_clause, mark_places, push_place};
use crate::trail::{Entry, Trail};
use crate::units::{Found, find_unit};
use solve_theory::{LitBuf, Theory};
use std::alloc::{AllocError, Global};
use std::marker::Model;

/// Clauses, atoms and a theory, with what is set so far. The theory has the literals of the atoms
/// that are set, in the order of the trail, and they have a model.
#[derive(Drop)]
pub struct Context<T: Theory> {
    clauses: Clauses,
    atoms: Atoms<T::Lit>,
    theory: T,
    trail: Trail,
    /// The variable of each literal that the theory has.
    places: Vec<u32>,
    /// For the conflicts of the theory.
    core: LitBuf<u32>,
}

impl<T: Theory> Model for Context<T> {
    ghost use Rattle.std.specs.Prelude.{vec_capacity};
    ghost use Rattle.solve_solver.specs.ContextView.{ContextView, IsKeptContext};

    ghost Value = { ContextView T T.Lit };

    ghost view = { λ s. record {
      vars = s.trail.vars;
      clauses = s.clauses.list;
      atoms = s.atoms;
      theory = s.theory;
      entries = s.trail.entries;
    } };

    ghost invariant = { λ s. IsKeptContext T.literals T.capacity T.takes T.models T.meets (record {
      vars = s.trail.vars;
      clauses = s.clauses.list;
      atoms = s.atoms;
      theory = s.theory;
      entries = s.trail.entries;
    }) s.places.items (vec_capacity s.places) s.core.capacity };
}

impl<T: Theory + Drop> Context<T> {
    /// A search with nothing set. There is an entry of `atoms` for each of the `vars` variables.
    pub fn new(
        alloc: Global,
        vars: u32,
        clauses: Clauses,
        atoms: Atoms<T::Lit>,
        theory: T,
    ) -> Result<Context<T>, AllocError>
        requires empty { T.literals theory ≡ [] }
        requires room { vars ≤ T.capacity theory }
        requires one_each { length atoms ≡ vars }
        requires taken { All (IsTaken (T.takes theory)) atoms }
        requires within { All (IsWithin vars) clauses.list }
        ensures { IfOk result (λ s. s ≡ record {
          vars = vars;
          clauses = clauses.list;
          atoms = atoms;
          theory = theory;
          entries = [];
        }) }
    {
        let trail = Trail::new(alloc, vars)?;
        let places = Vec::with_capacity(alloc, vars as usize)?;
        let core = LitBuf::new(alloc, vars as usize)?;
        Ok(Context {
            clauses,
            atoms,
            theory,
            trail,
            places,
            core,
        })
    }
}

impl<T: Theory> Context<T> {
    /// The theory, as the search left it.
    pub fn theory(&self) -> &T
        ensures { result.now ≡ self.now.theory }
    {
        &self.theory
    }

    /// The value of a variable, where it is set.
    pub fn value(&self, var: u32) -> Option<bool>
        requires { var < self.now.vars }
        ensures { result ≡ value_in self.now.entries var }
    {
        self.trail.value(var)
    }

    /// Puts a clause behind the others. Where memory is wanted the search is as before.
    pub fn push_clause(&mut self, clause: &[PLit]) -> Result<(), AllocError>
        requires { IsWithin self.old.vars clause.now }
        ensures ok { OnOk result
            (self.new ≡ record self.old { clauses = self.old.clauses ++ clause.now ∷ [] }) }
        ensures err { OnErr result (self.new ≡ self.old) }
    {
        self.clauses.push(clause)
    }

    /// The clauses.
    pub fn clauses(&self) -> &Clauses
        ensures list { result.now.list ≡ self.now.clauses }
        ensures within { All (IsWithin self.now.vars) self.now.clauses }
    {
        &self.clauses
    }

    /// What is set so far.
    pub fn trail(&self) -> &Trail
        ensures vars { result.now.vars ≡ self.now.vars }
        ensures entries { result.now.entries ≡ self.now.entries }
        ensures is_trail { IsTrail self.now.vars self.now.entries }
    {
        &self.trail
    }

    /// The literal of the same variable that the model which the theory has at hand makes true,
    /// where the variable has literals of the theory: deciding it is refused by no theory whose two
    /// literals of the variable deny each other.
    pub fn inclined(&self, literal: PLit) -> PLit
        requires { literal.var < self.now.vars }
        ensures var { result.var ≡ literal.var }
        ensures says { IfSome (slice_index_or self.now.atoms literal.var None) (λ atom.
            HasModelSaying (T.models self.now.theory) T.meets (T.literals self.now.theory) atom.0
            result.plus) }
        ensures plain { slice_index_or self.now.atoms literal.var None ≡ None → result ≡ literal }
    {
        match self.atoms.get(literal.var as usize) {
            Some((when_true, _)) => PLit {
                var: literal.var,
                plus: self.theory.is_met(when_true),
            },
            None => literal,
        }
    }

    /// How many literals that are set were decided.
    pub fn decisions(&self) -> usize {
        self.trail.decisions()
    }

    /// How many literals are set.
    pub fn len(&self) -> usize
        ensures len { result ≡ length self.now.entries }
        ensures few { result ≤ self.now.vars }
    {
        self.trail.entries().len()
    }

    /// Makes a literal true, unless the theory refuses it. Then the literals that are why get
    /// marks.
    pub fn assign(&mut self, entry: Entry, marks: &mut [bool]) -> bool
        requires within { entry.literal.var < self.old.vars }
        requires unset { value_in self.old.entries entry.literal.var ≡ None }
        requires follows { OnFalse entry.decided
            (Forces (Lawful T.models T.meets self.old) self.old.entries entry.literal) }
        requires one_each { length marks.old ≡ self.old.vars }
        ensures problem { SameProblem T.capacity T.takes T.models self.old self.new }
        ensures taken { OnTrue result (self.new.entries ≡ entry ∷ self.old.entries) }
        ensures refused { OnFalse result (self.new.entries ≡ self.old.entries) }
        ensures unmarked { OnTrue result (marks.new ≡ marks.old) }
        ensures more { HasMarks marks.new marks.old }
        ensures why { OnFalse result (ForcesMarked (Lawful T.models T.meets self.old) marks.new
            self.old.entries (negated entry.literal)) }
        ensures room { length self.old.entries < self.old.vars }
    {
        let literal = theory_literal(&self.atoms, entry.literal);
        if !try_assert(&mut self.theory, literal, &mut self.core) {
            mark_places(self.places.as_slice(), self.core.items(), marks);
            return false;
        }
        push_place(&mut self.places, literal, entry.literal.var);
        self.trail.push(entry);
        true
    }

    /// Takes the latest literal back.
    pub fn pop(&mut self) -> Option<Entry>
        ensures problem { SameProblem T.capacity T.takes T.models self.old self.new }
        ensures entries { MatchOption result ((self.old.entries ≡ []) × (self.new.entries ≡ []))
            (λ e. self.old.entries ≡ e ∷ self.new.entries) }
        ensures follows { Follows (Lawful T.models T.meets self.old) self.old.entries }
        ensures trail { IsTrail self.old.vars self.old.entries }
        ensures in_step { T.literals self.new.theory
            ≡ trail_literals self.new.atoms self.new.entries }
    {
        let entry = self.trail.pop()?;
        if theory_literal(&self.atoms, entry.literal).is_some() {
            self.theory.undo(1);
            self.places.pop();
        }
        Some(entry)
    }

    /// A conflict or unit among the clauses, or `Open` where there is none. The scan begins at the
    /// clause `from` and goes round.
    pub fn find_unit(&self, from: usize) -> Found
        ensures scanned { IsScanned T.literals T.models T.meets result.state self.now }
        ensures found { IsFoundIn self.now.entries self.now.clauses result.state result.clause }
    {
        find_unit(&self.trail, &self.clauses, from)
    }

    /// Marks what shows by a clause that a literal follows, or where there is none that the clause
    /// is in conflict. Says whether the clause shows that.
    pub fn mark_clause(&self, index: usize, literal: Option<PLit>, marks: &mut [bool]) -> bool
        requires { length marks.old ≡ self.now.vars }
        ensures shown { OnTrue result (IsBackedMarked (Lawful T.models T.meets self.now) marks.new
            self.now.entries literal) }
        ensures by { MatchOption (slice_get self.now.clauses index)
            ((result ≡ false) × (marks.new ≡ marks.old))
            (λ clause. IsMarkedBy self.now.entries literal clause marks.old marks.new result) }
    {
        if index < self.clauses.len() {
            mark_clause(&self.trail, self.clauses.clause(index), literal, marks)
        } else {
            false
        }
    }

    /// Whether a clause shows that a literal follows from the marked ones without its own mark.
    pub fn is_explained(&self, index: usize, literal: PLit, marks: &[bool]) -> bool
        requires { length marks.now ≡ self.now.vars }
        ensures forced { OnTrue result (ForcesMarked (Lawful T.models T.meets self.now)
            (slice_set marks.now literal.var false) self.now.entries literal) }
        ensures by { IsTrue result ↔ IsSomeAnd (slice_get self.now.clauses index)
            (IsMarkedBut (slice_set marks.now literal.var false) self.now.entries (Some literal)) }
    {
        if index < self.clauses.len() {
            is_marked_but(&self.trail, self.clauses.clause(index), literal, marks)
        } else {
            false
        }
    }

    /// The literal at a place of the trail, counted from the oldest on.
    pub fn entry(&self, place: usize) -> Entry
        requires { place < length self.now.entries }
        ensures within { result.literal.var < self.now.vars }
        ensures place { slice_get (reverse self.now.entries) place ≡ Some result }
        ensures here { IsEntryAt (Lawful T.models T.meets self.now) self.now.entries place result }
    {
        self.trail.entries()[place]
    }

    /// Makes a clause of a literal that the marked ones force, and of their opposites, the latest
    /// first.
    pub fn collect(&self, literal: PLit, marks: &[bool], clause: &mut LitBuf<PLit>)
        requires within { literal.var < self.now.vars }
        requires unset { value_in self.now.entries literal.var ≡ None }
        requires one_each { length marks.now ≡ self.now.vars }
        requires forced { ForcesMarked
            (Lawful T.models T.meets self.now) marks.now self.now.entries literal }
        requires room { clause.old.capacity ≡ self.now.vars }
        ensures items { clause.new.items ≡ collected literal marks.now self.now.entries }
        ensures entailed { IsEntailed (Lawful T.models T.meets self.now) clause.new.items }
        ensures within { IsWithin self.now.vars clause.new.items }
        ensures few { length clause.new.items ≤ self.now.vars }
        ensures capacity { clause.new.capacity ≡ clause.old.capacity }
    {
        collect(self.trail.entries(), literal, marks, clause);
    }
}
