//! What callers see of a search.

ghost use Rattle.std.specs.Prelude.{◌≡◌, ◌↔◌, ◌<◌, ◌≤◌, ◌+◌, ◌++◌, ◌∷◌, [], Bool, List, None, length, map, All, vec_len, IfOk, OnOk, OnErr, IfSome, IsSome, Some, replicate, slice_set};
ghost use Rattle.solve_theory.specs.Models.{HasModel};
ghost use Rattle.solve_solver.specs.Assignment.{literal_value, theory_literals, SameLiterals};
ghost use Rattle.solve_solver.specs.Clauses.{IsWithin};
ghost use Rattle.solve_solver.specs.ContextView.{IsTaken};
ghost use Rattle.solve_solver.specs.SolverView.{IsLawfulFor, SameTerms};
ghost use Rattle.solve_solver.specs.Values.{Follow, IsPropagated, Stay, set_value};

use crate::atoms::Atoms;
use crate::clauses::Clauses;
use crate::learner::Learner;
use crate::limits::TOO_MANY;
use crate::literal::PLit;
use crate::trail::{Entry, Trail};
use solve_theory::Theory;
use std::alloc::{AllocError, Global};
use std::marker::Model;

/// Whether there is a lawful assignment.
#[derive(Clone, Copy, Debug, PartialEq, Eq)]
pub enum Answer {
    /// There is one, which the solver shows.
    Sat,
    /// There is none.
    Unsat,
}

/// Where a propagation ends.
#[derive(Clone, Copy, Debug, PartialEq, Eq)]
pub enum Prop {
    /// No clause is in conflict or has one literal left.
    Quiet,
    /// All literals of the clause of this number are false. The clauses of `new` are numbered from
    /// 0, and those that were added follow.
    Clash(u32),
}

/// Clauses over variables, some of which stand for literals of a theory.
///
/// An assignment is lawful where it meets each clause and the literals of all atoms, each the one
/// for its variable's value, have a model. All memory but that of clauses which are added is taken
/// by `new` or `with_clauses`. The search learns a clause from each conflict and goes back over the
/// decisions that had no part in it: Marques-Silva and Sakallah, "GRASP: a search algorithm for
/// propositional satisfiability" (1999). Variables can also be assumed, and what follows from the
/// clauses then be set, with no search and no theory.
#[derive(Drop)]
pub struct Solver<T: Theory> {
    learner: Learner<T>,
    /// What was assumed, and what follows from that by clauses.
    assumed: Trail,
    /// Whether the learner looks at what was assumed, and not at its own trail.
    assuming: bool,
    solved: bool,
}

impl<T: Theory> Model for Solver<T> {
    ghost use Rattle.std.specs.Prelude.{Some, None, if◌then◌else◌};
    ghost use Rattle.solve_solver.specs.SolverInside.{IsSolver, values_by};
    ghost use Rattle.solve_solver.specs.SolverView.{SolverView};
    ghost use Rattle.solve_solver.specs.Trail.{assignment_of};

    ghost Value = { SolverView T T.Lit };

    ghost view = { λ s. record {
      vars = s.learner.state.vars;
      clauses = s.learner.state.clauses;
      atoms = s.learner.state.atoms;
      theory = s.learner.state.theory;
      assignment = if s.solved then Some (assignment_of s.learner.state.vars s.learner.state.entries) else None;
      values = values_by s.solved s.learner.state.vars s.learner.state.entries s.assumed.entries;
    } };

    ghost invariant = { λ s. IsSolver s.solved s.learner.state.vars s.learner.state.clauses
        s.learner.state.entries s.assumed.vars };
}

impl<T: Theory + Drop> Solver<T> {
    /// A solver with nothing assigned, for variables below `vars`, fewer than 2,000,000,000, and
    /// fewer clauses than that. `atoms` has one entry for each variable: where the variable is an
    /// atom, the theory's literal when it is true and that when it is false. The theory has nothing
    /// asserted, room for `vars` literals, and takes those of the atoms.
    pub fn new(
        alloc: Global,
        vars: u32,
        clauses: &[Vec<PLit>],
        atoms: Vec<Option<(T::Lit, T::Lit)>>,
        theory: T,
    ) -> Result<Solver<T>, AllocError>
        requires empty { T.literals theory ≡ [] }
        requires room { vars ≤ T.capacity theory }
        requires one_each { vec_len atoms ≡ vars }
        requires taken { All (IsTaken (T.takes theory)) atoms.items }
        requires within { All (λ clause. IsWithin vars clause.items) clauses.now }
        requires few_vars { vars < TOO_MANY }
        requires few_clauses { length clauses.now < TOO_MANY }
        ensures { IfOk result (λ s. s ≡ record {
          vars = vars;
          clauses = map (λ clause. clause.items) clauses.now;
          atoms = atoms.items;
          theory = theory;
          assignment = None;
          values = replicate vars None;
        }) }
    {
        let clauses = Clauses::from_lists(alloc, clauses)?;
        let atoms = Atoms::from_list(alloc, atoms.as_slice())?;
        Solver::with_clauses(alloc, vars, clauses, atoms, theory)
    }

    /// The same of clauses and atoms that stand in one list each, so that nothing is copied.
    pub fn with_clauses(
        alloc: Global,
        vars: u32,
        clauses: Clauses,
        atoms: Atoms<T::Lit>,
        theory: T,
    ) -> Result<Solver<T>, AllocError>
        requires empty { T.literals theory ≡ [] }
        requires room { vars ≤ T.capacity theory }
        requires one_each { length atoms ≡ vars }
        requires taken { All (IsTaken (T.takes theory)) atoms }
        requires within { All (IsWithin vars) clauses.list }
        requires few_vars { vars < TOO_MANY }
        requires few_clauses { length clauses.list < TOO_MANY }
        ensures { IfOk result (λ s. s ≡ record {
          vars = vars;
          clauses = clauses.list;
          atoms = atoms;
          theory = theory;
          assignment = None;
          values = replicate vars None;
        }) }
    {
        let assumed = Trail::new(alloc, vars)?;
        let learner = Learner::new(alloc, vars, clauses, atoms, theory)?;
        Ok(Solver {
            learner,
            assumed,
            assuming: false,
            solved: false,
        })
    }
}

impl<T: Theory> Solver<T> {
    /// Adds a clause, and goes back to no assignment. A search that follows goes on from what the
    /// last one had set, as far as the clause lets it. Where memory is wanted the solver is as
    /// before.
    pub fn add_clause(&mut self, clause: &[PLit]) -> Result<(), AllocError>
        requires within { IsWithin self.old.vars clause.now }
        requires few { length self.old.clauses + 1 < TOO_MANY }
        ensures clauses { OnOk result (self.new.clauses ≡ self.old.clauses ++ clause.now ∷ []) }
        ensures unset { OnOk result (self.new.assignment ≡ None) }
        ensures no_value { OnOk result (self.new.values ≡ replicate self.old.vars None) }
        ensures kept { SameTerms T.capacity T.takes T.models self.old self.new }
        ensures err { OnErr result (self.new ≡ self.old) }
    {
        self.learner.add_clause(clause)?;
        self.learner.look_anew(self.assuming);
        self.assumed.clear();
        self.solved = false;
        Ok(())
    }

    /// Lets a search try a variable that is no atom with this value first, until it has another; an
    /// atom is tried as the theory's model has it. Which assignment is found may depend on it, and
    /// not whether one is.
    pub fn prefer(&mut self, literal: PLit)
        requires { literal.var < self.old.vars }
        ensures { self.new ≡ self.old }
    {
        self.learner.prefer(literal);
    }

    /// Seeks a lawful assignment, whatever was assumed. Where there is one, the solver has it until
    /// the next call that changes it, and the theory has its literals.
    pub fn search(&mut self) -> Answer
        ensures sat { IsSome self.new.assignment ↔ (result ≡ Answer.Sat) }
        ensures lawful { IfSome self.new.assignment (IsLawfulFor T.models T.meets self.new) }
        ensures shown { IfSome self.new.assignment (λ assignment.
            SameLiterals (T.literals self.new.theory) (theory_literals assignment self.new.atoms)) }
        ensures values { IfSome self.new.assignment (λ assignment.
            self.new.values ≡ map Some assignment) }
        ensures has_model { HasModel (T.models self.new.theory) T.meets
            (T.literals self.new.theory) }
        ensures unsat { result ≡ Answer.Unsat
            → (assignment : List Bool) → ¬ IsLawfulFor T.models T.meets self.new assignment }
        ensures nothing { result ≡ Answer.Unsat → T.literals self.new.theory ≡ [] }
        ensures no_value { result ≡ Answer.Unsat → self.new.values ≡ replicate self.new.vars None }
        ensures clauses { self.new.clauses ≡ self.old.clauses }
        ensures kept { SameTerms T.capacity T.takes T.models self.old self.new }
    {
        self.assumed.clear();
        self.learner.begin(self.assuming);
        self.assuming = false;
        self.solved = self.learner.run();
        if self.solved {
            Answer::Sat
        } else {
            Answer::Unsat
        }
    }

    /// Sets a literal that is not set.
    pub fn assume(&mut self, literal: PLit)
        requires within { literal.var < self.old.vars }
        requires unset { set_value self.old.values literal.var ≡ None }
        ensures { self.new ≡ record self.old {
          values = slice_set self.old.values literal.var (Some literal.plus);
        } }
    {
        if self.solved {
            unreachable!()
        }
        self.assumed.push(Entry {
            literal,
            decided: true,
        });
    }

    /// The value of a variable, where it is set: by the assignment, or because it was assumed or
    /// follows from that.
    pub fn set_value(&self, var: u32) -> Option<bool>
        requires { var < self.now.vars }
        ensures { result ≡ set_value self.now.values var }
    {
        if self.solved {
            self.learner.value(var)
        } else {
            self.assumed.value(var)
        }
    }

    /// Sets what follows from the clauses alone, until none of them has one literal left, or one
    /// has none.
    pub fn propagate(&mut self) -> Prop
        ensures end { IsPropagated self.new.values self.new.clauses result }
        ensures follows { Follow self.old.clauses self.old.values self.new.values }
        ensures stay { Stay self.old.values self.new.values }
        ensures kept { self.new ≡ record self.old { values = self.new.values } }
    {
        if self.solved {
            return Prop::Quiet;
        }
        self.learner.look_anew(!self.assuming);
        self.assuming = true;
        match self.learner.propagate(&mut self.assumed) {
            None => Prop::Quiet,
            Some(place) => Prop::Clash(place as u32),
        }
    }

    /// Takes all values back.
    pub fn restart(&mut self)
        ensures unset { self.new.assignment ≡ None }
        ensures no_value { self.new.values ≡ replicate self.old.vars None }
        ensures nothing { T.literals self.new.theory ≡ [] }
        ensures clauses { self.new.clauses ≡ self.old.clauses }
        ensures kept { SameTerms T.capacity T.takes T.models self.old self.new }
    {
        self.learner.restart();
        self.learner.look_anew(true);
        self.assumed.clear();
        self.assuming = false;
        self.solved = false;
    }

    /// The value of a literal under the assignment.
    pub fn value_of(&self, literal: PLit) -> bool
        requires solved { IsSome self.now.assignment }
        requires within { literal.var < self.now.vars }
        ensures { IfSome self.now.assignment (λ assignment. result
            ≡ literal_value assignment literal) }
    {
        let value = self.learner.value(literal.var).unwrap_or(false);
        literal.value_by(value)
    }

    /// The theory. While there is an assignment it has that one's theory literals, and a model.
    pub fn theory(&self) -> &T
        ensures { result.now ≡ self.now.theory }
    {
        self.learner.theory()
    }
}
