//! Clauses in one flat list.

ghost use Rattle.std.specs.Option.{option_map};
ghost use Rattle.solve_solver.specs.Clauses.{HasRoom};
ghost use Rattle.std.specs.Prelude.{◌≡◌, ◌↔◌, ◌<◌, ◌≤◌, ◌+◌, IsTrue, [], ◌∷◌, ◌++◌, length, IfOk, OnOk, OnErr, Some, slice_get, map};

use crate::literal::PLit;
use crate::room::{extend_within, push_within};
use std::alloc::{AllocError, Global};
use std::marker::Model;

/// Where the literals of a clause stand in the flat list: from `start` up to `end`.
#[derive(Clone, Copy)]
pub struct Span {
    pub start: usize,
    pub end: usize,
}

/// Clauses, whose literals stand one after another in one list. Contracts see the list of clauses,
/// how many literals it holds, and for how many literals and clauses there is memory.
#[derive(Drop)]
pub struct Clauses {
    literals: Vec<PLit>,
    spans: Vec<Span>,
}

impl Model for Clauses {
    ghost use Rattle.std.specs.Prelude.{vec_len, vec_capacity};
    ghost use Rattle.solve_solver.specs.Clauses.{ClausesView};

    ghost Value = { ClausesView };

    ghost use Rattle.solve_solver.specs.Clauses.{parts, IsInside};

    ghost view = { λ c. record {
      list = parts c.literals.items c.spans.items;
      held = vec_len c.literals;
      literal_room = vec_capacity c.literals;
      clause_room = vec_capacity c.spans;
    } };

    ghost invariant = { λ c. IsInside c.literals.items c.spans.items };
}

impl Clauses {
    /// No clauses.
    pub fn new(alloc: Global) -> Clauses
        ensures { result.list ≡ [] }
    {
        Clauses {
            literals: Vec::new(alloc),
            spans: Vec::new(alloc),
        }
    }

    /// These clauses.
    pub(crate) fn from_lists(alloc: Global, lists: &[Vec<PLit>]) -> Result<Clauses, AllocError>
        ensures { IfOk result (λ c. c.list ≡ map (λ list. list.items) lists.now) }
    {
        let mut clauses = Clauses::new(alloc);
        for list in lists {
            clauses.push(list.as_slice())?;
        }
        Ok(clauses)
    }

    /// How many clauses there are.
    pub fn len(&self) -> usize
        ensures { result ≡ length self.now.list }
    {
        self.spans.len()
    }

    /// The literals of the clause at a place.
    pub fn clause(&self, index: usize) -> &[PLit]
        requires { index < length self.now.list }
        ensures { slice_get self.now.list index ≡ Some result.now }
    {
        let span = self.spans[index];
        &self.literals.as_slice()[span.start..span.end]
    }

    /// The literals of the clause at a place, where there is one.
    pub(crate) fn get(&self, index: usize) -> Option<&[PLit]>
        ensures { option_map (λ clause. clause.now) result ≡ slice_get self.now.list index }
    {
        if index < self.spans.len() {
            Some(self.clause(index))
        } else {
            None
        }
    }

    /// No clauses, with room for so many with so many literals in all.
    pub(crate) fn with_room(
        alloc: Global,
        clauses: usize,
        literals: usize,
    ) -> Result<Clauses, AllocError>
        ensures { IfOk result (λ c. c ≡ record {
          list = [];
          held = 0;
          literal_room = literals;
          clause_room = clauses;
        }) }
    {
        let literals = Vec::with_capacity(alloc, literals)?;
        let spans = Vec::with_capacity(alloc, clauses)?;
        Ok(Clauses { literals, spans })
    }

    /// Puts a clause at the end. Where memory is wanted the clauses are as before.
    pub fn push(&mut self, clause: &[PLit]) -> Result<(), AllocError>
        ensures ok { OnOk result (self.new.list ≡ self.old.list ++ clause.now ∷ []) }
        ensures err { OnErr result (self.new.list ≡ self.old.list) }
    {
        let start = self.literals.len();
        self.literals.extend_from_slice(clause)?;
        let end = self.literals.len();
        self.spans.push(Span { start, end })?;
        Ok(())
    }

    /// Whether there is memory for one clause more of so many literals.
    pub(crate) fn has_room(&self, literals: usize) -> bool
        ensures { IsTrue result ↔ HasRoom self.now literals }
    {
        let held = self.literals.len();
        let room = self.literals.capacity();
        held <= room && literals <= room - held && self.spans.len() < self.spans.capacity()
    }

    /// Puts a clause at the end for which there is memory.
    pub(crate) fn push_within(&mut self, clause: &[PLit])
        requires { HasRoom self.old (length clause.now) }
        ensures list { self.new.list ≡ self.old.list ++ clause.now ∷ [] }
        ensures held { self.new.held ≡ self.old.held + length clause.now }
        ensures literal_room { self.old.literal_room ≤ self.new.literal_room }
        ensures clause_room { self.old.clause_room ≤ self.new.clause_room }
    {
        let start = self.literals.len();
        extend_within(&mut self.literals, clause);
        let end = self.literals.len();
        push_within(&mut self.spans, Span { start, end });
    }

    /// Takes all clauses out. Their memory stays.
    pub(crate) fn clear(&mut self)
        ensures list { self.new.list ≡ [] }
        ensures held { self.new.held ≡ 0 }
        ensures literal_room { self.new.literal_room ≡ self.old.literal_room }
        ensures clause_room { self.new.clause_room ≡ self.old.clause_room }
    {
        self.literals.clear();
        self.spans.clear();
    }
}
