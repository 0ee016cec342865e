//! The literals that are true so far, and which of them were decided.

ghost use Rattle.std.specs.Prelude.{◌≡◌, ◌↔◌, ◌<◌, IsTrue, [], ◌∷◌, None, Some, true, length, reverse, IfOk, MatchOption};
ghost use Rattle.solve_solver.specs.Marks.{IsFreeLevel};
ghost use Rattle.solve_solver.specs.Trail.{value_in, literal_in};
ghost use Rattle.solve_solver.specs.Units.{IsFalseIn};

use crate::literal::PLit;
use std::alloc::{AllocError, Global};
use std::marker::Model;

/// A literal that is true so far, and whether it was decided. One that was not follows from what
/// was set before it.
#[derive(Clone, Copy)]
pub struct Entry {
    pub literal: PLit,
    pub decided: bool,
}

/// The literals that are true so far, in the order in which they were set, with room for each
/// variable. Contracts see the number of variables, and the entries with the latest first.
#[derive(Drop)]
pub struct Trail {
    values: Vec<Option<bool>>,
    entries: Vec<Entry>,
    /// Of each variable, after how many others it was set. No proof rests on it.
    places: Vec<usize>,
    /// How many literals were decided, on which none rests either.
    decisions: usize,
}

impl Model for Trail {
    ghost use Rattle.std.specs.Prelude.{vec_len, vec_capacity, reverse};
    ghost use Rattle.solve_solver.specs.Trail.{TrailView};

    ghost Value = { TrailView };

    ghost use Rattle.solve_solver.specs.TrailInside.{IsKept};

    ghost view = { λ t. record { vars = vec_len t.values; entries = reverse t.entries.items } };

    ghost invariant = { λ t. IsKept t.values.items (vec_capacity t.entries) (vec_len t.places)
        (reverse t.entries.items) };
}

impl Trail {
    /// A trail with nothing set. `vars` is the number of variables.
    pub fn new(alloc: Global, vars: u32) -> Result<Trail, AllocError>
        ensures { IfOk result (λ t. t ≡ record { vars = vars; entries = [] }) }
    {
        let values = vec![in alloc; None; vars as usize]?;
        let entries = Vec::with_capacity(alloc, vars as usize)?;
        Ok(Trail {
            values,
            entries,
            places: vec![in alloc; 0; vars as usize]?,
            decisions: 0,
        })
    }

    /// The value of a variable, where it is set.
    pub fn value(&self, var: u32) -> Option<bool>
        requires { var < self.now.vars }
        ensures { result ≡ value_in self.now.entries var }
    {
        self.values[var as usize]
    }

    /// The value of a literal, where its variable is set.
    pub fn literal_value(&self, literal: PLit) -> Option<bool>
        requires { literal.var < self.now.vars }
        ensures { result ≡ literal_in self.now.entries literal }
    {
        let value = self.value(literal.var)?;
        Some(literal.value_by(value))
    }

    /// Whether a literal is false.
    pub fn is_false(&self, literal: PLit) -> bool
        requires { literal.var < self.now.vars }
        ensures { IsTrue result ↔ IsFalseIn self.now.entries literal }
    {
        matches!(self.literal_value(literal), Some(false))
    }

    /// Whether a literal is true.
    pub fn is_true(&self, literal: PLit) -> bool
        requires { literal.var < self.now.vars }
        ensures { IsTrue result ↔ (literal_in self.now.entries literal ≡ Some true) }
    {
        matches!(self.literal_value(literal), Some(true))
    }

    /// How many literals are set.
    pub fn len(&self) -> usize
        ensures { result ≡ length self.now.entries }
    {
        self.entries.len()
    }

    /// After how many others a variable was set, where it is.
    pub fn place(&self, var: u32) -> usize
        requires { var < self.now.vars }
    {
        self.places[var as usize]
    }

    /// How many literals that are set were decided.
    pub fn decisions(&self) -> usize {
        self.decisions
    }

    /// The literal at a place, counted from the oldest on.
    pub fn entry(&self, place: usize) -> Entry
        requires { place < length self.now.entries }
        ensures { result.literal.var < self.now.vars }
    {
        self.entries[place]
    }

    /// The literals that are true so far, the oldest first.
    pub fn entries(&self) -> &[Entry]
        ensures { self.now.entries ≡ reverse result.now }
    {
        self.entries.as_slice()
    }

    /// Whether nothing is marked from the latest decision on.
    pub fn is_free_level(&self, marks: &[bool]) -> bool
        requires { length marks.now ≡ self.now.vars }
        ensures { IsTrue result ↔ IsFreeLevel marks.now self.now.entries }
    {
        let mut left = self.entries.len();
        while left > 0 {
            left -= 1;
            let entry = self.entries[left];
            if marks[entry.literal.var as usize] {
                return false;
            }
            if entry.decided {
                return true;
            }
        }
        false
    }

    /// Sets a variable.
    pub fn push(&mut self, entry: Entry)
        requires within { entry.literal.var < self.old.vars }
        requires unset { value_in self.old.entries entry.literal.var ≡ None }
        ensures vars { self.new.vars ≡ self.old.vars }
        ensures entries { self.new.entries ≡ entry ∷ self.old.entries }
        ensures room { length self.old.entries < self.old.vars }
    {
        self.values[entry.literal.var as usize] = Some(entry.literal.plus);
        self.places[entry.literal.var as usize] = self.entries.len();
        self.decisions = self.decisions.saturating_add(usize::from(entry.decided));
        match self.entries.push(entry) {
            Ok(()) => (),
            Err(_) => unreachable!(),
        }
    }

    /// Takes the latest literal back.
    pub fn pop(&mut self) -> Option<Entry>
        ensures vars { self.new.vars ≡ self.old.vars }
        ensures entries { MatchOption result ((self.old.entries ≡ []) × (self.new.entries ≡ []))
            (λ e. self.old.entries ≡ e ∷ self.new.entries) }
    {
        let entry = self.entries.pop()?;
        self.values[entry.literal.var as usize] = None;
        self.decisions = self.decisions.saturating_sub(usize::from(entry.decided));
        Some(entry)
    }

    /// Takes everything back.
    pub fn clear(&mut self)
        ensures vars { self.new.vars ≡ self.old.vars }
        ensures entries { self.new.entries ≡ [] }
    {
        while self.pop().is_some() {}
    }
}
