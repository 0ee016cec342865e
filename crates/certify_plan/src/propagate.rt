//! What follows from what holds.

use crate::search::{Search, Why};
use certify_clauses::{Atom, Literal};
use solve_theory::Theory;
use sqlite_items::Items;
use std::alloc::AllocError;

/// What a clause is, one of whose watched literals became false.
#[derive(Clone, Copy)]
enum Standing {
    /// A literal holds.
    Met,
    /// Another literal is not false, and can be watched.
    Open(Literal),
    /// This literal is the last one.
    Unit(Literal),
    /// All are false.
    False,
}

impl<'a, T: Theory<Lit = Atom, Model = (Items<u32>, Items<i64>)>> Search<'a, T> {
    /// A literal of a clause that is not false, apart from one.
    fn unfalse(&self, number: u32, beside: Literal) -> Option<Literal> {
        let clause = self.c.clauses.get(number as usize)?;
        for literal in clause {
            if *literal != beside && self.trail.value_of(*literal) != Some(false) {
                return Some(*literal);
            }
        }
        None
    }

    /// How a clause stands that watches another literal beside one that became false.
    fn standing(&self, number: u32, other: Literal) -> Standing {
        let value = self.trail.value_of(other);
        if value == Some(true) {
            return Standing::Met;
        }
        match self.unfalse(number, other) {
            Some(literal) => Standing::Open(literal),
            None if value.is_none() => Standing::Unit(other),
            None => Standing::False,
        }
    }

    /// Looks at the clauses that watch a literal that became false. Gives one that is false, if
    /// there is one.
    fn look(&mut self, literal: Literal) -> Result<Option<u32>, AllocError> {
        let mut place = 0_usize;
        for _ in 0..self.watches.count_of(literal) {
            let Some(number) = self.watches.clause_at(literal, place) else {
                return Ok(None);
            };
            let Some(other) = self.watches.other(number, literal) else {
                return Ok(None);
            };
            match self.standing(number, other) {
                Standing::Open(to) => self.watches.move_to(literal, place, other, to)?,
                Standing::Met => place = place.saturating_add(1),
                Standing::Unit(unit) => {
                    self.set(unit, Why::Clause(number))?;
                    place = place.saturating_add(1);
                }
                Standing::False => return Ok(Some(number)),
            }
        }
        Ok(None)
    }

    /// Sets what follows from the literals that hold. Gives a clause that is false, if there is
    /// one.
    pub(crate) fn propagate(&mut self) -> Result<Option<u32>, AllocError> {
        for _ in 0..self.c.atoms.len() {
            let Some(literal) = self.trail.at(self.seen) else {
                return Ok(None);
            };
            self.seen = self.seen.saturating_add(1);
            let found = self.look(literal.opposite())?;
            if found.is_some() {
                return Ok(found);
            }
        }
        Ok(None)
    }

    /// Watches a clause, or sets its literal where it has one alone. Gives whether it is false.
    fn begin_clause(&mut self, number: u32) -> Result<bool, AllocError> {
        let Some(clause) = self.c.clauses.get(number as usize) else {
            return Ok(false);
        };
        let Some(first) = clause.first() else {
            return Ok(true);
        };
        let first = *first;
        match clause.iter().find(|l| **l != first) {
            Some(second) => {
                let second = *second;
                self.watches.watch(number, first, second)?;
                Ok(false)
            }
            None => match self.trail.value_of(first) {
                Some(holds) => Ok(!holds),
                None => {
                    self.set(first, Why::Clause(number))?;
                    Ok(false)
                }
            },
        }
    }

    /// Watches all clauses. Gives one that is false, if there is one. Four thousand million count as
    /// memory that is not there.
    pub(crate) fn begin(&mut self) -> Result<Option<u32>, AllocError> {
        for place in 0..self.c.clauses.len() {
            let Ok(number) = u32::try_from(place) else {
                return Err(AllocError);
            };
            if self.begin_clause(number)? {
                return Ok(Some(number));
            }
        }
        Ok(None)
    }
}
