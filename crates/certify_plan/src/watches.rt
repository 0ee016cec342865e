//! The clauses that are looked at where a literal becomes false.
//!
//! Two literals of each clause are watched, as in Moskewicz et al. 2001: while neither is false,
//! nothing follows from the clause.

use certify_clauses::Literal;
use std::alloc::{AllocError, Global};

/// The place of a literal in lists by literals.
fn place_of(literal: Literal) -> usize {
    2 * literal.var as usize + literal.plus as usize
}

/// The literals of clauses that are watched.
#[derive(Drop)]
pub(crate) struct Watches {
    /// Of each clause two literals.
    watched: Vec<Option<(Literal, Literal)>>,
    /// Of each literal the clauses in which it is watched.
    clauses: Vec<Vec<u32>>,
}

impl Watches {
    /// No literal of so many clauses over so many variables.
    pub(crate) fn new(alloc: Global, clauses: usize, vars: u32) -> Result<Watches, AllocError> {
        let watched = vec![in alloc; None; clauses]?;
        let mut lists = Vec::with_capacity(alloc, 2 * vars as usize)?;
        for _ in 0..2 * vars as usize {
            lists.push(Vec::new(alloc))?;
        }
        Ok(Watches {
            watched,
            clauses: lists,
        })
    }

    /// How many clauses watch a literal.
    pub(crate) fn count_of(&self, literal: Literal) -> usize {
        match self.clauses.get(place_of(literal)) {
            None => 0,
            Some(list) => list.len(),
        }
    }

    /// The clause at a place among those that watch a literal.
    pub(crate) fn clause_at(&self, literal: Literal, place: usize) -> Option<u32> {
        let list = self.clauses.get(place_of(literal))?;
        match list.get(place) {
            None => None,
            Some(number) => Some(*number),
        }
    }

    /// The literal that a clause watches beside one.
    pub(crate) fn other(&self, number: u32, literal: Literal) -> Option<Literal> {
        match self.watched.get(number as usize) {
            Some(Some((first, second))) => {
                if *first == literal {
                    Some(*second)
                } else {
                    Some(*first)
                }
            }
            Some(None) | None => None,
        }
    }

    /// Watches a clause at a literal.
    fn add(&mut self, number: u32, literal: Literal) -> Result<(), AllocError> {
        if let Some(list) = self.clauses.get_mut(place_of(literal)) {
            list.push(number)?;
        }
        Ok(())
    }

    /// Watches a clause at two literals.
    pub(crate) fn watch(
        &mut self,
        number: u32,
        first: Literal,
        second: Literal,
    ) -> Result<(), AllocError> {
        if let Some(pair) = self.watched.get_mut(number as usize) {
            *pair = Some((first, second));
        }
        self.add(number, first)?;
        self.add(number, second)
    }

    /// Watches the clause at a place among those that watch one literal at another one, beside the
    /// other that it watches. The last of these clauses takes its place.
    pub(crate) fn move_to(
        &mut self,
        from: Literal,
        place: usize,
        other: Literal,
        to: Literal,
    ) -> Result<(), AllocError> {
        let Some(list) = self.clauses.get_mut(place_of(from)) else {
            return Ok(());
        };
        if place >= list.len() {
            return Ok(());
        }
        let number = list.swap_remove(place);
        if let Some(pair) = self.watched.get_mut(number as usize) {
            *pair = Some((other, to));
        }
        self.add(number, to)
    }
}
