//! The state of the search.

use crate::marks::{Leveled, Marks};
use crate::nodes::Nodes;
use crate::order::Order;
use crate::trail::Trail;
use crate::watches::Watches;
use certify_clauses::{Atom, Clauses, ListedClauses, Literal};
use solve_theory::Theory;
use sqlite_items::Items;
use std::alloc::{AllocError, Global};

/// Why a literal holds.
#[derive(Drop)]
pub(crate) enum Why {
    /// It was decided.
    Decided,
    /// All other literals of this clause are false.
    Clause(u32),
    /// This part of a tree shows that it cannot be false while these literals hold.
    Shown { node: u32, by: Vec<Leveled> },
}

/// Why a literal holds, and after how many decisions.
#[derive(Drop)]
pub(crate) struct Reason {
    pub(crate) why: Why,
    pub(crate) level: u32,
}

/// A search for a tree.
#[derive(Drop)]
pub(crate) struct Search<'a, T: Theory<Lit = Atom, Model = (Items<u32>, Items<i64>)>> {
    pub(crate) alloc: Global,
    pub(crate) c: &'a ListedClauses,
    pub(crate) trail: Trail<'a, T>,
    /// Why each literal of the trail holds.
    pub(crate) reasons: Vec<Reason>,
    /// Of each variable with a value, how many decisions came before.
    pub(crate) levels: Vec<u32>,
    /// How many decisions hold.
    pub(crate) level: u32,
    /// From how many literals it was seen what follows.
    pub(crate) seen: usize,
    pub(crate) watches: Watches,
    pub(crate) order: Order,
    pub(crate) marks: Marks,
    pub(crate) nodes: Nodes,
}

impl<'a, T: Theory<Lit = Atom, Model = (Items<u32>, Items<i64>)> + Drop> Search<'a, T> {
    /// A search in which nothing is set.
    pub(crate) fn new(
        alloc: Global,
        c: &'a ListedClauses,
        trail: Trail<'a, T>,
    ) -> Result<Search<'a, T>, AllocError> {
        let vars = c.atoms.len();
        Ok(Search {
            alloc,
            c,
            trail,
            reasons: Vec::new(alloc),
            levels: vec![in alloc; 0; vars]?,
            level: 0,
            seen: 0,
            watches: Watches::new(alloc, c.clauses.len(), c.vars())?,
            order: Order::new(alloc, c)?,
            marks: Marks::new(alloc, vars)?,
            nodes: Nodes::new(alloc),
        })
    }
}

impl<'a, T: Theory<Lit = Atom, Model = (Items<u32>, Items<i64>)>> Search<'a, T> {
    /// Sets a literal.
    pub(crate) fn set(&mut self, literal: Literal, why: Why) -> Result<(), AllocError> {
        if !self.trail.set(literal)? {
            return Ok(());
        }
        let level = self.level;
        if let Some(own) = self.levels.get_mut(literal.var as usize) {
            *own = level;
        }
        self.reasons.push(Reason { why, level })?;
        Ok(())
    }

    /// Takes the latest literal back.
    pub(crate) fn take_back(&mut self) -> Result<Option<(Literal, Reason)>, AllocError> {
        let Some(literal) = self.trail.take_back() else {
            return Ok(None);
        };
        self.order.put_back(literal)?;
        if self.seen > self.trail.len() {
            self.seen = self.trail.len();
        }
        match self.reasons.pop() {
            None => Ok(None),
            Some(reason) => Ok(Some((literal, reason))),
        }
    }

    /// The literal with its level.
    pub(crate) fn leveled(&self, literal: Literal) -> Leveled {
        let level = match self.levels.get(literal.var as usize) {
            None => 0,
            Some(level) => *level,
        };
        Leveled { literal, level }
    }

    /// Takes literals back until so many decisions hold.
    pub(crate) fn return_to(&mut self, level: u32) -> Result<(), AllocError> {
        for _ in 0..self.trail.len() {
            match self.reasons.last() {
                Some(reason) if reason.level > level => {
                    let _taken = self.take_back()?;
                }
                Some(_) | None => break,
            }
        }
        self.level = level;
        Ok(())
    }
}
