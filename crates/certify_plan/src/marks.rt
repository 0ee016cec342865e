//! Literals that cannot hold together.

use certify_clauses::Literal;
use std::alloc::{AllocError, Global};

/// A literal that holds, and after how many decisions.
#[derive(Clone, Copy)]
pub(crate) struct Leveled {
    pub(crate) literal: Literal,
    pub(crate) level: u32,
}

/// Some literals that hold, and cannot hold together.
#[derive(Drop)]
pub(crate) struct Marks {
    /// Of each variable, whether its literal is one of them.
    marked: Vec<bool>,
    /// Those that were put here, of which some may have been taken.
    all: Vec<Leveled>,
    /// How many there are at each level.
    at_level: Vec<u32>,
}

impl Marks {
    /// None, over so many variables.
    pub(crate) fn new(alloc: Global, vars: usize) -> Result<Marks, AllocError> {
        Ok(Marks {
            marked: vec![in alloc; false; vars]?,
            all: Vec::new(alloc),
            at_level: vec![in alloc; 0; vars.saturating_add(1)]?,
        })
    }

    /// Whether a variable's literal is one of them.
    fn is_marked(&self, var: u32) -> bool {
        match self.marked.get(var as usize) {
            None => false,
            Some(marked) => *marked,
        }
    }

    /// Says whether a variable's literal is one of them.
    fn mark(&mut self, var: u32, is_marked: bool) {
        if let Some(marked) = self.marked.get_mut(var as usize) {
            *marked = is_marked;
        }
    }

    /// Says how many there are at a level, by how many there were.
    fn count<F: FnOnce(u32) -> u32>(&mut self, level: u32, change: F)
        requires { F.IsAlwaysCallable change }
    {
        if let Some(count) = self.at_level.get_mut(level as usize) {
            *count = change(*count);
        }
    }

    /// Puts a literal to the others, and says whether it is a new one.
    pub(crate) fn add(&mut self, marked: Leveled) -> Result<bool, AllocError> {
        if self.is_marked(marked.literal.var) {
            return Ok(false);
        }
        self.all.push(marked)?;
        self.mark(marked.literal.var, true);
        self.count(marked.level, |n| n.saturating_add(1));
        Ok(true)
    }

    /// Takes a literal, and says whether it was one of them.
    pub(crate) fn take(&mut self, marked: Leveled) -> bool {
        if !self.is_marked(marked.literal.var) {
            return false;
        }
        self.mark(marked.literal.var, false);
        self.count(marked.level, |n| n.saturating_sub(1));
        true
    }

    /// Whether there is none at a level.
    pub(crate) fn is_free(&self, level: u32) -> bool {
        match self.at_level.get(level as usize) {
            None => true,
            Some(count) => *count == 0,
        }
    }

    /// Takes all literals.
    pub(crate) fn take_all(&mut self, alloc: Global) -> Result<Vec<Leveled>, AllocError> {
        let mut rest = Vec::new(alloc);
        for place in 0..self.all.len() {
            let Some(marked) = self.all.get(place).copied() else {
                return Ok(rest);
            };
            if self.take(marked) {
                rest.push(marked)?;
            }
        }
        self.all.clear();
        Ok(rest)
    }
}
