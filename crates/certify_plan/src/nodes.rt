//! The parts of trees.

use certify_clauses::Literal;
use std::alloc::{AllocError, Global};

/// A part of a tree of splits.
#[derive(Clone, Copy)]
pub(crate) enum Node {
    /// A split, with the part where the variable is true and the one where it is false.
    Split { var: u32, so: u32, not_so: u32 },
    /// The clause of this number, which is false.
    Clause(u32),
    /// What the atoms say has no model.
    Theory,
}

/// Parts of trees, each behind those that it has.
#[derive(Drop)]
pub(crate) struct Nodes {
    nodes: Vec<Node>,
}

impl Nodes {
    /// No parts.
    pub(crate) fn new(alloc: Global) -> Nodes {
        Nodes {
            nodes: Vec::new(alloc),
        }
    }

    /// How many parts there are.
    pub(crate) fn len(&self) -> usize {
        self.nodes.len()
    }

    /// The part of a number.
    pub(crate) fn at(&self, number: u32) -> Option<Node> {
        match self.nodes.get(number as usize) {
            None => None,
            Some(node) => Some(*node),
        }
    }

    /// Puts a part behind the others, and gives its number. Four thousand million count as memory
    /// that is not there.
    pub(crate) fn add(&mut self, node: Node) -> Result<u32, AllocError> {
        let Ok(number) = u32::try_from(self.nodes.len()) else {
            return Err(AllocError);
        };
        self.nodes.push(node)?;
        Ok(number)
    }

    /// Puts a split behind the others: the first part is that where the literal holds.
    pub(crate) fn split(
        &mut self,
        literal: Literal,
        holds: u32,
        fails: u32,
    ) -> Result<u32, AllocError> {
        let (so, not_so) = if literal.plus {
            (holds, fails)
        } else {
            (fails, holds)
        };
        let var = literal.var;
        self.add(Node::Split { var, so, not_so })
    }
}
