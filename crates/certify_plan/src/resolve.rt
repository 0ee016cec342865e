//! What is learned where something cannot hold.

use crate::marks::Leveled;
use crate::nodes::Node;
use crate::search::{Search, Why};
use certify_clauses::{Atom, Literal};
use solve_theory::Theory;
use sqlite_items::Items;
use std::alloc::AllocError;

impl<'a, T: Theory<Lit = Atom, Model = (Items<u32>, Items<i64>)>> Search<'a, T> {
    /// Marks a literal that holds.
    fn mark(&mut self, marked: Leveled) -> Result<(), AllocError> {
        if self.marks.add(marked)? {
            self.order.touch(marked.literal.var);
        }
        Ok(())
    }

    /// Marks what makes literals of a clause false, but those of one variable.
    fn mark_clause(&mut self, number: u32, beside: Option<u32>) -> Result<(), AllocError> {
        let Some(clause) = self.c.clauses.get(number as usize) else {
            return Ok(());
        };
        for literal in clause {
            if beside != Some(literal.var) {
                let marked = self.leveled(literal.opposite());
                self.mark(marked)?;
            }
        }
        Ok(())
    }

    /// Marks literals.
    fn mark_all(&mut self, marked: &[Leveled]) -> Result<(), AllocError> {
        for leveled in marked {
            self.mark(*leveled)?;
        }
        Ok(())
    }

    /// The part of a tree that shows that a literal cannot be false, whose reason is marked.
    fn shown(&mut self, literal: Literal, why: Why) -> Result<Option<u32>, AllocError> {
        match why {
            Why::Decided => Ok(None),
            Why::Clause(number) => {
                self.mark_clause(number, Some(literal.var))?;
                let node = self.nodes.add(Node::Clause(number))?;
                Ok(Some(node))
            }
            Why::Shown { node, by } => {
                self.mark_all(by.as_slice())?;
                Ok(Some(node))
            }
        }
    }

    /// Sets the opposite of a literal, which cannot hold while those that are marked do, as the
    /// part of a tree shows: after as few decisions as they hold.
    fn turn(&mut self, literal: Literal, node: u32) -> Result<(), AllocError> {
        let by = self.marks.take_all(self.alloc)?;
        let mut level = 0;
        for marked in &by {
            if marked.level > level {
                level = marked.level;
            }
        }
        self.return_to(level)?;
        self.set(literal.opposite(), Why::Shown { node, by })
    }

    /// Goes back from the marked literals, which cannot hold together, as the part of a tree shows:
    /// to what can be turned, or to a whole tree, which is given.
    fn go_back(&mut self, leaf: u32) -> Result<Option<u32>, AllocError> {
        let mut node = leaf;
        for _ in 0..self.trail.len() {
            let Some((literal, reason)) = self.take_back()? else {
                return Ok(Some(node));
            };
            let level = reason.level;
            if !self.marks.take(Leveled { literal, level }) {
                continue;
            }
            if level > 0 && self.marks.is_free(level) {
                self.turn(literal, node)?;
                return Ok(None);
            }
            let Some(other) = self.shown(literal, reason.why)? else {
                self.turn(literal, node)?;
                return Ok(None);
            };
            node = self.nodes.split(literal, node, other)?;
        }
        Ok(Some(node))
    }

    /// Learns from a clause that is false. Gives the whole tree where nothing can be turned.
    pub(crate) fn learn_clause(&mut self, number: u32) -> Result<Option<u32>, AllocError> {
        self.order.begin_conflict();
        self.mark_clause(number, None)?;
        let leaf = self.nodes.add(Node::Clause(number))?;
        self.go_back(leaf)
    }

    /// Learns from literals that have no model together. Gives the whole tree where nothing can be
    /// turned.
    pub(crate) fn learn_clash(&mut self, clash: &[Literal]) -> Result<Option<u32>, AllocError> {
        self.order.begin_conflict();
        for literal in clash {
            let marked = self.leveled(*literal);
            self.mark(marked)?;
        }
        let leaf = self.nodes.add(Node::Theory)?;
        self.go_back(leaf)
    }
}
