//! Gates of instances, from those of their parts.

ghost use Rattle.std.specs.Prelude.{◌≡◌, ◌<◌, ◌+◌, length, IfOk};
ghost use Rattle.form_formula.specs.Nodes.{IsFormula, formula_of};
ghost use Rattle.ground_terms.specs.Standing.{AreOnes};
ghost use Rattle.ground_instances.specs.Instances.{IsGate, IsReady, part_test};

use crate::board::Board;
use crate::instance::{Above, Instance, instance_of};
use crate::leaves::make_leaf;
use crate::memo::Memo;
use crate::shapes::Shape;
use form_formula::{Arena, Node, Signature};
use std::alloc::{AllocError, Global};

/// What instances are made of.
#[derive(Clone, Copy)]
pub(crate) struct Source<'a> {
    pub(crate) arena: &'a Arena,
    pub(crate) signature: &'a Signature,
    /// The shapes of the nodes.
    pub(crate) shapes: &'a [Shape],
    /// The ground terms over which `forall`s range.
    pub(crate) listed: &'a [u32],
}

/// Gates that were made, and instances whose gates are wanted first.
#[derive(Drop)]
pub(crate) struct Work {
    pub(crate) board: Board,
    pub(crate) memo: Memo,
    pub(crate) missing: Vec<Instance>,
}

/// A number that so many quantifiers are passed.
pub(crate) fn number_after(number: u32, quantifiers: u32) -> Result<u32, AllocError>
    ensures { IfOk result (λ later. later ≡ number + quantifiers) }
{
    match number.checked_add(quantifiers) {
        None => Err(AllocError),
        Some(later) => Ok(later),
    }
}

impl Work {
    /// The gate of a part: an atom's at once, and that of another part if it was made; else the
    /// part's instance is missing.
    pub(crate) fn seek(
        &mut self,
        alloc: Global,
        source: Source<'_>,
        node: u32,
        above: Above<'_>,
    ) -> Result<Option<u32>, AllocError>
        requires part { IsFormula source.arena.now node }
        requires within { node < length source.shapes.now }
        requires variables { AreOnes self.old.board.terms above.variables.now }
        requires arguments { AreOnes self.old.board.terms above.arguments.now }
        requires ready { IsReady source.signature.now source.arena.now source.shapes.now
            source.listed.now self.old }
        ensures { IfOk result (IsGate source.entry.signature.now source.entry.arena.now
            source.entry.shapes.now source.entry.listed.now self.old self.new
            (part_test source.entry.signature.now self.old.board.terms source.entry.listed.now
            above.entry.number above.entry.variables.now above.entry.arguments.now
            (formula_of source.entry.arena.now node))) }
    {
        match source.arena.node(node) {
            Node::And(..) | Node::Or(..) | Node::Exists(..) | Node::Forall(..) => {
                let gate = self.seek_made(alloc, source, node, above)?;
                Ok(gate)
            }
            _ => {
                let gate = make_leaf(alloc, source, self, node, above)?;
                Ok(gate)
            }
        }
    }

    /// The gate of a part, if it was made; else the part's instance is missing.
    fn seek_made(
        &mut self,
        alloc: Global,
        source: Source<'_>,
        node: u32,
        above: Above<'_>,
    ) -> Result<Option<u32>, AllocError>
        requires part { IsFormula source.arena.now node }
        requires within { node < length source.shapes.now }
        requires variables { AreOnes self.old.board.terms above.variables.now }
        requires arguments { AreOnes self.old.board.terms above.arguments.now }
        requires ready { IsReady source.signature.now source.arena.now source.shapes.now
            source.listed.now self.old }
        ensures { IfOk result (IsGate source.entry.signature.now source.entry.arena.now
            source.entry.shapes.now source.entry.listed.now self.old self.new
            (part_test source.entry.signature.now self.old.board.terms source.entry.listed.now
            above.entry.number above.entry.variables.now above.entry.arguments.now
            (formula_of source.entry.arena.now node))) }
    {
        let shape = source.shapes[node as usize];
        let instance = instance_of(alloc, &mut self.board.terms, shape, node, above)?;
        match self.memo.find(instance) {
            Some(gate) => Ok(Some(gate)),
            None => {
                self.missing.push(instance)?;
                Ok(None)
            }
        }
    }
}
