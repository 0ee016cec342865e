//! The arena.

ghost use Rattle.std.specs.Prelude.{◌≡◌, ◌<◌, ◌^◌, [], length, slice_get, Some, IfOk, OnErr};
ghost use Rattle.ground_terms.specs.Nodes.{trees_of, tree_of, tree_from, ArePlaced, AreOnce};
ghost use Rattle.ground_terms.specs.Nodes.{IsPlaced, IsBelow, IsAdded};

use crate::node::TermNode;
use indexmap::IndexSet;
use std::alloc::{AllocError, Global};
use std::marker::Model;

/// Numbered nodes, each after its parts. Equal nodes are one. Contracts see the list of the nodes.
#[derive(Drop)]
pub struct TermArena {
    nodes: IndexSet<TermNode>,
}

impl Model for TermArena {
    ghost use Rattle.std.specs.Prelude.{◌<◌, ◌^◌, List, length};
    ghost use Rattle.ground_terms.specs.declared.node.TermNode.{TermNode};
    ghost use Rattle.ground_terms.specs.Nodes.{ArePlaced, AreOnce};

    ghost Value = { List TermNode };

    ghost view = { λ a. a.nodes.keys };

    ghost invariant = { λ a. ArePlaced a.nodes.keys × (length a.nodes.keys < 2 ^ 32)
        × AreOnce a.nodes.keys };
}

impl TermArena {
    /// An arena without nodes.
    pub fn new(alloc: Global) -> Result<TermArena, AllocError>
        ensures { IfOk result (λ arena. arena ≡ []) }
    {
        Ok(TermArena {
            nodes: IndexSet::new(alloc),
        })
    }

    /// How many nodes there are.
    pub fn len(&self) -> usize
        ensures len { result ≡ length self.now }
        ensures few { result < 2 ^ 32 }
        ensures placed { ArePlaced self.now }
        ensures once { AreOnce self.now }
    {
        self.nodes.len()
    }

    /// The node of a number.
    pub fn node(&self, id: u32) -> TermNode
        requires { id < length self.now }
        ensures node { slice_get self.now id ≡ Some result }
        ensures placed { IsPlaced self.now result }
        ensures below { IsBelow id result }
        ensures means { tree_of self.now id ≡ tree_from (trees_of self.now) result }
    {
        self.nodes.as_slice()[id as usize]
    }

    /// The allocator that the nodes are kept by.
    pub fn allocator(&self) -> Global {
        *self.nodes.allocator()
    }

    /// The number of the node, which is added if there is none equal to it. Four thousand million
    /// nodes count as memory that is not there.
    pub fn add(&mut self, node: TermNode) -> Result<u32, AllocError>
        requires { IsPlaced self.old node }
        ensures made { IfOk result (IsAdded self.old node self.new) }
        ensures err { OnErr result (self.new ≡ self.old) }
    {
        if self.nodes.len() >= u32::MAX as usize {
            return Err(AllocError);
        }
        let (place, _) = self.nodes.insert_full(node)?;
        Ok(place as u32)
    }
}
