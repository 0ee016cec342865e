//! The arena.

ghost use Rattle.std.specs.Prelude.{◌≡◌, ℕ, ◌<◌, ◌≤◌, [], length, slice_get, IfOk, OnErr};
ghost use Rattle.form_formula.specs.Nodes.{trees_of, tree_of, tree_from, ArePlaced, IsPlaced};
ghost use Rattle.form_formula.specs.Nodes.{IsBelow};
ghost use Rattle.form_formula.specs.Added.{IsAdded};
ghost use Rattle.form_formula.specs.declared.limits.TheConstants.{MOST_ARENA_NODES};

use crate::node::Node;
use indexmap::IndexSet;
use std::alloc::{AllocError, Global};
use std::marker::Model;

/// Numbered nodes, each after its parts. Equal nodes are one. Contracts see the list of the nodes.
#[derive(Drop)]
pub struct Arena {
    nodes: IndexSet<Node>,
}

impl Model for Arena {
    ghost use Rattle.std.specs.Prelude.{◌≤◌, List, length};
    ghost use Rattle.form_formula.specs.declared.node.Node.{Node};
    ghost use Rattle.form_formula.specs.Nodes.{ArePlaced};
    ghost use Rattle.form_formula.specs.declared.limits.TheConstants.{MOST_ARENA_NODES};

    ghost Value = { List Node };

    ghost view = { λ a. a.nodes.keys };

    ghost invariant = { λ a. ArePlaced a.nodes.keys × (length a.nodes.keys ≤ MOST_ARENA_NODES) };
}

impl Arena {
    /// An arena without nodes.
    pub fn new(alloc: Global) -> Result<Arena, AllocError>
        ensures { IfOk result (λ arena. arena ≡ []) }
    {
        Ok(Arena {
            nodes: IndexSet::new(alloc),
        })
    }

    /// How many nodes there are.
    pub fn len(&self) -> usize
        ensures len { result ≡ length self.now }
        ensures most { result ≤ MOST_ARENA_NODES }
        ensures placed { ArePlaced self.now }
    {
        self.nodes.len()
    }

    /// The node of a number.
    pub fn node(&self, id: u32) -> &Node
        requires { id < length self.now }
        ensures node { slice_get self.now id ≡ Some result.now }
        ensures placed { IsPlaced self.now result.now }
        ensures below { IsBelow id result.now }
        ensures means { tree_of self.now id ≡ tree_from (trees_of self.now) result.now }
    {
        &self.nodes.as_slice()[id as usize]
    }

    /// The allocator that the nodes are kept by.
    pub(crate) fn allocator(&self) -> Global {
        *self.nodes.allocator()
    }

    /// The number of the node, which is added if there is none equal to it.
    pub(crate) fn add(&mut self, node: Node) -> Result<u32, AllocError>
        requires room { length self.old < MOST_ARENA_NODES }
        requires placed { IsPlaced self.old node }
        ensures made { IfOk result (IsAdded self.old node self.new) }
        ensures err { OnErr result (self.new ≡ self.old) }
    {
        let (place, _) = self.nodes.insert_full(node)?;
        Ok(place as u32)
    }
}
