//! Lists of nodes.
ghost use Rattle.std.specs.Prelude.{◌≡◌, ◌<◌, ◌^◌, [], true, false, length, replicate, IfOk};
ghost use Rattle.std.specs.Prelude.{IfSome, Some, None, nat_lt, if◌then◌else◌};
ghost use Rattle.std.specs.List.{slice_get};
ghost use Rattle.link_arena.specs.Lists.{EachOnce, list_at, is_linked, pushed, unlinked, next_of};

use crate::links::Links;
use std::alloc::{AllocError, Global};
use std::marker::Model;

/// Lists of nodes, each node in at most one of them.
#[derive(Drop)]
pub struct Rings {
    nodes: usize,
    lists: usize,
    links: Links,
}

impl Model for Rings {
    ghost use Rattle.link_arena.specs.Lists.{Lists};
    ghost use Rattle.link_arena.specs.Rings.{rings, AreSound};

    ghost Value = { Lists };

    ghost view = { λ r. record { nodes = r.nodes; lists = rings r.lists r.nodes r.links r.nodes } };

    ghost invariant = { λ r. AreSound r.nodes r.lists r.links };
}

impl Rings {
    /// Empty lists, as many as `lists`, for nodes below `nodes`. Takes all the memory there will
    /// be: 8 bytes for each node and each list, which together are fewer than 2^32, else there is
    /// no memory.
    pub fn new(alloc: Global, lists: usize, nodes: usize) -> Result<Rings, AllocError>
        requires lists_fit { lists < 2 ^ 32 }
        requires nodes_fit { nodes < 2 ^ 32 }
        ensures { IfOk result (λ rings. rings
            ≡ record { nodes = nodes; lists = replicate lists [] }) }
    {
        Ok(Rings {
            nodes,
            lists,
            links: Links::alone(alloc, nodes + lists)?,
        })
    }

    /// How many lists there are.
    pub fn lists(&self) -> usize
        ensures { result ≡ length self.now.lists }
    {
        self.lists
    }

    /// How many nodes there are, in lists or in none.
    pub fn nodes(&self) -> usize
        ensures { result ≡ self.now.nodes }
    {
        self.nodes
    }

    /// Whether the node is in a list.
    pub fn is_linked(&self, node: u32) -> bool
        requires { node < self.now.nodes }
        ensures { result ≡ is_linked node self.now.lists }
    {
        self.links.next(node as usize) != node as usize
    }

    /// The first node of the list, or `None` where the list is empty.
    pub fn first(&self, list: u32) -> Option<u32>
        requires { list < length self.now.lists }
        ensures first { result ≡ slice_get (list_at self.now.lists list) 0 }
        ensures below { IfSome result (λ node. node < self.now.nodes) }
        ensures each_once { EachOnce self.now.lists }
    {
        node_at(self.links.next(self.nodes + list as usize), self.nodes)
    }

    /// The node behind this one in its list, or `None` where it is the last.
    pub fn next(&self, node: u32) -> Option<u32>
        requires node_in { node < self.now.nodes }
        requires linked { is_linked node self.now.lists ≡ true }
        ensures next { result ≡ next_of node self.now.lists }
        ensures below { IfSome result (λ node. node < self.now.nodes) }
        ensures each_once { EachOnce self.now.lists }
    {
        node_at(self.links.next(node as usize), self.nodes)
    }

    /// Puts a node that is in no list at the end of one.
    pub fn push_back(&mut self, list: u32, node: u32)
        requires list_in { list < length self.old.lists }
        requires node_in { node < self.old.nodes }
        requires unlinked { is_linked node self.old.lists ≡ false }
        ensures { self.new ≡ record self.old { lists = pushed list node self.old.lists } }
    {
        let last = self.links.prev(self.nodes + list as usize);
        self.links.exchange(last, node as usize);
    }

    /// Takes a node out of its list.
    pub fn unlink(&mut self, node: u32)
        requires node_in { node < self.old.nodes }
        requires linked { is_linked node self.old.lists ≡ true }
        ensures { self.new ≡ record self.old { lists = unlinked node self.old.lists } }
    {
        let before = self.links.prev(node as usize);
        self.links.exchange(before, node as usize);
    }

    /// Takes a node out of its list and puts it at the end of a list, which may be the same.
    pub fn move_to(&mut self, list: u32, node: u32)
        requires list_in { list < length self.old.lists }
        requires node_in { node < self.old.nodes }
        requires linked { is_linked node self.old.lists ≡ true }
        ensures { self.new
            ≡ record self.old { lists = pushed list node (unlinked node self.old.lists) } }
    {
        self.unlink(node);
        self.push_back(list, node);
    }
}

/// The node of this number, unless it is the number of a list.
fn node_at(at: usize, nodes: usize) -> Option<u32>
    requires { nodes < 2 ^ 32 }
    ensures { result ≡ (if nat_lt at nodes then Some at else None) }
{
    if at < nodes { Some(at as u32) } else { None }
}
