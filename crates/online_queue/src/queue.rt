//! The queue.

ghost use Rattle.std.specs.Prelude.{◌≡◌, ◌<◌, ◌^◌, ℕ, List, [], Option, None, Some, true, false, is_some, map, take, drop, length, replicate, IfOk, IfSome, OnErr, slice_set, if◌then◌else◌};
ghost use Rattle.std.specs.List.{All};
ghost use Rattle.std.specs.Option.{option_map_or};
ghost use Rattle.online_queue.specs.Records.{same_record};
ghost use Rattle.online_queue.specs.Sound.{Apart, Takes};
ghost use Rattle.online_queue.specs.Waiting.{is_waiting, name_at, taken_out, to_end};

use crate::records::RecordId;
use link_arena::Rings;
use std::alloc::{AllocError, Global};
use std::marker::Model;

/// The one list of the rings.
const QUEUE: u32 = 0;

/// Whether the record at a node is this one.
fn is_of(at: &Option<RecordId>, name: RecordId) -> bool
    ensures { result ≡ option_map_or (same_record name) at.now false }
{
    match at {
        Some(r) => name.model == r.model && name.id == r.id,
        None => false,
    }
}

/// The node of the record, or a free one where it has none.
fn node_for(names: &[Option<RecordId>], name: RecordId) -> Option<usize>
    requires { Apart names.now }
    ensures { IfSome result (Takes names.now name) }
{
    match names.iter().position(|at| is_of(at, name)) {
        Some(node) => Some(node),
        None => names.iter().position(|at| at.is_none()),
    }
}

/// Records at nodes, some of them in a queue. Contracts see the record of each node, and the queue
/// (`Waiting`). A record is at one node at most.
#[derive(Drop)]
pub struct Queue {
    rings: Rings,
    names: Vec<Option<RecordId>>,
    waiting: usize,
}

impl Model for Queue {
    ghost use Rattle.link_arena.specs.Lists.{list_at};
    ghost use Rattle.online_queue.specs.Waiting.{Waiting};
    ghost use Rattle.online_queue.specs.Sound.{IsSound, names_of};

    ghost Value = { Waiting };

    ghost view = { λ q. record {
      names = q.names.items;
      queue = names_of q.names.items (list_at q.rings.lists 0);
    } };

    ghost invariant = { λ q. IsSound q.rings q.names.items q.waiting };
}

impl Queue {
    /// An empty queue, with so many nodes, which are for no records yet.
    pub fn new(alloc: Global, nodes: usize) -> Result<Queue, AllocError>
        requires { nodes < 2 ^ 32 }
        ensures { IfOk result (λ q. q ≡ record { names = replicate nodes None; queue = [] }) }
    {
        let mut names = Vec::new(alloc);
        for _node in 0..nodes {
            names.push(None)?;
        }
        Ok(Queue {
            rings: Rings::new(alloc, 1, nodes)?,
            names,
            waiting: 0,
        })
    }

    /// How many records wait.
    pub fn len(&self) -> usize
        ensures { result ≡ length self.now.queue }
    {
        self.waiting
    }

    /// A node for the record: its own, or a free one where it has none. That none is free counts as
    /// memory that is not there.
    pub fn take(&mut self, name: RecordId) -> Result<u32, AllocError>
        ensures ok { IfOk result (λ node. self.new
            ≡ record self.old { names = slice_set self.old.names node (Some name) }) }
        ensures node { IfOk result (Takes self.old.names name) }
        ensures err { OnErr result (self.new ≡ self.old) }
    {
        let Some(node) = node_for(self.names.as_slice(), name) else {
            return Err(AllocError);
        };
        self.names[node] = Some(name);
        Ok(node as u32)
    }

    /// Whether the record at the node waits.
    pub fn has(&self, node: u32) -> bool
        requires { node < length self.now.names }
        ensures { result ≡ is_waiting self.now node }
    {
        self.rings.is_linked(node)
    }

    /// The record at the node goes to the end of the queue.
    pub fn mark(&mut self, node: u32)
        requires { is_some (name_at self.old.names node) ≡ true }
        ensures { (r : RecordId) → name_at self.old.names node ≡ Some r →
            self.new ≡ to_end r self.old }
    {
        // its clause tells that each node is linked once
        let _first = self.rings.first(QUEUE);
        if self.rings.is_linked(node) {
            self.rings.move_to(QUEUE, node);
        } else {
            self.rings.push_back(QUEUE, node);
            self.waiting += 1;
        }
    }

    /// The record at the node waits no more.
    pub fn unmark(&mut self, node: u32)
        requires { is_some (name_at self.old.names node) ≡ true }
        ensures { (r : RecordId) → name_at self.old.names node ≡ Some r →
            self.new ≡ taken_out r self.old }
    {
        // its clause tells that each node is linked once
        let _first = self.rings.first(QUEUE);
        if self.rings.is_linked(node) {
            self.rings.unlink(node);
            self.waiting -= 1;
        }
    }

    /// The record at the node waits no more, and the node is free.
    pub fn free(&mut self, node: u32)
        requires { is_some (name_at self.old.names node) ≡ true }
        ensures { (r : RecordId) → name_at self.old.names node ≡ Some r →
            self.new ≡ record (taken_out r self.old)
            { names = slice_set self.old.names node None } }
    {
        self.unmark(node);
        self.names[node as usize] = None;
    }

    /// The nodes of the first records, so many at most.
    pub fn first_nodes(&self, alloc: Global, most: u32) -> Result<Vec<u32>, AllocError>
        ensures { IfOk result (λ nodes. map (name_at self.now.names) nodes.items
            ≡ map Some (take most self.now.queue)) }
    {
        let mut nodes = Vec::new(alloc);
        let mut next = self.rings.first(QUEUE);
        for _turn in 0..most {
            let Some(node) = next else {
                return Ok(nodes);
            };
            nodes.push(node)?;
            next = self.rings.next(node);
        }
        Ok(nodes)
    }

    /// The first record, if there is one, waits no more.
    fn drop_one(&mut self)
        ensures { self.new ≡ record self.old { queue = drop 1 self.old.queue } }
    {
        if let Some(node) = self.rings.first(QUEUE) {
            self.rings.unlink(node);
            self.waiting -= 1;
        }
    }

    /// The first records, so many at most, wait no more.
    pub fn drop_first(&mut self, most: u32)
        ensures { self.new ≡ record self.old { queue = drop most self.old.queue } }
    {
        for _turn in 0..most {
            self.drop_one();
        }
    }
}
