//! Pairs of terms as the edges of a graph.
ghost use Rattle.std.specs.Prelude.{◌≡◌, ◌≢◌, true, ◌-◌, ◌<◌, ◌^◌, [], ◌∷◌, ◌++◌, length, take};
ghost use Rattle.std.specs.Prelude.{IfOk, IfSome};
ghost use Rattle.solve_equality.specs.Edges.{pair_at, mentions, IsNewestBelow, Joins};

use solve_theory::push_within;
use std::alloc::{AllocError, Global};
use std::marker::Model;

/// An edge, with the newest older edge at each of its ends.
#[derive(Clone, Copy)]
pub struct Edge {
    left: u32,
    right: u32,
    left_older: Option<u32>,
    right_older: Option<u32>,
}

/// Where an edge leads from one of its ends, and the newest older edge at that end.
#[derive(Clone, Copy)]
pub struct Hop {
    /// The other end.
    pub other: u32,
    /// The number of the older edge.
    pub older: Option<u32>,
}

/// Edges between terms, of which the last can be taken away.
///
/// They are numbered in the order in which they come, and a number may stand for no edge. The
/// edges at a term are gone through from the newest to the oldest.
#[derive(Drop)]
pub struct Edges {
    list: Vec<Option<Edge>>,
    newest: Vec<Option<u32>>,
    limit: usize,
}

impl Model for Edges {
    ghost use Rattle.std.specs.Prelude.{map, length, vec_capacity};
    ghost use Rattle.solve_equality.specs.Edges.{Graph};

    ghost Value = { Graph };

    ghost use Rattle.solve_equality.specs.EdgeList.{ends_of, IsSoundEdges};

    ghost view = { λ s. record {
      pairs = map ends_of s.list.items;
      terms = length s.newest.items;
      capacity = s.limit;
    } };

    ghost invariant = { λ s. IsSoundEdges s.list.items s.newest.items s.limit
        (vec_capacity s.list) };
}

impl Edges {
    /// No edges, between terms below `terms`, with room for `capacity` numbers.
    pub fn new(alloc: Global, terms: usize, capacity: usize) -> Result<Edges, AllocError>
        requires { capacity < 2 ^ 32 }
        ensures { IfOk result (λ s. s ≡ record { pairs = []; terms = terms; capacity = capacity }) }
    {
        let list = Vec::with_capacity(alloc, capacity)?;
        let newest = vec![in alloc; None; terms]?;
        Ok(Edges {
            list,
            newest,
            limit: capacity,
        })
    }

    /// Gives the next number to an edge between these ends, or to none.
    pub fn push(&mut self, ends: Option<(u32, u32)>)
        requires room { length self.old.pairs < self.old.capacity }
        requires within { IfSome ends (λ e. (e.0 < self.old.terms) × (e.1 < self.old.terms)) }
        requires apart { IfSome ends (λ e. e.0 ≢ e.1) }
        ensures { self.new ≡ record self.old { pairs = self.old.pairs ++ ends ∷ [] } }
    {
        match ends {
            None => push_within(&mut self.list, None),
            Some((left, right)) => {
                let number = self.list.len() as u32;
                let edge = Edge {
                    left,
                    right,
                    left_older: self.newest[left as usize],
                    right_older: self.newest[right as usize],
                };
                self.newest[left as usize] = Some(number);
                self.newest[right as usize] = Some(number);
                push_within(&mut self.list, Some(edge));
            }
        }
    }

    /// Takes the last number back.
    pub fn pop(&mut self)
        requires { 0 < length self.old.pairs }
        ensures { self.new
            ≡ record self.old { pairs = take (length self.old.pairs - 1) self.old.pairs } }
    {
        match self.list.pop() {
            None => (),
            Some(None) => (),
            Some(Some(edge)) => {
                self.newest[edge.left as usize] = edge.left_older;
                self.newest[edge.right as usize] = edge.right_older;
            }
        }
    }

    /// The newest edge at a term.
    pub fn newest(&self, term: u32) -> Option<u32>
        requires { term < self.now.terms }
        ensures { IsNewestBelow self.now.pairs term (length self.now.pairs) result }
    {
        self.newest[term as usize]
    }

    /// Where an edge leads from one of its ends.
    pub fn hop(&self, edge: u32, term: u32) -> Hop
        requires within { edge < length self.now.pairs }
        requires at_end { mentions term (pair_at self.now.pairs edge) ≡ true }
        ensures joins { Joins (pair_at self.now.pairs edge) result.other term }
        ensures other { result.other < self.now.terms }
        ensures older { IsNewestBelow self.now.pairs term edge result.older }
    {
        match self.list[edge as usize] {
            None => unreachable!(),
            Some(e) => {
                if e.left == term {
                    Hop {
                        other: e.right,
                        older: e.left_older,
                    }
                } else {
                    Hop {
                        other: e.left,
                        older: e.right_older,
                    }
                }
            }
        }
    }
}
