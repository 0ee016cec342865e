//! The literals as the edges of a graph.
ghost use Rattle.std.specs.Prelude.{◌≡◌, ◌+◌, ◌-◌, ◌^◌, ◌<◌, ◌≤◌, [], ◌∷◌, ◌++◌, length, take};
ghost use Rattle.std.specs.Prelude.{IsTrue, IfOk};
ghost use Rattle.solve_order.specs.Difference.{is_literal};
ghost use Rattle.solve_order.specs.Edges.{literal_at, IsLastFrom};

use crate::diff::Diff;
use std::alloc::{AllocError, Global};
use std::marker::Model;

/// The literals asserted so far, as edges of a graph: `x - y <= c` leads from `y` to `x`.
#[derive(Drop)]
pub struct Edges {
    literals: Vec<Diff>,
    /// For each literal, one more than the position of the last one before it that leads from the
    /// same vertex, or 0.
    earlier: Vec<u32>,
    /// For each vertex, one more than the position of the last literal from it, or 0.
    latest: Vec<u32>,
    limit: usize,
}

impl Model for Edges {
    ghost use Rattle.std.specs.Prelude.{length, vec_capacity};
    ghost use Rattle.solve_order.specs.Difference.{Constraints};
    ghost use Rattle.solve_order.specs.Edges.{IsLinked, HasRoom};

    ghost Value = { Constraints };

    ghost view = { λ e.
        record {
          variables = length e.latest.items;
          capacity = e.limit;
          literals = e.literals.items;
        } };

    ghost invariant = { λ e. IsLinked e.literals.items e.earlier.items e.latest.items
        × HasRoom (length e.literals.items) (length e.latest.items) e.limit
        (vec_capacity e.literals) (vec_capacity e.earlier) };
}

impl Edges {
    /// The graph of no literals over that many vertices, with room for `capacity` literals.
    pub fn new(alloc: Global, vertices: usize, capacity: usize) -> Result<Edges, AllocError>
        requires few_vertices { vertices < 2 ^ 32 }
        requires few_literals { capacity < 2 ^ 32 }
        ensures { IfOk result
            (λ e. e ≡ record { variables = vertices; capacity = capacity; literals = [] }) }
    {
        let literals = Vec::with_capacity(alloc, capacity)?;
        let earlier = Vec::with_capacity(alloc, capacity)?;
        let latest = vec![in alloc; 0; vertices]?;
        Ok(Edges {
            literals,
            earlier,
            latest,
            limit: capacity,
        })
    }

    /// How many literals there are.
    pub fn len(&self) -> usize
        ensures length { result ≡ length self.now.literals }
        ensures short { result < 2 ^ 32 }
    {
        self.literals.len()
    }

    /// The literal at position `p`.
    pub fn literal(&self, p: usize) -> Diff
        requires { p < length self.now.literals }
        ensures literal { result ≡ literal_at self.now.literals p }
        ensures fits { IsTrue (is_literal self.now.variables result) }
    {
        self.literals[p]
    }

    /// One more than the position of the last literal from vertex `v`, or 0.
    pub fn latest(&self, v: u32) -> u32
        requires { v < self.now.variables }
        ensures { IsLastFrom self.now.literals (length self.now.literals) v result }
    {
        self.latest[v as usize]
    }

    /// One more than the position of the last literal before the one at `p` that leads from the
    /// same vertex, or 0.
    pub fn earlier(&self, p: usize) -> u32
        requires { p < length self.now.literals }
        ensures { IsLastFrom self.now.literals p (literal_at self.now.literals p).y result }
    {
        self.earlier[p]
    }

    /// Puts a literal at the end.
    pub fn push(&mut self, l: Diff)
        requires room { length self.old.literals < self.old.capacity }
        requires fits { IsTrue (is_literal self.old.variables l) }
        ensures { self.new ≡ record self.old { literals = self.old.literals ++ l ∷ [] } }
    {
        let last = self.latest[l.y as usize];
        self.latest[l.y as usize] = self.literals.len() as u32 + 1;
        match self.earlier.push(last) {
            Ok(()) => (),
            Err(_) => unreachable!(),
        }
        match self.literals.push(l) {
            Ok(()) => (),
            Err(_) => unreachable!(),
        }
    }

    /// Takes the last literal back.
    pub fn pop(&mut self)
        requires { 0 < length self.old.literals }
        ensures { let kept = take (length self.old.literals - 1) self.old.literals in
            self.new ≡ record self.old { literals = kept } }
    {
        if let Some(l) = self.literals.pop() {
            if let Some(last) = self.earlier.pop() {
                self.latest[l.y as usize] = last;
            }
        }
    }

    /// Takes the last `n` literals back.
    pub fn cut(&mut self, n: usize)
        requires { n ≤ length self.old.literals }
        ensures { let kept = take (length self.old.literals - n) self.old.literals in
            self.new ≡ record self.old { literals = kept } }
    {
        for _taken in 0..n {
            self.pop();
        }
    }
}
