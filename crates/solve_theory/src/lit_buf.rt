//! A list with room for a fixed number of items.
ghost use Rattle.std.specs.Prelude.{◌≡◌, ◌<◌, [], ◌∷◌, ◌++◌, length, IfOk};

use crate::room::push_within;
use std::alloc::{AllocError, Global};
use std::marker::Model;

/// A list with room for a fixed number of items, which takes all its memory when it is made.
/// Contracts see its items and its capacity.
#[derive(Drop)]
pub struct LitBuf<L: Copy> {
    list: Vec<L>,
    limit: usize,
}

impl<L: Copy> Model for LitBuf<L> {
    ghost use Rattle.std.specs.Prelude.{◌≤◌, vec_len, vec_capacity};
    ghost use Rattle.solve_theory.specs.LitBuf.{LitList, lit_list_code};

    ghost Value = { LitList L };

    ghost coded = { lit_list_code L.code };

    ghost view = { λ b. record { items = b.list.items; capacity = b.limit } };

    ghost invariant = { λ b. (vec_len b.list ≤ b.limit) × (b.limit ≤ vec_capacity b.list) };
}

impl<L: Copy> LitBuf<L> {
    /// An empty list with room for `capacity` items.
    pub fn new(alloc: Global, capacity: usize) -> Result<LitBuf<L>, AllocError>
        ensures { IfOk result (λ b. b ≡ record { items = []; capacity = capacity }) }
    {
        let list = Vec::with_capacity(alloc, capacity)?;
        Ok(LitBuf {
            list,
            limit: capacity,
        })
    }

    /// Takes all items out.
    pub fn clear(&mut self)
        ensures items { self.new.items ≡ [] }
        ensures capacity { self.new.capacity ≡ self.old.capacity }
    {
        self.list.clear();
    }

    /// Puts `l` at the end.
    pub fn push(&mut self, l: L)
        requires { length self.old.items < self.old.capacity }
        ensures items { self.new.items ≡ self.old.items ++ l ∷ [] }
        ensures capacity { self.new.capacity ≡ self.old.capacity }
    {
        push_within(&mut self.list, l);
    }

    /// The items, in the order in which they were pushed.
    pub fn items(&self) -> &[L]
        ensures { result.now ≡ self.now.items }
    {
        self.list.as_slice()
    }
}
