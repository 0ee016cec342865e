//! The numbers below a bound in some order.
ghost use Rattle.std.specs.Prelude.{◌≡◌, ℕ, ◌^◌, ◌<◌, length, slice_index, IfOk};
ghost use Rattle.solve_order.specs.Permutation.{IsPaired, Exchanges};

use std::alloc::{AllocError, Global};

/// The numbers below a bound in some order, and the place of each.
#[derive(Drop)]
pub struct Permutation {
    pub items: Vec<u32>,
    pub places: Vec<u32>,
    ghost paired: { IsPaired items.items places.items },
}

/// The numbers below `n`, in turn.
fn in_turn(alloc: Global, n: usize) -> Result<Vec<u32>, AllocError>
    requires { n < 2 ^ 32 }
    ensures length { IfOk result (λ v. length v.items ≡ n) }
    ensures items { IfOk result (λ v. (k : ℕ) → k < n → slice_index v.items k ≡ k) }
{
    let mut numbers = Vec::with_capacity(alloc, n)?;
    for k in 0..n {
        numbers.push(k as u32)?;
    }
    Ok(numbers)
}

impl Permutation {
    /// The numbers below `n`, in turn.
    pub fn new(alloc: Global, n: usize) -> Result<Permutation, AllocError>
        requires { n < 2 ^ 32 }
        ensures { IfOk result (λ p. length p.items.items ≡ n) }
    {
        let items = in_turn(alloc, n)?;
        let places = in_turn(alloc, n)?;
        Ok(Permutation { items, places })
    }

    /// Exchanges the numbers at two places.
    pub fn exchange(&mut self, i: usize, j: usize)
        requires i_within { i < length self.old.items.items }
        requires j_within { j < length self.old.items.items }
        ensures { Exchanges i j self.old.items.items self.old.places.items
            self.new.items.items self.new.places.items }
    {
        let at_i = self.items[i];
        let at_j = self.items[j];
        self.items[i] = at_j;
        self.items[j] = at_i;
        self.places[at_j as usize] = i as u32;
        self.places[at_i as usize] = j as u32;
    }
}
