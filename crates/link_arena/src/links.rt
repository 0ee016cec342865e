//! Numbers that are linked in rings.
ghost use Rattle.std.specs.Prelude.{◌≡◌, ℕ, ◌<◌, length, slice_index, swap, EachIndex, IfOk};
ghost use Rattle.link_arena.specs.Links.{IsInjective};

use std::alloc::{AllocError, Global};
use std::marker::Model;

/// Numbers from 0 on, of which each has one that comes next and one that comes before.
#[derive(Drop)]
pub(crate) struct Links {
    next: Vec<u32>,
    prev: Vec<u32>,
}

// Clauses see the numbers that come next.
impl Model for Links {
    ghost use Rattle.std.specs.Prelude.{ℕ, List, ◌<◌, ◌^◌, length};
    ghost use Rattle.link_arena.specs.Links.{AreInverse};

    ghost Value = { List ℕ };

    ghost view = { λ l. l.next.items };

    ghost invariant = { λ l. AreInverse l.next.items l.prev.items
        × (length l.next.items < 2 ^ 32) };
}

impl Links {
    /// `count` numbers, each of which comes next to itself. Four thousand million numbers count as
    /// memory that is not there.
    pub(crate) fn alone(alloc: Global, count: usize) -> Result<Links, AllocError>
        ensures count { IfOk result (λ links. length links ≡ count) }
        ensures alone { IfOk result (λ links. EachIndex links (λ i. slice_index links i ≡ i)) }
    {
        if count > u32::MAX as usize {
            return Err(AllocError);
        }
        let count = count as u32;
        Ok(Links {
            next: numbers(alloc, count)?,
            prev: numbers(alloc, count)?,
        })
    }

    /// The number that comes next to this one.
    pub(crate) fn next(&self, at: usize) -> usize
        requires { at < length self.now }
        ensures next { result ≡ slice_index self.now at }
        ensures below { result < length self.now }
    {
        self.next[at] as usize
    }

    /// The number that this one comes next to.
    pub(crate) fn prev(&self, at: usize) -> usize
        requires { at < length self.now }
        ensures prev { slice_index self.now result ≡ at }
        ensures below { result < length self.now }
    {
        self.prev[at] as usize
    }

    /// Exchanges what comes next to two numbers: this joins their rings, or parts them.
    pub(crate) fn exchange(&mut self, a: usize, b: usize)
        requires a_in { a < length self.old }
        requires b_in { b < length self.old }
        ensures exchanged { self.new ≡ swap self.old a b }
        ensures injective { IsInjective self.new }
    {
        self.next.swap(a, b);
        let after_a = self.next[a];
        self.prev[after_a as usize] = a as u32;
        let after_b = self.next[b];
        self.prev[after_b as usize] = b as u32;
    }
}

/// The numbers below `count`, in order.
fn numbers(alloc: Global, count: u32) -> Result<Vec<u32>, AllocError>
    ensures count { IfOk result (λ v. length v.items ≡ count) }
    ensures own { IfOk result (λ v. EachIndex v.items (λ i. slice_index v.items i ≡ i)) }
{
    let mut numbers = Vec::with_capacity(alloc, count as usize)?;
    for i in 0..count {
        numbers.push(i)?;
    }
    Ok(numbers)
}
