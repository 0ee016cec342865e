//! What a search has reached, with a heap of what waits.
ghost use Rattle.std.specs.Prelude.{◌≡◌, ◌≢◌, ◌↔◌, ℕ, ◌+◌, ◌-◌, ◌*◌, ◌^◌, ◌<◌, ◌≤◌, length, pos};
ghost use Rattle.std.specs.Prelude.{◌<ℤ◌, ◌≤ℤ◌, slice_index, slice_set, replicate, IsTrue, IfOk};
ghost use Rattle.std.specs.Prelude.{IfSome, IfNone};
ghost use Rattle.solve_order.specs.Lowering.{CanMove, Moves};
ghost use Rattle.solve_order.specs.Reach.{unreached, reach_of, lowered_at, IsHeap, KeepsBeyond};
ghost use Rattle.solve_order.specs.Reach.{IsAlmostHeapAbove, IsAlmostHeapBelow, JoinsWaiting};
ghost use Rattle.solve_order.specs.Reach.{IsExplored, SettlesLowest};

use crate::lowering::{move_all, move_reached};
use crate::permutation::Permutation;
use std::alloc::{AllocError, Global};
use std::marker::Model;

/// The rank of a vertex that is not settled.
pub const UNSETTLED: u32 = u32::MAX;

/// What a search knows of a vertex.
#[derive(Clone, Copy)]
pub struct Reach {
    /// By how much its value has to be lowered; 0 where the search has not come to it.
    pub lowered: i128,
    /// How many vertices were settled before it, or `UNSETTLED`.
    pub rank: u32,
    /// The settled vertex that lowered it.
    pub from: u32,
    /// By which edge: one more than the position of the literal, or 0 for a bound of the range.
    pub via: u32,
}

/// What stands at a vertex that was not reached.
fn no_reach() -> Reach
    ensures { result ≡ unreached }
{
    Reach {
        lowered: 0,
        rank: UNSETTLED,
        from: 0,
        via: 0,
    }
}

/// Whether the vertex at place `i` is lowered more than the one at place `j`.
fn is_lower(order: &Permutation, reached: &[Reach], i: usize, j: usize) -> bool
    requires as_long { length reached.now ≡ length order.now.items.items }
    requires i_within { i < length order.now.items.items }
    requires j_within { j < length order.now.items.items }
    ensures { let lowered = lowered_at reached.now order.now.items.items in
        IsTrue result ↔ (lowered j <ℤ lowered i) }
{
    let first = reached[order.items[i] as usize];
    let second = reached[order.items[j] as usize];
    first.lowered > second.lowered
}

/// Moves the vertex at place `at` of a heap up, until none above it is lowered less.
fn sift_up(order: &mut Permutation, reached: &[Reach], waiting: usize, mut at: usize)
    requires as_long { length reached.now ≡ length order.old.items.items }
    requires waiting_below { waiting ≤ length order.old.items.items }
    requires within { at < waiting }
    requires heap { IsAlmostHeapAbove (lowered_at reached.now order.old.items.items) waiting at }
    ensures heap { IsHeap (lowered_at reached.now order.new.items.items) waiting }
    ensures kept { KeepsBeyond waiting order.old.places.items order.new.places.items }
    ensures length { length order.new.items.items ≡ length order.old.items.items }
{
    while at > 0 {
        let parent = (at - 1) / 2;
        if !is_lower(order, reached, at, parent) {
            return;
        }
        order.exchange(at, parent);
        at = parent;
    }
}

/// The child of `at` in a heap of `waiting` vertices that is lowered most.
fn lower_child(order: &Permutation, reached: &[Reach], waiting: usize, at: usize) -> usize
    requires as_long { length reached.now ≡ length order.now.items.items }
    requires waiting_below { waiting ≤ length order.now.items.items }
    requires has_child { 2 * at + 1 < waiting }
    ensures above { 2 * at < result }
    ensures below { result ≤ 2 * at + 2 }
    ensures within { result < waiting }
    ensures most { let lowered = lowered_at reached.now order.now.items.items in
        (i : ℕ) → 2 * at < i → i ≤ 2 * at + 2 → i < waiting → lowered i ≤ℤ lowered result }
{
    let left = 2 * at + 1;
    let right = left + 1;
    if right < waiting && is_lower(order, reached, right, left) {
        right
    } else {
        left
    }
}

/// Moves the first vertex of a heap down, until none below it is lowered more.
fn sift_down(order: &mut Permutation, reached: &[Reach], waiting: usize)
    requires as_long { length reached.now ≡ length order.old.items.items }
    requires waiting_below { waiting ≤ length order.old.items.items }
    requires heap { IsAlmostHeapBelow (lowered_at reached.now order.old.items.items) waiting 0 }
    ensures heap { IsHeap (lowered_at reached.now order.new.items.items) waiting }
    ensures kept { KeepsBeyond waiting order.old.places.items order.new.places.items }
    ensures length { length order.new.items.items ≡ length order.old.items.items }
{
    let mut at = 0;
    while 2 * at + 1 < waiting {
        let child = lower_child(order, reached, waiting, at);
        if !is_lower(order, reached, child, at) {
            return;
        }
        order.exchange(at, child);
        at = child;
    }
}

/// Puts a vertex that is not reached behind those that wait.
fn join(order: &mut Permutation, waiting: usize, touched: usize, v: u32)
    requires waiting_below { waiting ≤ touched }
    requires within { v < length order.old.items.items }
    requires beyond { touched ≤ slice_index order.old.places.items v }
    ensures { JoinsWaiting waiting touched order.old.items.items order.old.places.items
        order.new.items.items order.new.places.items v }
{
    let place = order.places[v as usize] as usize;
    order.exchange(place, touched);
    order.exchange(touched, waiting);
}

/// Makes the first `touched` vertices in order ones that the search has not reached.
fn forget(reached: &mut Vec<Reach>, order: &Permutation, touched: usize)
    requires as_long { length reached.old.items ≡ length order.now.items.items }
    requires within { touched ≤ length order.now.items.items }
    ensures length { length reached.new.items ≡ length reached.old.items }
    ensures forgotten { (i : ℕ) → i < touched →
        reach_of reached.new.items (slice_index order.now.items.items i) ≡ unreached }
    ensures others { (v : ℕ) →
        ((i : ℕ) → i < touched → slice_index order.now.items.items i ≢ v) →
        reach_of reached.new.items v ≡ reach_of reached.old.items v }
{
    for i in 0..touched {
        reached[order.items[i] as usize] = no_reach();
    }
}

/// The vertices that a search has reached: those that wait, which are lowered and may be lowered
/// further, and those that are settled. Contracts see what is known of each vertex.
#[derive(Drop)]
pub struct Frontier {
    reached: Vec<Reach>,
    /// First those that wait, as a heap, then those that are settled, then the others.
    order: Permutation,
    waiting: usize,
    touched: usize,
}

impl Model for Frontier {
    ghost use Rattle.std.specs.Prelude.{List};
    ghost use Rattle.solve_order.specs.declared.frontier.Reach.{Reach};
    ghost use Rattle.solve_order.specs.Reach.{IsFrontier};

    ghost Value = { List Reach };

    ghost view = { λ f. f.reached.items };

    ghost invariant = { λ f.
        IsFrontier f.reached.items f.order.items.items f.order.places.items f.waiting f.touched };
}

impl Frontier {
    /// The frontier of a search that has reached nothing.
    pub fn new(alloc: Global, vertices: usize) -> Result<Frontier, AllocError>
        requires { vertices < 2 ^ 32 }
        ensures { IfOk result (λ f. f ≡ replicate vertices unreached) }
    {
        let reached = vec![in alloc; no_reach(); vertices]?;
        let order = Permutation::new(alloc, vertices)?;
        Ok(Frontier {
            reached,
            order,
            waiting: 0,
            touched: 0,
        })
    }

    /// What is known of vertex `v`.
    pub fn at(&self, v: u32) -> Reach
        requires { v < length self.now }
        ensures { result ≡ reach_of self.now v }
    {
        self.reached[v as usize]
    }

    /// Lowers a vertex that is not settled, by more than it is lowered so far.
    pub fn lower(&mut self, v: u32, lowered: i128, from: u32, via: u32)
        requires within { v < length self.old }
        requires unsettled { (reach_of self.old v).rank ≡ UNSETTLED }
        requires lowers { (reach_of self.old v).lowered <ℤ lowered }
        ensures { self.new ≡ slice_set self.old v
            (record { lowered = lowered; rank = UNSETTLED; from = from; via = via }) }
    {
        self.reached[v as usize] = Reach {
            lowered,
            rank: UNSETTLED,
            from,
            via,
        };
        let place = self.order.places[v as usize] as usize;
        if place >= self.touched {
            let last = self.waiting;
            join(&mut self.order, last, self.touched, v);
            self.waiting += 1;
            self.touched += 1;
            sift_up(&mut self.order, &self.reached, self.waiting, last);
        } else {
            sift_up(&mut self.order, &self.reached, self.waiting, place);
        }
    }

    /// Settles the vertex that is lowered most of those that wait, if one waits.
    pub fn settle(&mut self) -> Option<u32>
        ensures none { IfNone result (IsExplored self.old) }
        ensures unchanged { IfNone result (self.new ≡ self.old) }
        ensures settled { IfSome result (SettlesLowest self.old self.new) }
    {
        if self.waiting == 0 {
            return None;
        }
        let v = self.order.items[0];
        self.reached[v as usize].rank = (self.touched - self.waiting) as u32;
        self.waiting -= 1;
        self.order.exchange(0, self.waiting);
        sift_down(&mut self.order, &self.reached, self.waiting);
        Some(v)
    }

    /// Lowers the values as the vertices are lowered, and raises all so that the value of vertex 0
    /// stays.
    pub fn apply(&self, values: &mut Vec<i64>)
        requires some { 0 < length self.now }
        requires can_move { CanMove values.old.items self.now (reach_of self.now 0).lowered }
        ensures { Moves values.old.items values.new.items self.now (reach_of self.now 0).lowered }
    {
        let rise = self.reached[0].lowered;
        if rise == 0 {
            move_reached(values, &self.reached, &self.order, self.touched);
        } else {
            move_all(values, &self.reached, rise);
        }
    }

    /// Forgets what was reached.
    pub fn clear(&mut self)
        ensures { self.new ≡ replicate (length self.old) unreached }
    {
        forget(&mut self.reached, &self.order, self.touched);
        self.waiting = 0;
        self.touched = 0;
    }
}
