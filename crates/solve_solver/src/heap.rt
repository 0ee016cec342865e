//! Variables by their scores.

ghost use Rattle.std.specs.Prelude.{◌≡◌, ◌<◌, length, All, IfOk, IfSome};

use std::alloc::{AllocError, Global};
use std::marker::Model;

/// Variables in a binary heap by their scores, the largest first, and then by their numbers, each at
/// most once. The order is what decisions are quick by, and no proof rests on it. Contracts see the
/// number of variables.
#[derive(Drop)]
pub struct Heap {
    /// The heap, from 0 up to `len`.
    order: Vec<u32>,
    len: usize,
    /// Where a variable that is in the heap stands.
    places: Vec<u32>,
}

impl Model for Heap {
    ghost use Rattle.std.specs.Prelude.{◌≡◌, ◌<◌, ◌≤◌, ◌^◌, ℕ, All, vec_len};

    ghost Value = { ℕ };

    ghost view = { λ h. vec_len h.places };

    ghost invariant = { λ h. (All (λ var. var < vec_len h.places) h.order.items)
        × (vec_len h.order ≡ vec_len h.places) × (h.len ≤ vec_len h.order)
        × (vec_len h.places < 2 ^ 32) };
}

impl Heap {
    /// All variables below `vars`, whose scores are the same.
    pub fn new(alloc: Global, vars: u32) -> Result<Heap, AllocError>
        ensures { IfOk result (λ h. h ≡ vars) }
    {
        Ok(Heap {
            order: numbers(alloc, vars)?,
            len: vars as usize,
            places: numbers(alloc, vars)?,
        })
    }

    /// Puts a variable into the heap where it is not in it.
    pub fn insert(&mut self, var: u32, scores: &[u64])
        requires within { var < self.old }
        requires one_each { length scores.now ≡ self.old }
        ensures { self.new ≡ self.old }
    {
        if self.place_of(var).is_none() && self.len < self.order.len() {
            let place = self.len;
            self.len += 1;
            self.put(place, var);
            self.lift(place, scores);
        }
    }

    /// Moves a variable that is in the heap up to where its score belongs, which was bumped.
    pub fn bump(&mut self, var: u32, scores: &[u64])
        requires within { var < self.old }
        requires one_each { length scores.now ≡ self.old }
        ensures { self.new ≡ self.old }
    {
        if let Some(place) = self.place_of(var) {
            self.lift(place, scores);
        }
    }

    /// Takes the first variable out.
    pub fn pop(&mut self, scores: &[u64]) -> Option<u32>
        requires { length scores.now ≡ self.old }
        ensures same { self.new ≡ self.old }
        ensures within { IfSome result (λ var. var < self.old) }
    {
        if self.len == 0 {
            return None;
        }
        let first = self.order[0];
        self.len -= 1;
        let last = self.order[self.len];
        if self.len > 0 {
            self.put(0, last);
            self.sink(scores);
        }
        Some(first)
    }

    /// Where a variable stands in the heap, if it is in it.
    fn place_of(&self, var: u32) -> Option<usize>
        requires { var < self.now }
        ensures { IfSome result (λ place. place < self.now) }
    {
        let place = self.places[var as usize] as usize;
        if place < self.len && self.order[place] == var {
            Some(place)
        } else {
            None
        }
    }

    /// Puts a variable at a place.
    fn put(&mut self, place: usize, var: u32)
        requires place { place < self.old }
        requires within { var < self.old }
        ensures { self.new ≡ self.old }
    {
        self.order[place] = var;
        self.places[var as usize] = place as u32;
    }

    /// Moves the variable at a place up, as long as it is before the one above it (`is_before`).
    fn lift(&mut self, start: usize, scores: &[u64])
        requires start { start < self.old }
        requires one_each { length scores.now ≡ self.old }
        ensures { self.new ≡ self.old }
    {
        let var = self.order[start];
        let mut place = start;
        while place > 0 {
            let above = (place - 1) / 2;
            let parent = self.order[above];
            if !is_before(scores, var, parent) {
                break;
            }
            self.put(place, parent);
            place = above;
        }
        self.put(place, var);
    }

    /// Moves the first variable down, as long as one below is before it (`is_before`).
    fn sink(&mut self, scores: &[u64])
        requires some { 0 < self.old }
        requires one_each { length scores.now ≡ self.old }
        ensures { self.new ≡ self.old }
    {
        let var = self.order[0];
        let mut place = 0;
        while let Some((below, child)) = self.child(place, scores) {
            if !is_before(scores, child, var) {
                break;
            }
            self.put(place, child);
            place = below;
        }
        self.put(place, var);
    }

    /// Of those right below a place the one that comes first, and where it stands.
    fn child(&self, place: usize, scores: &[u64]) -> Option<(usize, u32)>
        requires place { place < self.now }
        requires one_each { length scores.now ≡ self.now }
        ensures { IfSome result (λ c. (place < c.0) × (c.0 < self.now) × (c.1 < self.now)) }
    {
        let left = 2 * place + 1;
        if left >= self.len {
            return None;
        }
        let first = self.order[left];
        let right = left + 1;
        if right < self.len {
            let second = self.order[right];
            if is_before(scores, second, first) {
                return Some((right, second));
            }
        }
        Some((left, first))
    }
}

/// Whether one variable comes before another: that with the larger score, and of two with the same
/// the first one. So variables that had no part in conflicts are decided in their order.
fn is_before(scores: &[u64], one: u32, other: u32) -> bool
    requires one { one < length scores.now }
    requires other { other < length scores.now }
{
    let score = scores[one as usize];
    let bound = scores[other as usize];
    score > bound || score == bound && one < other
}

/// The numbers below `count`, in order.
fn numbers(alloc: Global, count: u32) -> Result<Vec<u32>, AllocError>
    ensures count { IfOk result (λ v. length v.items ≡ count) }
    ensures below { IfOk result (λ v. All (λ number. number < count) v.items) }
{
    let mut numbers = Vec::with_capacity(alloc, count as usize)?;
    for number in 0..count {
        numbers.push(number)?;
    }
    Ok(numbers)
}
