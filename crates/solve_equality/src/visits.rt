//! The terms that a search has come to, and from where.
ghost use Rattle.std.specs.Prelude.{◌≡◌, ◌≢◌, ◌<◌, ◌≤◌, ◌^◌, true, false, [], ◌∷◌, ◌++◌, length};
ghost use Rattle.std.specs.Prelude.{slice_get, IfOk, IfSome, IfNone, All};
ghost use Rattle.solve_equality.specs.Visits.{has_visited, visit_at, MarkedFrom};

use solve_theory::push_within;
use std::alloc::{AllocError, Global};
use std::marker::Model;

/// How a search came to a term.
#[derive(Clone, Copy)]
pub struct Visit {
    /// The term.
    pub term: u32,
    /// The edge by which it was reached. At the first visit of a search it means nothing.
    pub via: u32,
    /// The place of the visit from which it was reached, likewise.
    pub from: u32,
}

/// The terms that a search has come to, in order, each once. Its memory is for all terms.
#[derive(Drop)]
pub struct Visits {
    list: Vec<Visit>,
    seen: Vec<bool>,
}

impl Model for Visits {
    ghost use Rattle.std.specs.Prelude.{length, vec_capacity};
    ghost use Rattle.solve_equality.specs.Visits.{Visited, IsSoundVisits};

    ghost Value = { Visited };

    ghost view = { λ v. record { visits = v.list.items; terms = length v.seen.items } };

    ghost invariant = { λ v. IsSoundVisits v.list.items v.seen.items (vec_capacity v.list) };
}

impl Visits {
    /// No visits, of terms below `terms`.
    pub fn new(alloc: Global, terms: usize) -> Result<Visits, AllocError>
        requires { terms < 2 ^ 32 }
        ensures { IfOk result (λ v. v ≡ record { visits = []; terms = terms }) }
    {
        let list = Vec::with_capacity(alloc, terms)?;
        let seen = vec![in alloc; false; terms]?;
        Ok(Visits { list, seen })
    }

    /// Forgets all visits.
    pub fn clear(&mut self)
        ensures { self.new ≡ record self.old { visits = [] } }
    {
        unmark(self.list.as_slice(), self.seen.as_mut_slice());
        self.list.clear();
    }

    /// How many visits there are, at most one for each term.
    pub fn len(&self) -> usize
        ensures value { result ≡ length self.now.visits }
        ensures bound { result ≤ self.now.terms }
        ensures small { self.now.terms < 2 ^ 32 }
    {
        self.list.len()
    }

    /// The visit at a place.
    pub fn at(&self, place: usize) -> Visit
        requires { place < length self.now.visits }
        ensures value { slice_get self.now.visits place ≡ Some result }
        ensures within { result.term < self.now.terms }
    {
        self.list[place]
    }

    /// Whether the search has come to a term.
    pub fn has(&self, term: u32) -> bool
        requires { term < self.now.terms }
        ensures { result ≡ has_visited self.now.visits term }
    {
        self.seen[term as usize]
    }

    /// The place of the visit of a term that the search has come to.
    pub fn place_of(&self, term: u32) -> usize
        requires { has_visited self.now.visits term ≡ true }
        ensures within { result < length self.now.visits }
        ensures value { (visit_at self.now.visits result).term ≡ term }
    {
        match place_among(self.list.as_slice(), term) {
            Some(place) => place,
            None => unreachable!(),
        }
    }

    /// Adds a visit of a term that the search has not come to.
    pub fn add(&mut self, visit: Visit)
        requires within { visit.term < self.old.terms }
        requires is_new { has_visited self.old.visits visit.term ≡ false }
        ensures { self.new ≡ record self.old { visits = self.old.visits ++ visit ∷ [] } }
    {
        self.seen[visit.term as usize] = true;
        push_within(&mut self.list, visit);
    }
}

/// Takes the marks of the visited terms away.
fn unmark(visits: &[Visit], seen: &mut [bool])
    requires within { All (λ v. v.term < length seen.old) visits.now }
    requires marks { MarkedFrom visits.now seen.old 0 }
    ensures { All (λ mark. mark ≡ false) seen.new }
{
    for visit in visits {
        seen[visit.term as usize] = false;
    }
}

/// The place of the visit of a term, if there is one.
fn place_among(visits: &[Visit], term: u32) -> Option<usize>
    ensures found { IfSome result (λ p. (p < length visits.now) ×
        ((visit_at visits.now p).term ≡ term)) }
    ensures none { IfNone result (All (λ v. v.term ≢ term) visits.now) }
{
    visits.iter().position(|visit| visit.term == term)
}
