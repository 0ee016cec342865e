//! An order of a graph, or a cycle, by a search backwards along the edges.

ghost use Rattle.std.specs.Prelude.{◌≡◌, ◌≢◌, ◌+◌, ◌<◌, ◌≤◌, ℕ, [], ◌∷◌, ◌++◌, length, Contains};
ghost use Rattle.std.specs.Prelude.{slice_set, if◌then◌else◌, MatchOption, IfOk, OnOk, IsTrue, ◌↔◌};
ghost use Rattle.std.specs.Prelude.{◌⊎◌, List, map, All};
ghost use Rattle.form_strata.specs.Places.{edge_at};
ghost use Rattle.form_strata.specs.Search.{mark_at, is_done_mark, LeadsOn, AreEdgesBelow, AreLeft, IsSearch, IsState};
ghost use Rattle.form_strata.specs.Search.{IsSorted, IsCycleFrom, IsBegun, work};

use crate::places::places_of;
use std::alloc::{AllocError, Global};

/// How far a search has come with a vertex.
#[derive(Clone, Copy, Debug)]
pub(crate) enum Mark {
    Unseen,
    /// On the path.
    Open,
    /// In order, behind all that lead to it.
    Done,
}

/// A search. An edge leads to each vertex of the path from the next one.
#[derive(Debug, Drop)]
pub(crate) struct Search {
    pub(crate) marks: Vec<Mark>,
    /// The places of the edges to each vertex that were not seen to lead from one that is done.
    pub(crate) left: Vec<Vec<usize>>,
    pub(crate) path: Vec<u32>,
    pub(crate) order: Vec<u32>,
}

/// Takes places of edges from vertices that are done from the end of a list, and gives the vertex
/// that the last edge leads from then, if any is left.
fn last_unfinished(
    graph: &[(u32, u32)],
    places: &mut Vec<usize>,
    marks: &[Mark],
) -> Result<Option<u32>, AllocError>
    requires below { AreEdgesBelow graph.now (length marks.now) }
    requires places { All (λ k. k < length graph.now) places.old.items }
    ensures kept { OnOk result ((k : ℕ) → Contains places.new.items k →
        Contains places.old.items k) }
    ensures taken { OnOk result ((k : ℕ) → Contains places.old.items k →
        (mark_at marks.now (edge_at graph.now k).0 ≡ Mark.Done) ⊎ Contains places.new.items k) }
    ensures last { IfOk result (λ last. MatchOption last (places.new.items ≡ []) (λ a. (k : ℕ)
        × Contains places.new.items k × ((edge_at graph.now k).0 ≡ a)
        × (mark_at marks.now a ≢ Mark.Done))) }
{
    while let Some(place) = places.pop() {
        let from = graph[place].0;
        if !is_done(marks, from) {
            places.push(place)?;
            return Ok(Some(from));
        }
    }
    Ok(None)
}

/// Whether a sort and all that it reaches are in order.
fn is_done(marks: &[Mark], v: u32) -> bool
    requires { v < length marks.now }
    ensures { IsTrue result ↔ (mark_at marks.now v ≡ Mark.Done) }
{
    matches!(marks[v as usize], Mark::Done)
}

/// Whether a sort is on the way that is followed.
fn is_open(marks: &[Mark], v: u32) -> bool
    requires { v < length marks.now }
    ensures { IsTrue result ↔ (mark_at marks.now v ≡ Mark.Open) }
{
    matches!(marks[v as usize], Mark::Open)
}

impl Search {
    /// A search that has not begun, with these places of edges.
    fn new(alloc: Global, left: Vec<Vec<usize>>, vertices: u32) -> Result<Search, AllocError>
        ensures left { IfOk result (λ search. search.left ≡ left) }
        ensures path { IfOk result (λ search. search.path.items ≡ []) }
        ensures state { IfOk result (λ search. (graph : List (ℕ × ℕ)) → IsState graph vertices
            search.marks.items search.path.items search.order.items) }
    {
        Ok(Search {
            marks: vec![in alloc; Mark::Unseen; vertices as usize]?,
            left,
            path: Vec::new(alloc),
            order: Vec::new(alloc),
        })
    }

    /// Puts a vertex that left the path in order: all that lead to it are done.
    fn finish(&mut self, v: u32) -> Result<(), AllocError>
        requires { v < length self.old.marks.items }
        ensures left { self.new.left.items ≡ self.old.left.items }
        ensures path { self.new.path.items ≡ self.old.path.items }
        ensures marks { OnOk result (self.new.marks.items
            ≡ slice_set self.old.marks.items v Mark.Done) }
        ensures order { OnOk result (self.new.order.items
            ≡ (if is_done_mark
            (mark_at self.old.marks.items v) then self.old.order.items else self.old.order.items
            ++ v ∷ [])) }
    {
        if !is_done(self.marks.as_slice(), v) {
            self.order.push(v)?;
        }
        self.marks[v as usize] = Mark::Done;
        Ok(())
    }

    /// Puts a vertex that was not seen on the path.
    fn enter(&mut self, v: u32) -> Result<(), AllocError>
        requires { v < length self.old.marks.items }
        ensures left { self.new.left.items ≡ self.old.left.items }
        ensures path { OnOk result (self.new.path.items ≡ self.old.path.items ++ v ∷ []) }
        ensures marks { OnOk result (self.new.marks.items
            ≡ slice_set self.old.marks.items v Mark.Open) }
        ensures order { self.new.order.items ≡ self.old.order.items }
    {
        self.path.push(v)?;
        self.marks[v as usize] = Mark::Open;
        Ok(())
    }

    /// Puts a vertex on the empty path, unless it is done.
    fn begin(&mut self, start: u32) -> Result<(), AllocError>
        requires { start < length self.old.marks.items }
        ensures { OnOk result (IsBegun self.old start self.new) }
    {
        if is_done(self.marks.as_slice(), start) {
            return Ok(());
        }
        self.enter(start)?;
        Ok(())
    }

    /// A vertex that is not done and leads to this one, if there is any. Edges from vertices that
    /// are done are not looked at again.
    fn unfinished(&mut self, graph: &[(u32, u32)], to: u32) -> Result<Option<u32>, AllocError>
        requires to { to < length self.old.marks.items }
        requires below { AreEdgesBelow graph.now (length self.old.marks.items) }
        requires left { AreLeft graph.now self.old.marks.items
            (map (λ l. l.items) self.old.left.items) }
        ensures marks { self.new.marks.items ≡ self.old.marks.items }
        ensures left { OnOk result (AreLeft graph.now self.old.marks.items
            (map (λ l. l.items) self.new.left.items)) }
        ensures path { self.new.path.items ≡ self.old.path.items }
        ensures order { self.new.order.items ≡ self.old.order.items }
        ensures found { IfOk result (λ found. MatchOption found ((a : ℕ) →
            Contains graph.now (a, to) →
            mark_at self.old.marks.items a ≡ Mark.Done) (λ a. Contains graph.now (a, to) ×
            (mark_at self.old.marks.items a ≢ Mark.Done))) }
    {
        let found = last_unfinished(graph, &mut self.left[to as usize], self.marks.as_slice())?;
        Ok(found)
    }

    /// Goes on until the path is empty, or a vertex on it leads to its last one.
    ///
    /// Returns that vertex.
    fn visit(&mut self, graph: &[(u32, u32)]) -> Result<Option<u32>, AllocError>
        requires below { AreEdgesBelow graph.now (length self.old.marks.items) }
        requires search { IsSearch graph.now (length self.old.marks.items) self.old }
        ensures search { OnOk result (IsSearch graph.now (length self.old.marks.items) self.new) }
        ensures end { IfOk result (λ found. MatchOption found (self.new.path.items
            ≡ []) (λ v. Contains self.new.path.items v × LeadsOn graph.now self.new.path.items v)) }
        ensures done { IfOk result (λ found. (v : ℕ) →
            mark_at self.old.marks.items v ≢ Mark.Unseen →
            mark_at self.new.marks.items v ≢ Mark.Unseen) }
    {
        'steps: while let Some(v) = self.path.pop() {
            match self.unfinished(graph, v)? {
                None => self.finish(v)?,
                Some(from) => {
                    self.path.push(v)?;
                    if is_open(self.marks.as_slice(), from) {
                        return Ok(Some(from));
                    }
                    self.enter(from)?;
                }
            }
        }
        Ok(None)
    }
}

/// An order of the vertices below a number along which every edge goes forward, or a cycle.
#[derive(Debug, Drop)]
pub(crate) enum Sorted {
    Order(Vec<u32>),
    /// The first vertex is repeated last.
    Cycle(Vec<u32>),
}

/// Sorts the vertices of a graph. The search has at most two steps for a vertex, and a step looks
/// at one edge and at those that it takes away.
pub(crate) fn sort(alloc: Global, graph: &[(u32, u32)], vertices: u32) -> Result<Sorted, AllocError>
    requires { AreEdgesBelow graph.now vertices }
    ensures { IfOk result (IsSorted graph.now vertices) }
{
    let places = places_of(alloc, graph, vertices)?;
    let mut search = Search::new(alloc, places, vertices)?;
    for start in 0..vertices {
        search.begin(start)?;
        match search.visit(graph)? {
            None => {}
            Some(from) => {
                let Search {
                    marks: _,
                    left: _,
                    path,
                    order: _,
                } = search;
                let cycle = cycle_from(alloc, path, from)?;
                return Ok(Sorted::Cycle(cycle));
            }
        }
    }
    let Search {
        marks: _,
        left: _,
        path: _,
        order,
    } = search;
    Ok(Sorted::Order(order))
}

/// The cycle that is closed by an edge from a vertex of the path to its last one.
fn cycle_from(alloc: Global, path: Vec<u32>, from: u32) -> Result<Vec<u32>, AllocError>
    ensures { IfOk result (λ cycle. IsCycleFrom path.items from cycle.items) }
{
    let mut path = path;
    let mut cycle = vec![in alloc; from]?;
    while let Some(v) = path.pop() {
        cycle.push(v)?;
        if v == from {
            return Ok(cycle);
        }
    }
    Ok(cycle)
}
