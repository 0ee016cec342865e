//! How far each variable has to be lowered.
ghost use Rattle.std.specs.Prelude.{◌≡◌, ◌≢◌, ◌+◌, ◌-◌, ◌^◌, ◌<◌, ◌≤◌, length, pos, neg_ℤ, ◌+ℤ◌};
ghost use Rattle.std.specs.Prelude.{◌-ℤ◌, ◌≤ℤ◌, ◌<ℤ◌, IsTrue, IfSome, IfNone, replicate};
ghost use Rattle.std.specs.Bool.{OnTrue, OnFalse};
ghost use Rattle.solve_order.specs.Difference.{value_of, is_literal, meets};
ghost use Rattle.solve_order.specs.Edges.{literal_at};
ghost use Rattle.solve_order.specs.Reach.{unreached, reach_of};
ghost use Rattle.solve_order.specs.Potential.{Meets};
ghost use Rattle.solve_order.specs.Search.{needed, Relaxes, Lowers, MeetsEdge, MeetsLow};
ghost use Rattle.solve_order.specs.Search.{MeetsHighBelow};

use crate::diff::Diff;
use crate::edges::Edges;
use crate::frontier::{Frontier, UNSETTLED};

/// An edge of the graph: the value of `to` is at most that of `from` and `bound`.
#[derive(Clone, Copy)]
pub struct Edge {
    pub from: u32,
    pub to: u32,
    pub bound: i128,
    /// One more than the position of the literal, or 0 for a bound of the range.
    pub via: u32,
}

/// The value of a vertex, with room to add and subtract.
fn value_at(values: &[i64], v: u32) -> i128
    requires { v < length values.now }
    ensures value { result ≡ value_of values.now v }
    ensures low { neg_ℤ (pos (2 ^ 63)) ≤ℤ result }
    ensures high { result ≤ℤ pos (2 ^ 63 - 1) }
{
    i128::from(values[v as usize])
}

/// By how much a difference is greater than a literal allows.
pub fn excess(values: &[i64], literal: Diff) -> i128
    requires { IsTrue (is_literal (length values.now) literal) }
    ensures { result
        ≡ value_of values.now literal.x -ℤ (value_of values.now literal.y +ℤ literal.c) }
{
    let x = value_at(values, literal.x);
    let y = value_at(values, literal.y);
    x - (y + literal.c)
}

/// Whether values meet a literal.
pub fn is_met_by(values: &[i64], literal: Diff) -> bool
    requires { IsTrue (is_literal (length values.now) literal) }
    ensures { result ≡ meets values.now literal }
{
    excess(values, literal) <= 0
}

/// By how much the end of an edge has to be lowered, since its start is.
fn asked(frontier: &Frontier, values: &[i64], edge: Edge) -> i128
    requires as_long { length frontier.now ≡ length values.now }
    requires from_within { edge.from < length values.now }
    requires to_within { edge.to < length values.now }
    requires low { neg_ℤ (pos (2 ^ 66)) ≤ℤ edge.bound }
    requires high { edge.bound ≤ℤ pos (2 ^ 66) }
    requires lowered_low { pos 0 ≤ℤ (reach_of frontier.now edge.from).lowered }
    requires lowered_high { (reach_of frontier.now edge.from).lowered ≤ℤ pos (2 ^ 67) }
    ensures { result ≡ needed values.now frontier.now edge }
{
    let from_value = value_at(values, edge.from);
    let to_value = value_at(values, edge.to);
    let slack = from_value + edge.bound - to_value;
    frontier.at(edge.from).lowered - slack
}

/// Lowers the end of an edge as far as the edge asks. Says whether that would be the vertex `tail`,
/// which is not lowered.
fn lower_end(frontier: &mut Frontier, values: &[i64], tail: u32, edge: Edge) -> bool
    requires as_long { length frontier.old ≡ length values.now }
    requires from_within { edge.from < length values.now }
    requires to_within { edge.to < length values.now }
    requires low { neg_ℤ (pos (2 ^ 66)) ≤ℤ edge.bound }
    requires high { edge.bound ≤ℤ pos (2 ^ 66) }
    requires lowered_low { pos 0 ≤ℤ (reach_of frontier.old edge.from).lowered }
    requires lowered_high { (reach_of frontier.old edge.from).lowered ≤ℤ pos (2 ^ 67) }
    requires settled_stay { (reach_of frontier.old edge.to).rank ≢ UNSETTLED →
        needed values.now frontier.old edge ≤ℤ (reach_of frontier.old edge.to).lowered }
    ensures tail { let lowered = (reach_of frontier.old tail).lowered in
        OnTrue result ((edge.to ≡ tail) × (lowered <ℤ needed values.now frontier.old edge)) }
    ensures stays { OnTrue result (frontier.new ≡ frontier.old) }
    ensures tail_stays { OnFalse result (reach_of frontier.new tail ≡ reach_of frontier.old tail) }
    ensures relaxed { OnFalse result (Relaxes values.now edge frontier.old frontier.new) }
{
    let needed = asked(frontier, values, edge);
    let target = frontier.at(edge.to);
    if needed <= target.lowered {
        return false;
    }
    if edge.to == tail {
        return true;
    }
    frontier.lower(edge.to, needed, edge.from, edge.via);
    false
}

/// The edge by which a search came back to the tail of its goal, from a settled vertex.
#[derive(Clone, Copy)]
pub struct Closing {
    pub from: u32,
    pub via: u32,
}

/// A search for a potential of `edges` that also meets `goal`: `values` is one that does not.
#[derive(Clone, Copy)]
pub struct Search<'a> {
    pub edges: &'a Edges,
    pub values: &'a [i64],
    pub goal: Diff,
}

impl Search<'_> {
    ghost use Rattle.solve_order.specs.Search.{HasPotential, IsEdgeIn, IsRelaxingIn, MeetsListedIn};
    ghost use Rattle.solve_order.specs.Search.{MeetsRangeIn, ClosesIn, IsBetweenIn, IsRepairedIn};
    ghost use Rattle.solve_order.specs.Search.{IsClosedIn};

    /// The literal before place `via` as an edge.
    fn listed_edge(&self, via: u32) -> Edge
        requires potential { HasPotential self.now }
        requires some { 0 < via }
        requires within { via ≤ length self.now.edges.now.literals }
        ensures edge { IsEdgeIn self.now result }
        ensures via { result.via ≡ via }
        ensures literal { literal_at self.now.edges.now.literals (via - 1)
            ≡ record { x = result.to; y = result.from; c = result.bound } }
    {
        let literal = self.edges.literal(via as usize - 1);
        Edge {
            from: literal.y,
            to: literal.x,
            bound: literal.c,
            via,
        }
    }

    /// The least number of the range as an edge: 0 is at most a value and 2^63.
    fn low_edge(&self, from: u32) -> Edge
        requires potential { HasPotential self.now }
        requires within { from < length self.now.values.now }
        ensures edge { IsEdgeIn self.now result }
        ensures is { result ≡ record { from = from; to = 0; bound = pos (2 ^ 63); via = 0 } }
    {
        Edge {
            from,
            to: 0,
            bound: 1 << 63,
            via: 0,
        }
    }

    /// The greatest number of the range as an edge: a value is at most 0 and 2^63 - 1.
    fn high_edge(&self, to: u32) -> Edge
        requires potential { HasPotential self.now }
        requires within { to < length self.now.values.now }
        ensures edge { IsEdgeIn self.now result }
        ensures is { result ≡ record { from = 0; to = to; bound = pos (2 ^ 63 - 1); via = 0 } }
    {
        Edge {
            from: 0,
            to,
            bound: (1 << 63) - 1,
            via: 0,
        }
    }

    /// Lowers the end of an edge from the vertex that was settled last. Says whether it would be
    /// the tail of the goal.
    fn relax(&self, frontier: &mut Frontier, edge: Edge) -> bool
        requires potential { HasPotential self.now }
        requires edge { IsEdgeIn self.now edge }
        requires relaxing { IsRelaxingIn self.now frontier.old edge.from }
        ensures relaxing { IsRelaxingIn self.now frontier.new edge.from }
        ensures lowers { Lowers frontier.old frontier.new }
        ensures met { OnFalse result (MeetsEdge self.now.values.now frontier.new edge) }
        ensures closes { OnTrue result (ClosesIn self.now frontier.new edge.from edge.via) }
    {
        lower_end(frontier, self.values, self.goal.y, edge)
    }

    /// Relaxes the literals that lead from a vertex. Answers one that would lower the tail of the
    /// goal, if one does.
    fn relax_listed(&self, frontier: &mut Frontier, from: u32) -> Option<u32>
        requires potential { HasPotential self.now }
        requires relaxing { IsRelaxingIn self.now frontier.old from }
        ensures relaxing { IsRelaxingIn self.now frontier.new from }
        ensures lowers { Lowers frontier.old frontier.new }
        ensures met { IfNone result (MeetsListedIn self.now frontier.new from) }
        ensures closes { IfSome result (ClosesIn self.now frontier.new from) }
    {
        let mut via = self.edges.latest(from);
        while via > 0 {
            let edge = self.listed_edge(via);
            if self.relax(frontier, edge) {
                return Some(via);
            }
            via = self.edges.earlier(via as usize - 1);
        }
        None
    }

    /// Relaxes the least number of the range from a vertex. Says whether it would lower the tail of
    /// the goal.
    fn relax_low(&self, frontier: &mut Frontier, from: u32) -> bool
        requires potential { HasPotential self.now }
        requires relaxing { IsRelaxingIn self.now frontier.old from }
        ensures relaxing { IsRelaxingIn self.now frontier.new from }
        ensures lowers { Lowers frontier.old frontier.new }
        ensures met { OnFalse result (MeetsLow self.now.values.now frontier.new from) }
        ensures closes { OnTrue result (ClosesIn self.now frontier.new from 0) }
    {
        let edge = self.low_edge(from);
        self.relax(frontier, edge)
    }

    /// Relaxes the greatest number of the range of each vertex, from vertex 0. Says whether one
    /// would lower the tail of the goal.
    fn relax_high(&self, frontier: &mut Frontier) -> bool
        requires potential { HasPotential self.now }
        requires relaxing { IsRelaxingIn self.now frontier.old 0 }
        ensures relaxing { IsRelaxingIn self.now frontier.new 0 }
        ensures lowers { Lowers frontier.old frontier.new }
        ensures met { let values = self.now.values.now in
            OnFalse result (MeetsHighBelow (length values) values frontier.new) }
        ensures closes { OnTrue result (ClosesIn self.now frontier.new 0 0) }
    {
        let vertices = self.values.len() as u32;
        for to in 0..vertices {
            let edge = self.high_edge(to);
            if self.relax(frontier, edge) {
                return true;
            }
        }
        false
    }

    /// Relaxes the bounds of the range from a vertex. Says whether one would lower the tail of the
    /// goal.
    fn relax_range(&self, frontier: &mut Frontier, from: u32) -> bool
        requires potential { HasPotential self.now }
        requires relaxing { IsRelaxingIn self.now frontier.old from }
        ensures relaxing { IsRelaxingIn self.now frontier.new from }
        ensures lowers { Lowers frontier.old frontier.new }
        ensures met { OnFalse result (MeetsRangeIn self.now frontier.new from) }
        ensures closes { OnTrue result (ClosesIn self.now frontier.new from 0) }
    {
        if self.relax_low(frontier, from) {
            return true;
        }
        if from != 0 {
            return false;
        }
        if self.relax_high(frontier) {
            return true;
        }
        false
    }

    /// Relaxes all edges from the vertex that was settled last. Answers one that would lower the
    /// tail of the goal, if one does.
    fn relax_all(&self, frontier: &mut Frontier, from: u32) -> Option<u32>
        requires potential { HasPotential self.now }
        requires relaxing { IsRelaxingIn self.now frontier.old from }
        ensures relaxing { IsRelaxingIn self.now frontier.new from }
        ensures lowers { Lowers frontier.old frontier.new }
        ensures listed_met { IfNone result (MeetsListedIn self.now frontier.new from) }
        ensures range_met { IfNone result (MeetsRangeIn self.now frontier.new from) }
        ensures closes { IfSome result (ClosesIn self.now frontier.new from) }
    {
        if let Some(via) = self.relax_listed(frontier, from) {
            return Some(via);
        }
        if self.relax_range(frontier, from) {
            return Some(0);
        }
        None
    }

    /// Lowers the first variable of the goal until it meets the goal.
    fn begin(&self, frontier: &mut Frontier)
        requires potential { HasPotential self.now }
        requires fits { IsTrue (is_literal self.now.edges.now.variables self.now.goal) }
        requires apart { self.now.goal.x ≢ self.now.goal.y }
        requires broken { ¬ Meets self.now.values.now self.now.goal }
        requires fresh { frontier.old ≡ replicate (length self.now.values.now) unreached }
        ensures { IsBetweenIn self.now frontier.new }
    {
        let lowered = excess(self.values, self.goal);
        frontier.lower(self.goal.x, lowered, self.goal.y, 0);
    }

    /// Searches for a potential that meets the goal too, by lowering the variables that have to be.
    ///
    /// The frontier then says by how much; or the answer is the edge that closes a negative cycle.
    pub fn run(&self, frontier: &mut Frontier) -> Option<Closing>
        requires potential { HasPotential self.now }
        requires fits { IsTrue (is_literal self.now.edges.now.variables self.now.goal) }
        requires apart { self.now.goal.x ≢ self.now.goal.y }
        requires broken { ¬ Meets self.now.values.now self.now.goal }
        requires fresh { frontier.old ≡ replicate (length self.now.values.now) unreached }
        ensures repaired { IfNone result (IsRepairedIn self.now frontier.new) }
        ensures closed { IfSome result (IsClosedIn self.now frontier.new) }
    {
        self.begin(frontier);
        while let Some(from) = frontier.settle() {
            if let Some(via) = self.relax_all(frontier, from) {
                return Some(Closing { from, via });
            }
        }
        None
    }
}
