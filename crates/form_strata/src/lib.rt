//! The sort graph of a formula: an order of the sorts along which every edge goes, or a cycle.
//!
//! - `visit`: what a walk comes to.
//! - `term_edges`: the edges of terms.
//! - `edges`: the edges of the graph, from a walk over the formula.
//! - `places`: the places in a graph of the edges to each vertex.
//! - `order`: an order or a cycle of a graph.
//! - `sort_graph`: both together.
//! - `answer`: `Strata`, what is found.
#![tactic(auto)]

mod answer;
mod edges;
mod order;
mod places;
mod sort_graph;
mod term_edges;
mod visit;

pub use answer::Strata;
pub use sort_graph::strata;
