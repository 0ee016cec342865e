//! Difference constraints over whole numbers in 64 bits, as a theory under the clause solver.
//!
//! A literal says `x - y <= c`. Variable 0 is zero, and all others lie from -2^63 to 2^63 - 1.
//! The literals are the edges of a graph, from `y` to `x`, and so are the ends of the range, from
//! and to variable 0. The literals have no model exactly where the graph has a negative cycle.
//!
//! `Order` keeps a potential, which is a model. Where a new literal breaks it, the variables that
//! have to be lower are lowered, the one that has to be lowered most first, as in Dijkstra's
//! algorithm: the potential gives each edge a length that is not negative. Either that ends in a
//! potential that meets the new literal too, or it comes back to the literal's other variable, by a
//! negative cycle whose literals are the conflict (Cotton and Maler, 2006). A potential of some
//! literals is one of fewer, so to take literals back costs nothing but the links of their edges.
//!
//! - `diff`: the literal `Diff`.
//! - `order`: `Order`, the theory.
//! - `repair`: one literal more: the potential repaired, or a conflict.
//! - `search`: how far each variable has to be lowered.
//! - `conflict`: the literals of the negative cycle that a search closes.
//! - `edges`: the literals as a graph, each linked with the one before it from the same variable.
//! - `frontier`, `permutation`: what a search has reached, with a heap of what waits.
//! - `lowering`: the values after a search.
#![tactic(auto)]

mod conflict;
mod diff;
mod edges;
mod frontier;
mod lowering;
mod order;
mod permutation;
mod repair;
mod search;

pub use diff::Diff;
pub use order::Order;
