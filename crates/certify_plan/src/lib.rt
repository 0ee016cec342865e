//! A search for a short certificate, by which one is written.
//!
//! Nothing rests on what it finds: each line is tried before it is written (certify_making).
//!
//! - `plan`: [`Plan`], the tree that was found, and [`find_plan`].
//! - `nodes`: the parts of trees.
//! - `trail`: what holds at a point of the search, and what the procedures were told of it.
//! - `blame`: why what holds has no model.
//! - `watches`: the clauses that are looked at where a literal becomes false.
//! - `order`: which variable is decided next.
//! - `marks`: literals that cannot hold together.
//! - `search`: the search's state, and how a literal is set and taken back.
//! - `propagate`: what follows from what holds.
//! - `resolve`: what is learned where something cannot hold.
//! - `running`: the search as a whole.
#![tactic(auto)]

mod blame;
mod marks;
mod nodes;
mod order;
mod plan;
mod propagate;
mod resolve;
mod running;
mod search;
#[cfg(test)]
mod tests;
mod trail;
mod watches;

pub use plan::{Plan, find_plan};
