//! Doubly linked lists over numbered nodes, in flat memory that is taken once.
//!
//! [`Rings`] has a number of lists and a number of nodes; a node is in at most one list. Each call
//! but the constructor takes constant time and no memory.
//!
//! - `rings`: [`Rings`], which contracts see as lists of nodes.
//! - `links`: which number comes next to which, both ways.
#![tactic(auto)]

mod links;
pub mod rings;
#[cfg(test)]
mod tests;

pub use rings::Rings;
