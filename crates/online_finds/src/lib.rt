//! The models on which initialisers have a `Find`.
//!
//! | module | holds |
//! |---|---|
//! | `finds` | `finds_in`, the models of an initialiser |
#![tactic(auto)]

mod finds;

pub use finds::finds_in;
