//! The structures of what a search finds.
//!
//! - `found`: `Found`, what a search found of ground terms.
//! - `making`: [`make_structure`].
//! - `classes`: the numbers that the terms of a sort have.
//! - `picks`: the elements of the variables that a formula begins with.
//! - `places`: the elements that terms name.
//! - `relations`: the pairs of set relations.
//! - `rows`: the values of functions.
//! - `structure`: the structure of what was found.
//! - `tellers`: the terms that tell of a function.
//! - `values`: what functions have at elements.
#![tactic(auto)]

mod classes;
mod found;
mod making;
mod picks;
mod places;
mod relations;
mod rows;
mod structure;
mod tellers;
mod values;

pub use found::Found;
pub use making::make_structure;
