//! The terms over which a formula is instantiated, their counts, and what instantiation keeps.
//!
//! - `limits`: how many terms and nodes an instantiation has at most.
//! - `laws`: what holds of the formulas, the structures and the terms of any signature.
#![tactic(auto)]

mod laws;
pub mod limits;

pub use laws::{
    examples_are_counted, needed_is_least, passing_is_cut, passing_is_whole, reading_is_passing,
    satisfied_passes, stratified_is_closed, stratified_is_complete, terms_are_counted,
    terms_are_listed,
};
