//! The verdict on a formula over finite structures.
//!
//! - `verdict`: `Verdict`.
//! - `trying`: structures over the terms of a formula.
//! - `stratified`: formulas whose sort graph has no cycle.
//! - `shallow_terms`: formulas whose sort graph has a cycle.
//! - `deciding`: [`decide`].
#![tactic(auto)]

mod deciding;
mod shallow_terms;
mod stratified;
mod trying;
mod verdict;

pub use deciding::decide;
pub use verdict::Verdict;
