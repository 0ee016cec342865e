//! Initialisers evaluated, and how often.
//!
//! | module | holds |
//! |---|---|
//! | `evaluations` | `Evaluations`, a count that `value_counted` alone makes rise |
//! | `values` | `value_counted`, which evaluates |
#![tactic(auto)]

mod evaluations;
mod values;

pub use evaluations::Evaluations;
pub use values::value_counted;
