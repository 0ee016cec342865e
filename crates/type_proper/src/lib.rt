//! Typed schemas stay proper, and their literals are values.
//!
//! | module | holds |
//! |---|---|
//! | `laws` | the laws on what stays proper, each the contract of a function that does nothing |
//! | `trees` | the literals of expressions, sets, policies and initialisers |
//! | `schemas` | those of models and commands |
//!
//! A contract knows that a number of the code is in its range where the code reads it, and that a
//! text is one where the code takes it. So the functions of `trees` and `schemas` go over whole trees
//! and read each literal; they answer nothing.
#![tactic(auto)]

mod laws;
mod schemas;
mod trees;

pub use laws::{
    commands_keep_steady, options_are_shown, resolved_fit, scripts_are_typed, specs_are_steady,
    steps_are_steady,
};
pub use schemas::{commands_have_literals, models_have_literals};
