//! Specifications as schemas, and commands and scripts as typed ones, by every rule; or the first
//! fault and its place.
//!
//! `type_specs` and `type_commands` resolve them by every rule but those on sizes. Here each policy
//! and initialiser is counted as the formula that it becomes, and none may have more than 20,000
//! nodes.
//!
//! | module | holds |
//! |---|---|
//! | `places` | the places of the policies and initialisers of a tree, in the order of the text |
//! | `sizes` | `Sizes`, which counts policies and initialisers over a schema |
//! | `small` | that policies and initialisers are within the limit, in the order of the text |
//! | `start` | the schema of start databases |
//! | `steps` | `Steps`, commands and the schemas between them |
//! | `specs` | `type_spec` |
//! | `commands` | `step_command` |
//! | `scripts` | `type_script` |
//! | `laws` | how large the formulas of obligations are: laws, no code |
#![tactic(auto)]

mod commands;
mod laws;
mod places;
mod scripts;
mod sizes;
mod small;
mod specs;
mod start;
mod steps;

pub use commands::step_command;
pub use laws::{
    allowed_is_counted, formulas_are_small, reach_is_counted, typed_formulas_are_small,
    worked_removed,
};
pub use scripts::type_script;
pub use specs::type_spec;
