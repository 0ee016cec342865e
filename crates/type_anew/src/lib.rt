//! Schemas written as trees again, and schemas numbered anew.
//!
//! A script never gives a number twice, so the numbers of its last schema have gaps and rise from
//! script to script. [`renumber`] gives the same schema numbered as that of a specification:
//! statics, models and fields from 0, in its order, with no added field. [`spec_of`] gives the tree
//! that a schema is written as; typed again, it is that schema numbered anew.
//!
//! | module | holds |
//! |---|---|
//! | `names` | the names of what has a number in a schema |
//! | `exprs` | expressions and sets, which hold each other |
//! | `models` | policies, types, fields and models |
//! | `specs` | `spec_of` |
//! | `anew` | `renumber` |
//! | `written_laws` | the trees that typed schemas are written as |
//! | `renumbered_laws` | what schemas, databases and policies numbered anew are and mean |
//! | `retyped_laws` | what typing gives of the trees that schemas are written as |
//! | `retyping_laws` | the tree that a schema is written as is typed again |
//!
//! `specs/Trees.antt` and `specs/Specs.antt` say which tree a schema is written as,
//! `specs/RenumberedAnew.antt` what a schema numbered anew is, but for its policies, and
//! `specs/Policies.antt` what a policy numbered anew is. What a database numbered anew is stands in
//! data_records.
#![tactic(auto)]

mod anew;
mod exprs;
mod models;
mod names;
mod renumbered_laws;
mod retyped_laws;
mod retyping_laws;
mod specs;
mod written_laws;

pub use anew::renumber;
pub use renumbered_laws::{databases_move, policies_mean_the_same};
pub use retyped_laws::{
    commands_keep_told, counts_stay, policies_come_anew, rights_stay, schemas_come_anew,
    scripts_are_told, specs_are_told,
};
pub use retyping_laws::{
    commands_keep_room, scripts_keep_room, specs_have_room, trees_are_resolved, trees_are_typed,
};
pub use specs::spec_of;
pub use written_laws::{commands_come_back, specs_come_back, written_is_stripped};
