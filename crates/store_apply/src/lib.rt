//! What is stored at first, and what an accepted script makes of what is stored.
//!
//! | module | holds |
//! |---|---|
//! | `after` | [`applied`]: what a script makes of what is stored; [`last_schema`]: the one it ends with |
//! | `first` | [`initial`] and [`empty`]: what is stored at first |
//! | `settling` | [`settle`]: a schema numbered anew, as it is stored |
//! | `notes` | the notes of the rights that a script weakens |
//! | `names` | the names of the models and fields that a command names |
//! | `laws` | which schemas may be settled, and what is stored after a script |
#![tactic(auto)]

mod after;
mod first;
mod laws;
mod names;
mod notes;
mod settling;

pub use after::{applied, last_schema};
pub use first::{empty, initial};
pub use laws::{applied_one, applied_rights, script_settles, scripts_start, specs_settle};
pub use settling::settle;
