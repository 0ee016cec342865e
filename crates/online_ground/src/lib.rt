//! What the initialisers of a script give at a record, on the database as it stands.
//!
//! | module | holds |
//! |---|---|
//! | `grounds` | [`Grounds`], where initialisers are evaluated |
//! | `slow` | which records are slow |
//! | `values` | what initialisers give at a record |
#![tactic(auto)]

mod grounds;
mod slow;
mod values;

pub use grounds::Grounds;
pub use slow::{is_slow, slow_names};
pub use values::added_values;
