//! Where a specification and its database are kept.
//!
//! A [`Keeper`] holds a [`Stored`] or nothing: a schema and a database over it, the version, and a
//! [`Note`] of each right that a migration weakened. It counts the faults that it meets and may tell
//! its content to contracts. The program is written over this trait alone.
//!
//! - `stored`: [`Stored`] and [`Note`].
//! - `keeper`: the trait, its calls and its errors.
//! - `memory_keepers`: keepers that tell their content, one that fails on purpose ([`MemKeeper`])
//!   and one that never fails ([`SureKeeper`]).
//! - `refusing_keepers`: keepers for a store that could not be opened ([`FailingKeeper`],
//!   [`OutOfMemoryKeeper`]).
//! - `held`, `records`, `calls`: what keepers in memory are made of.
//! - `limits`: the last version.
//! - `laws`: a schema that is numbered anew may be stored.
#![tactic(auto)]

mod calls;
mod held;
mod keeper;
mod laws;
pub mod limits;
mod memory_keepers;
mod records;
mod refusing_keepers;
mod stored;

pub use keeper::{KeepCall, KeepErr, Keeper};
pub use laws::renumbered_are_settled;
pub use memory_keepers::{MemKeeper, SureKeeper};
pub use refusing_keepers::{FailingKeeper, OutOfMemoryKeeper};
pub use stored::{Note, Stored};
