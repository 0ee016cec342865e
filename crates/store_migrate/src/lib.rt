//! Scripts on databases.
//!
//! | module | holds |
//! |---|---|
//! | `migrations` | a database widened for a script, and after commands of it |
//! | `commands` | what one command changes |
//!
//! A database is copied once, and then each command changes the copy where it stands.
#![tactic(auto)]

mod commands;
mod migrations;

pub use migrations::{migrate, prefix, widen};
