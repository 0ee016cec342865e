//! The store of the program: a database file, which is opened at the first call.
//!
//! | module | holds |
//! |---|---|
//! | `keeper` | [`FileKeeper`] |
//! | `database` | the file: whether it is there, its opening and its closing |
#![tactic(auto)]

mod database;
mod keeper;

pub use keeper::FileKeeper;
