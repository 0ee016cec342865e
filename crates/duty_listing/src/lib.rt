//! The obligations of a script: what has to be shown of it, command by command.
//!
//! | module | holds |
//! |---|---|
//! | `principals` | [`kinds`], the kinds of principals at a command |
//! | `uses` | [`uses_in`], the fields that an initialiser uses |
//! | `listing` | [`duties`], the obligations in order |
#![tactic(auto)]

mod listing;
mod principals;
mod uses;

pub use listing::duties;
pub use principals::kinds;
pub use uses::{Use, uses_in};
