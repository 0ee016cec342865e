//! Commands and scripts over schemas: from trees to typed scripts, or the first fault.
//!
//! | module | holds |
//! |---|---|
//! | `script_err` | `ScriptErr`, why a script has no typed script |
//! | `thing` | `Thing`, what a command removes |
//! | `uses` | what trees and types use |
//! | `users` | who uses a thing |
//! | `parts` | names and parts of commands |
//! | `resolve` | what a command is over the schema before it |
//! | `change` | `Change`, what a command changes of one model |
//! | `removed` | fields that commands remove |
//! | `changes` | what commands change of a schema |
//! | `after` | the schema after a command |
//! | `laws` | laws over the definitions |
#![tactic(auto)]

mod after;
mod change;
mod changes;
mod laws;
mod parts;
mod removed;
mod resolve;
mod script_err;
mod thing;
mod users;
mod uses;

pub use after::schema_after;
pub use change::Change;
pub use laws::{commands_are_resolved, worked_commands};
pub use resolve::resolved;
pub use script_err::ScriptErr;
pub use thing::Thing;
pub use users::first_user;
