//! The door: sessions by principal over what is stored.
//!
//! | module | holds |
//! |---|---|
//! | `bad` | where a line is bad that is no request |
//! | `creating`, `deleting`, `writing` | requests that change records |
//! | `door` | `Door`: what is stored and the sessions; `enter`, `close`, `renew` |
//! | `door_err` | `DoorErr`, why a line has no reply |
//! | `keeping` | calls of the store |
//! | `laws` | what holds of every step and every migration |
//! | `looks` | requests that look at records |
//! | `migrate`, `moved` | a script that is carried out on what the door holds; sessions then |
//! | `sessions` | `Sessions`, of which each is found by its name |
//! | `step` | what a line is answered |
#![tactic(auto)]

mod bad;
mod creating;
mod deleting;
mod door;
mod door_err;
mod keeping;
mod laws;
mod looks;
mod migrate;
mod moved;
mod sessions;
mod step;
mod writing;

pub use door::Door;
pub use door_err::DoorErr;
pub use laws::{entering_is_opening, migrations_are_secure, no_session_runs_ahead};
