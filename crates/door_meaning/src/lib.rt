//! What a line of a request is answered: definitions, and replies with their texts.
//!
//! `specs/Step.antt` says what the door does at each line (`DoorStep`), and over a list of lines
//! (`DoorRun`).
//!
//! | module | holds |
//! |---|---|
//! | `session` | `Session` |
//! | `reply` | `Reply` and its parts |
//! | `print` | the text of a reply |
//! | `put` | a reply, put out |
//! | `limits` | how long a line may be, how much may be read, how many sessions there may be |
//! | `laws` | limits as numbers |
#![tactic(auto)]

mod laws;
pub mod limits;
mod print;
mod put;
mod reply;
mod session;

pub use laws::door_limits_are;
pub use print::print_reply;
pub use put::{PutErr, put_reply};
pub use reply::{Denial, Fullness, Reply};
pub use session::Session;
