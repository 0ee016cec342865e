//! Names and texts.
//!
//! | module | holds |
//! |---|---|
//! | `limits` | the limits of specifications and scripts |
//! | `names` | `Name`, of statics, models, fields and variables |
//! | `rooms` | where the bytes of a name lie |
//! | `texts` | `Txt`, a text literal's value or a word of a command line |
//!
//! Contracts see a name or a text as its bytes.
//! Definitions have the limits by the names in `specs/Limits.antt`.
#![tactic(auto)]

pub mod limits;
mod names;
mod rooms;
#[cfg(test)]
mod tests;
mod texts;

pub use names::Name;
pub use texts::Txt;
