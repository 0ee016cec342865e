//! What each declared weakening of a script newly allows.
//!
//! | module | holds |
//! |---|---|
//! | `effect` | `Effect`, what a weakening comes to |
//! | `weakenings` | the weakenings of a script |
//! | `effects` | `impact` |
//!
//! | definitions | say |
//! |---|---|
//! | `specs/Effects.antt` | what an effect says of its weakening |
#![tactic(auto)]

mod effect;
mod effects;
mod weakenings;

pub use effect::{Effect, Shown};
pub use effects::impact;
