//! The text of what is stored.
//!
//! | module | holds |
//! |---|---|
//! | `notes` | the lines of notes |
//! | `show` | [`print_stored`] |
//!
//! `specs/Texts.antt` says what each text is.
#![tactic(auto)]

mod notes;
mod show;

pub use show::print_stored;
