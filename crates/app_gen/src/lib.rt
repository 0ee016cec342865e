//! The generator: a specification of as many fields as are asked for, and two scripts that change
//! the policies of each, as texts. They show how the check does on scripts that grow.
//!
//! | module | holds |
//! |---|---|
//! | `policies` | the policies of a field |
//! | `texts` | the specification and the scripts |
//!
//! `specs/Generated.antt` says what each text is.
#![tactic(auto)]

mod policies;
mod texts;

pub use texts::{loosened_text, script_text, spec_text};
