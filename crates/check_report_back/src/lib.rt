//! Printed witnesses, read back, and that the text of a witness tells it.
//!
//! | module | holds |
//! |---|---|
//! | `scripts` | that the names of a script are names |
//! | `named` | what a name tells: a model, a static, a field |
//! | `access` | a right on a target, at a command |
//! | `heads` | the lines before the database |
//! | `tables` | the tables of the database |
//! | `there` | whether what the parts of a witness name is there |
//! | `witnesses` | `read_witness` |
//! | `laws` | what is read of a witness's text is that witness; models are known by number |
//! | `told_laws` | the text of a witness tells it |
//!
//! What is read is printed again and compared, so that a text is read exactly where it is the
//! printed text of a witness. `specs/Back.antt` says what stands at the front of a text, and
//! `specs/Told.antt` what a witness of a script is.
#![tactic(auto)]

mod access;
mod heads;
mod laws;
mod named;
mod scripts;
mod tables;
mod there;
mod told_laws;
mod witnesses;

pub use laws::{schemas_are_numbered, witnesses_come_back};
pub use scripts::scripts_have_names;
pub use told_laws::{built_stand_in_order, witness_texts_tell};
pub use witnesses::read_witness;
