//! What the declared weakenings of a script newly allow: definitions and laws.
//!
//! A weakening is what it would be as an update that nobody declared: it newly allows somebody
//! something exactly where the obligation of that update would fail.
//!
//! | module | holds |
//! |---|---|
//! | `laws` | laws over the definitions |
//! | `scripts` | a script with its weakenings taken for updates |
//!
//! | definitions | say |
//! |---|---|
//! | `specs/Undeclared.antt` | a script with its weakenings taken for updates, and the list of weakenings |
//! | `specs/Weakened.antt` | whom a weakening newly allows what |
//! | `specs/Listed.antt` | which the weakenings of a script are |
//! | `specs/Laws.antt` | what weakenings have to do with obligations |
#![tactic(auto)]

mod laws;
mod scripts;

pub use laws::{undeclared_are_scripts, weakenings_are_listed, weakenings_fail_alike};
pub use scripts::{is_weakening, undeclared};
