//! The formulas of obligations.
//!
//! | module | holds |
//! |---|---|
//! | `duties` | the formula of an obligation |
//! | `gains` | that of an obligation against a gain |
//! | `flows` | that of an obligation against a leak |
//! | `rights` | whether a principal has a right at a command |
//! | `policies` | the policy in force at a command |
//! | `uses` | the use of a field that an obligation is about, and whether it reads a record's |
//! | `numbered` | `Numbered`, a script with its numbers |
//! | `arenas` | the arena in which formulas are written, and whether it has room |
//! | `limits` | how large a formula may be |
#![tactic(auto)]

mod arenas;
mod duties;
mod flows;
mod gains;
pub mod limits;
mod numbered;
mod policies;
mod rights;
mod uses;

pub use duties::duty_formula;
pub use flows::flow_formula;
pub use gains::gain_formula;
pub use numbered::Numbered;
pub use policies::policy_in_force;
