//! The check of a script: the first of its obligations that is not cleared, or that all are.
//!
//! | module | holds |
//! |---|---|
//! | `formulas` | `Formulas`, what makes the formulas of obligations |
//! | `known` | formulas that were cleared |
//! | `outcome` | `Outcome`, what a script comes to |
//! | `witnesses` | the witness that a structure stands for |
//! | `obligations` | what one obligation comes to |
//! | `scripts` | `check_script` |
//! | `laws` | laws over the definitions |
//!
//! | definitions | say |
//! |---|---|
//! | `specs/FailsBy.antt` | by which witness an obligation fails |
//! | `specs/Picked.antt` | the witness that a structure stands for |
//! | `specs/Outcomes.antt` | cleared obligations, and the outcomes of a script |
//! | `specs/Sound.antt` | what the outcomes say of the script |
//! | `specs/Agree.antt` | that all outcomes say the same of how it stands |
//! | `specs/Safe.antt`, `specs/Views.antt` | formulas that are safe; the plain data of outcomes |
#![tactic(auto)]

mod formulas;
mod known;
mod laws;
mod obligations;
mod outcome;
mod scripts;
mod witnesses;

pub use formulas::Formulas;
pub use known::Known;
pub use laws::{
    accepted_are_secure, cleared_do_not_fail, decidable_are_settled, leaks_are_real,
    outcomes_agree, picked_witnesses_fail,
};
pub use obligations::{models_of_cycle, unsettled};
pub use outcome::Outcome;
pub use scripts::check_script;
