//! Certificates of scripts.
//!
//! | module | holds |
//! |---|---|
//! | `rechecked` | [`Rechecked`], what the check of a certificate finds |
//! | `formulas` | [`Formulas`], what makes the formulas of obligations |
//! | `grounding` | [`Grounding`], the clauses of obligations |
//! | `parts` | the part of one obligation |
//! | `scripts` | [`recheck_script`] |
//! | `laws` | what a certificate shows |
#![tactic(auto)]

mod formulas;
mod grounding;
mod laws;
mod parts;
mod rechecked;
mod scripts;

pub use formulas::Formulas;
pub use grounding::Grounding;
pub use laws::certified_are_secure;
pub use rechecked::Rechecked;
pub use scripts::recheck_script;
