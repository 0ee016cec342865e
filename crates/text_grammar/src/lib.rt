//! Readers for the forms of a grammar, what holds of them once and for all, and for which cause a
//! list of tokens is refused.
//!
//! `specs/Reading.antt` says what a form reads at the front of a list of pieces. The proofs show,
//! for every form whose choices are decided by the next token, that its reader reads what spells
//! it, and stands where it is refused at the first piece that does not go on with it.
//! `specs/Causes.antt` says which causes stand in a list of tokens, and that the first of them
//! refuses it.
//!
//! | module | holds |
//! |---|---|
//! | `laws` | the laws of readers |
//! | `cause_laws` | each list has a tree or is refused, for one cause at one place |
#![tactic(auto)]

mod cause_laws;
mod laws;

pub use cause_laws::{one_script_answer, one_spec_answer};
pub use laws::{first_tokens_begin, one_tree, script_answers, spec_answers};
