//! The trees of databases' texts, how tokens spell them, and for which cause tokens are refused.
//!
//! | module | holds |
//! |---|---|
//! | `literals` | `Lit`, a value as it is written; `WrittenId`, an id at its place |
//! | `tables` | `TableLit` with its records and their fields |
//! | `copied` | copies of these trees, by `Copied` of text_tree |
//! | `laws` | each list of tokens has trees or is refused, for one cause at one place |
//!
//! Each tree keeps the byte offset of its first token, and each name and id its own.
//! `specs/Grammar.antt` says which tokens spell a tree, and `specs/Causes.antt` which causes stand in
//! a list of tokens, and that the first of them refuses it.
#![tactic(auto)]

mod copied;
mod laws;
mod literals;
mod tables;

pub use laws::one_data_answer;
pub use literals::{Lit, WrittenId};
pub use tables::{FieldLit, RecordLit, TableLit};
