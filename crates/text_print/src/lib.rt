//! The canonical spelling of specifications, scripts and policies.
//!
//! | module | holds |
//! |---|---|
//! | `printer` | `Printer`, a text that grows |
//! | `exprs` | expressions and sets |
//! | `models` | policies, types, fields, models and specifications |
//! | `commands` | commands and scripts |
//! | `texts` | the three printing calls |
//! | `spelling_laws` | what holds of canonical spellings |
//!
//! `specs/` says how each tree is spelled: as lexemes and the blanks between them. The canonical
//! spelling of a tree spells that tree, offsets aside, within the limits that any spelling of it
//! keeps. No spelling of an expression, a set or a policy has fewer tokens. The same tokens at other
//! places spell the same tree, offsets aside.
#![tactic(auto)]

mod commands;
mod exprs;
mod models;
mod printer;
mod spelling_laws;
mod texts;

pub use printer::Printer;
pub use spelling_laws::{
    layout_means_nothing, one_tree_elsewhere, parentheses_are_needed, policies_are_reprinted,
    printed_texts_spell, spelled_elsewhere, texts_are_reprinted,
};
pub use texts::{print_policy, print_script, print_spec};
