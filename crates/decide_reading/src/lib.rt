//! What a search found, read: in columns, and by the clauses of congruence that it breaks.
//!
//! - `columns`: `Columns`.
//! - `noun`: what may be equal or compared.
//! - `pairs`: [`Pairs`].
//! - `check`: [`check_facts`].
//! - `ranges`: what terms may have.
//! - `finding`: [`found_by`].
//! - `classes`: the classes of arguments.
//! - `keys`: what the values of terms and of pairs are functions of.
//! - `firsts`: the first place of each key.
//! - `broken_terms`, `broken_pairs`: the terms and the pairs that break a clause.
//! - `told`: whether what was found breaks a clause.
//! - `few`: the clauses of few words that it breaks.
//! - `broken`: [`broken_congruences`].
#![tactic(auto)]

mod broken;
mod broken_pairs;
mod broken_terms;
mod check;
mod classes;
mod columns;
mod few;
mod finding;
mod firsts;
mod keys;
mod noun;
mod pairs;
mod ranges;
mod told;

pub use broken::broken_congruences;
pub use check::{Source, check_facts};
pub use columns::Columns;
pub use finding::found_by;
pub use pairs::Pairs;
pub use ranges::range_at;
