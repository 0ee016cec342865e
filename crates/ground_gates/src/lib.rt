//! Gates, that is `and` and `or` over literals as shared nodes, and clauses that say that one is true.
//!
//! - `gate`: `Gate`, whose parts are numbers of earlier gates, and `Literal`.
//! - `gates`: `Gates`, which numbers gates and shares equal ones.
//! - `encoding`: `encode`, the clauses of a gate.
//! - `conjunctions`: the clauses that a gate, or all of some gates, are true.
//! - `disjunctions`: the clause that one of two gates is true.
//! - `inputs`: inputs as parts of disjunctions.
//! - `parts`: `Parts`, what a disjunction is made of so far.
//! - `board`: `Board`, the clauses and the variables so far.
//! - `names`: `Names`, which variable stands for which gate or input.
//! - `literals`: variables with signs.
//! - `source`: the gates that become clauses.
//! - `uses`: how often a gate is a part of others.
//!
//! The clauses are few: variables of their own stand for gates with parts that are a part of several
//! others, for conjunctions in disjunctions, for inputs of several facts there, and for what is left
//! where a clause has taken many gates apart (Plaisted and Greenbaum 1986; Tseitin 1968).
#![tactic(auto)]

mod board;
mod conjunctions;
mod disjunctions;
mod encoding;
mod gate;
mod gates;
mod inputs;
mod literals;
mod names;
mod parts;
mod source;
mod uses;

pub use encoding::{Encoding, encode};
pub use gate::{Gate, Literal};
pub use gates::Gates;
