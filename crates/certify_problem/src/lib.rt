//! The clauses of a formula, of which certificates are.
//!
//! - `tables`: all clauses on facts, of a table and on the order of numbers.
//! - `equalities`: the equalities of which clauses and instances speak.
//! - `listed`: clauses and atoms in memory.
//! - `problems`: [`clauses_over`], the clauses of a formula over ground terms.
//! - `grounded`: [`Grounded`], what a formula is grounded to.
//! - `formulas`: [`ground_formula`], the clauses of a formula.
//! - `laws`: structures give lawful assignments.
#![tactic(auto)]

mod equalities;
mod formulas;
mod grounded;
mod laws;
mod listed;
mod problems;
mod tables;

pub use formulas::ground_formula;
pub use grounded::Grounded;
pub use laws::{structures_give_assignments, variables_are_below};
pub use problems::clauses_over;
