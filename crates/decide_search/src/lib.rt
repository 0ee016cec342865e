//! The search for a table by which a formula is read over ground terms.
//!
//! - `mixture`: [`search_mixed`], over variables that may be equalities of terms or differences of
//!   numbers, and [`Mixture`], what it finds.
//! - `tabled`: `Tabled`, what a search gives.
//! - `sides`: what values are to the decision procedures.
//! - `atoms`: facts as equalities of terms and differences of numbers.
//! - `halves`: equalities of numbers, as their halves.
//! - `extent`: whether the clauses of congruence are few.
//! - `listing`: the clauses on facts that a search begins with.
//! - `solving`: the search for values that meet clauses.
//! - `texts`: the texts of facts.
//! - `problem`: clauses for the solver.
//! - `spares`: texts for classes that have none of the formula's.
//! - `unnamed`: the classes of records that no term names.
//! - `reading`: what was found, read from what the solver found.
//! - `joining`: classes that nothing keeps apart, as one.
//! - `round`: what one round of a search gives.
//! - `search`: [`find_table`].
#![tactic(auto)]

mod atoms;
mod extent;
mod halves;
mod joining;
mod listing;
mod mixture;
mod problem;
mod reading;
mod round;
mod search;
mod sides;
mod solving;
mod spares;
mod tabled;
mod texts;
mod unnamed;

pub use mixture::{Mixture, search_mixed};
pub use search::find_table;
pub use tabled::Tabled;
