//! A clause solver over a decision procedure, proved once for each `Theory`.
//!
//! Clauses are over numbered variables. A variable may be an atom: then it stands for a literal of
//! the theory where it is true, and for another where it is false. A literal that alone can meet
//! its clause is made true, else a variable is decided. The theory refuses a literal as soon as the
//! literals of the atoms that are set have no model. From each conflict a clause is learned (that
//! of the first unique implication point: Marques-Silva and Sakallah, 1999; Zhang et al., 2001),
//! and the search goes back over all decisions that had no part in it.
//!
//! - `solver`: `Solver`, what callers see, and `Answer`.
//! - `learner`: the steps of a search, with its modules `scanning` (what is met next), `explaining`
//!   (what is learned from a conflict), `backtracking` (what is taken back) and `forgetting` (which
//!   learned clauses are kept).
//! - `reason`: the clause by which a literal was set.
//! - `context`: the clauses, the theory and the trail in step.
//! - `progress`: where a search stands.
//! - `restarts`: when it begins anew.
//! - `learned`: the clauses that were learned.
//! - `activities`: which of them had part in late conflicts.
//! - `allowance`: how many of them are kept.
//! - `preferences`: which variable is decided next, and how.
//! - `heap`: variables by their scores.
//! - `marking`: which literals of the trail a conflict comes from.
//! - `watches`: which clauses are looked at where a literal becomes false.
//! - `looking`: a look at such a clause.
//! - `units`: the scan of all clauses for one that is in conflict or a unit.
//! - `atoms`: which variables stand for literals of the theory.
//! - `asserting`: how a literal of the trail is asserted at the theory.
//! - `trail`: the literals that are true so far, and which of them were decided.
//! - `clauses`: clauses in one flat list.
//! - `room`: pushes for which memory is there.
//! - `limits`: how many variables and clauses there are at most.
//! - `literal`: `PLit`, a variable with a sign.
#![tactic(auto)]

mod activities;
mod allowance;
mod asserting;
mod atoms;
mod clauses;
mod context;
mod heap;
mod learned;
mod learner;
pub mod limits;
mod literal;
mod looking;
mod marking;
mod preferences;
mod progress;
mod reason;
mod restarts;
mod room;
mod solver;
mod trail;
mod units;
mod watches;

pub use atoms::Atoms;
pub use clauses::Clauses;
pub use literal::PLit;
pub use solver::{Answer, Prop, Solver};
