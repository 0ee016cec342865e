//! Formulas whose verdicts are known.

mod congruence;
mod cycles;
mod limits;
mod rows;
mod signatures;
mod sizes;
mod verdicts;
