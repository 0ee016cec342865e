//! What a formula at ground terms speaks of, and all clauses about it: those of a table, and those
//! that its gate is true.
//!
//! - `laws`: what holds of the instances of any formula and of any table.
//! - `words`: `Words`, a vocabulary by numbers of ground terms, and `PairNode`.
//! - `fields`: the functions at values of which inputs speak.
//! - `telling`: which terms name elements, and which have other values.
//! - `checks`: whether an input speaks of a vocabulary.
//! - `pairs`: the set relations of which inputs speak.
//! - `spoken`: the vocabulary of instances.
//! - `facts`: facts by numbers of ground terms, and clauses on them.
//! - `terms`: the clauses of a table on one term.
//! - `base`: all clauses of a table but those of congruence.
//! - `congruence`: the clauses of congruence on two terms.
//! - `congruences`: all clauses of congruence.
//! - `input_facts`: the facts that inputs stand for.
//! - `numbering`: facts as variables.
//! - `ground`: all clauses.
#![tactic(auto)]

mod base;
mod checks;
mod congruence;
mod congruences;
mod facts;
mod fields;
mod ground;
mod input_facts;
mod laws;
mod numbering;
mod pairs;
mod spoken;
mod telling;
mod terms;
mod words;

pub use base::base_clauses;
pub use congruences::congruence_clauses;
pub use facts::{FactLiteral, FactNode};
pub use ground::{GroundClauses, ground_clauses};
pub use laws::{
    atoms_agree, ground_clauses_are_below, ground_clauses_are_complete,
    ground_clauses_are_readings, inputs_are_facts, readings_agree,
};
pub use spoken::{Spoken, vocabulary_of};
pub use words::{PairNode, Words};
