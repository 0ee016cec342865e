//! The terms over which a formula is instantiated, found, numbered and counted.
//!
//! - `node`: `TermNode`, a term or a list whose parts are numbers of earlier nodes.
//! - `arena`: `TermArena`, which numbers nodes and shares equal ones.
//! - `part`: the quantifiers and the terms of a formula, each with what stands above it.
//! - `matrix`: the terms of a formula without quantifiers.
//! - `walk`: the parts of a formula.
//! - `needed`: the sorts that a formula needs.
//! - `listing`: lists of numbered terms.
//! - `chain`: the record terms that hold no dependent variable.
//! - `first`: the terms before functions and Skolem variables are applied.
//! - `applied`: the functions that are applied.
//! - `round`: rounds of applying functions and Skolem variables.
//! - `rounds`: all rounds.
//! - `term_list`: `Terms`, a list of ground terms.
//! - `terms`: the terms of a formula.
//! - `counts`: how many terms of each sort arise.
//! - `sizes`: how many nodes a formula has where each `forall` is written out.
//! - `measure`: how large an instantiation is.
//! - `limited`: [`herbrand`] and [`shallow`], the terms within the limits.
//! - `ground_err`: `GroundErr`.
//! - `unique`: lists without the items that stand again.
//! - `variables`: the variables of a formula.
#![tactic(auto)]

mod applied;
mod arena;
mod chain;
mod counts;
mod first;
mod ground_err;
mod limited;
mod listing;
mod matrix;
mod measure;
mod needed;
mod node;
mod part;
mod round;
mod rounds;
mod sizes;
mod term_list;
mod terms;
mod unique;
mod variables;
mod walk;

pub use arena::TermArena;
pub use ground_err::GroundErr;
pub use limited::{herbrand, shallow};
pub use listing::{of_sort, sort_of};
pub use node::TermNode;
pub use part::Variable;
pub use term_list::Terms;
pub use terms::terms_within;
pub use variables::variables_of;
