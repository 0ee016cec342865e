//! What a search gives.

use decide_models::Found;
use ground_problem::Words;
use ground_terms::TermArena;

/// A table by which a formula is read: what was found of numbered terms.
#[derive(Drop)]
pub struct Tabled {
    pub terms: TermArena,
    /// What the table speaks of.
    pub words: Words,
    pub found: Found,
}
