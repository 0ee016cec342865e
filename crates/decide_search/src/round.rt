//! What one round of a search gives.

use decide_models::Found;
use ground_problem::FactLiteral;

/// What was found, where it is congruent, and else clauses of congruence for the next round.
#[derive(Drop)]
pub(crate) enum Round {
    Table(Found),
    Broken(Vec<Vec<FactLiteral>>),
}
