//! Equality of terms: a decision procedure for `a = b` and `a != b`.
//!
//! - `equality`: `Equality`, with its literals in order.
//! - `literal`: `EqualityLit`, the two kinds of literals.
//! - `entry`: what is kept of each literal. `record`: the push of one.
//! - `partition`: class numbers of terms. `plan`: which class is relabelled by a join.
//! - `edges`: the equalities and differences as edges of graphs over the terms.
//! - `visits`, `search`: a search along the equalities of a class. `path`: the way it came.
//! - `clash`: why a join leaves no model.
#![tactic(auto)]

mod clash;
mod edges;
mod entry;
mod equality;
mod literal;
mod partition;
mod path;
mod plan;
mod record;
mod search;
mod visits;

pub use equality::Equality;
pub use literal::EqualityLit;
