//! What a certificate is about: clauses over variables of which some are atoms of equality or of
//! differences, trees of splits that show that no assignment is lawful, and paths in them.
//!
//! - `literal`: [`Literal`], a variable with a sign.
//! - `path`: [`Path`], the literals that the splits above a place set.
//! - `clauses`: the trait [`Clauses`], whose clauses need not be listed.
//! - `listed`: [`ListedClauses`], clauses in memory.
//! - `laws`: where there is a lawful tree there is no lawful assignment.
#![tactic(auto)]

mod clauses;
mod laws;
mod listed;
mod literal;
mod path;

pub use clauses::{Atom, Clauses};
pub use laws::lawful_trees_refute;
pub use listed::ListedClauses;
pub use literal::Literal;
pub use path::Path;
