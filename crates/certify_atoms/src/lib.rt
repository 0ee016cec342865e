//! What facts about ground terms say for the procedures of equality and of differences.
//!
//! - `sides`: [`Reader`], and what values are to the procedures.
//! - `atoms`: [`atoms_of`], facts as equalities of terms and differences of numbers.
//! - `orders`: [`orders_of`], clauses on facts that say that numbers are ordered.
//! - `texts`: [`texts_of`], the texts of facts.
//! - `laws`: a lawful model meets them.
#![tactic(auto)]

mod atoms;
mod laws;
mod orders;
mod sides;
mod texts;

pub use atoms::atoms_of;
pub use laws::models_have_columns;
pub use orders::orders_of;
pub use sides::Reader;
pub use texts::{see_texts, texts_of};
