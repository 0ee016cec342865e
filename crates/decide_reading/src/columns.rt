//! Columns of what was found.

use form_formula::SVal;
use sqlite_items::Items;

/// What was found of numbered terms, of pairs and of sorts.
#[derive(Drop)]
pub struct Columns {
    /// For each number of a term whether it is there.
    pub there: Items<bool>,
    /// And what it has if it is.
    pub values: Items<SVal>,
    /// For each pair whether its set relation holds.
    pub related: Items<bool>,
    /// For each sort whether it is empty.
    pub empty: Items<bool>,
}
