//! What a search found.

use form_formula::SVal;
use sqlite_items::Items;

/// What a search found of ground terms, of set relations at two of them, and of sorts.
#[derive(Debug, Drop)]
pub struct Found {
    /// For each number of a ground term what the term has, if it is there.
    pub values: Items<Option<SVal>>,
    /// For each pair whether the set relation holds.
    pub related: Items<bool>,
    /// For each sort whether it is empty.
    pub empty: Items<bool>,
}
