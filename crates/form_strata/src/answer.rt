//! What is found of a sort graph.

use sqlite_items::Items;

/// What the sort graph of a formula has.
#[derive(Debug, Drop)]
pub enum Strata {
    /// All sorts, so that each edge goes forward: the formula is stratified.
    Order(Items<u32>),
    /// The sorts of a cycle, the first repeated last: the formula is not stratified.
    Cycle(Items<u32>),
}
