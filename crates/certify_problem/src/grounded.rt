//! What a formula is grounded to.

use certify_clauses::ListedClauses;
use sqlite_items::Items;

/// The clauses of a formula, or why it has none.
#[derive(Drop)]
pub enum Grounded {
    /// The clauses over its terms, or over its shallow terms where its sort graph has a cycle.
    Clauses(ListedClauses),
    /// Its sort graph has this cycle of sorts, whose first is repeated last, and its shallow terms
    /// are over a limit.
    Cyclic(Items<u32>),
    /// Its sort graph has no cycle, and it has so many terms and nodes, which is over a limit.
    TooLarge { terms: u64, nodes: u64 },
}
