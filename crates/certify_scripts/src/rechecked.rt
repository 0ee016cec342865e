//! What the check of a certificate finds.

use duty_meaning::Duty;
use sqlite_items::Items;

/// What the check of a certificate finds.
#[derive(Drop)]
pub enum Rechecked {
    /// It is a certificate of the script, which has so many obligations.
    Certified { duties: u64 },
    /// The first line that is not the next one, or the number that a further line would have.
    BadLine { line: u64 },
    /// The obligation has no clauses, since its formula's sort graph has this cycle of sorts, whose
    /// first is repeated last, and its shallow terms are over a limit.
    Cyclic { duty: Duty, cycle: Items<u32> },
    /// The obligation has no clauses, since its formula would have so many terms and nodes.
    TooLarge { duty: Duty, terms: u64, nodes: u64 },
}
