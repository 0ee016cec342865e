//! Outcomes.

use check_report::Witness;
use duty_meaning::Duty;
use sqlite_items::Items;
use type_schema::ModelNo;

/// What a script comes to.
#[derive(Drop)]
pub enum Outcome {
    /// No obligation fails on any database; there are so many.
    Accepted { duties: u64 },
    /// The first obligation that is not cleared fails by the witness.
    Leak(Witness),
    /// Its formula is not decided: the models are a cycle of its sort graph, the first of them not
    /// repeated.
    Undecided { duty: Duty, cycle: Items<ModelNo> },
    /// Its instantiation would have so many terms and nodes.
    TooLarge { duty: Duty, terms: u64, nodes: u64 },
}
