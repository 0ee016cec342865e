//! Effects.

use check_report::Witness;
use duty_meaning::Duty;
use sqlite_items::Items;
use type_schema::ModelNo;

/// What a weakening comes to: what it newly allows a kind of principals.
#[derive(Drop)]
pub struct Effect {
    /// The command, the right that it gives, and the kind.
    pub duty: Duty,
    pub shown: Shown,
}

/// What is shown of a weakening.
#[derive(Drop)]
pub enum Shown {
    /// A start database, and on it somebody whom it newly allows the right.
    Example(Witness),
    /// On no start database does it newly allow anybody of the kind anything.
    Nothing,
    /// Its formula is not decided: the models are a cycle of its sort graph, the first of them not
    /// repeated.
    Undecided { cycle: Items<ModelNo> },
    /// The instantiation of its formula would have so many terms and nodes.
    TooLarge { terms: u64, nodes: u64 },
}
