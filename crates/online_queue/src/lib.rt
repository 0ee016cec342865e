//! A queue of records, in flat memory that is taken once.
//!
//! | module | holds |
//! |---|---|
//! | `records` | [`RecordId`], a record by its model and id |
//! | `queue` | [`Queue`], records at nodes, some of them in a list |
#![tactic(auto)]

mod queue;
mod records;

pub use queue::Queue;
pub use records::RecordId;
