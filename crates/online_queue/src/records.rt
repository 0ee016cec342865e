//! Records, by model and id.

/// A record, by its model and id.
#[derive(Clone, Copy, Debug, PartialEq, Eq)]
pub struct RecordId {
    pub model: u32,
    pub id: u64,
}
