//! Cells of a database.

use type_schema::{FieldNo, ModelNo};

/// A field of a record.
#[derive(Clone, Copy, Debug, PartialEq, Eq)]
pub struct Cell {
    pub model: ModelNo,
    pub id: u64,
    pub field: FieldNo,
}
