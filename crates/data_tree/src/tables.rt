//! Tables as they are written.

use crate::literals::{Lit, WrittenId};
use sqlite_items::Items;
use text_tree::Named;

/// `field: value`
#[derive(Drop)]
pub struct FieldLit {
    pub name: Named,
    pub value: Lit,
}

/// `@1 {field: value, ..}`
#[derive(Drop)]
pub struct RecordLit {
    pub id: WrittenId,
    pub fields: Items<FieldLit>,
    /// The offset of the brace that ends it.
    pub end: u32,
}

/// `Model @2 { records }`
#[derive(Drop)]
pub struct TableLit {
    pub name: Named,
    /// The number after the model: an id above all that were given.
    pub next: WrittenId,
    pub records: Items<RecordLit>,
}
