//! Single records of a sample.

ghost use Rattle.std.specs.Prelude.{◌≡◌, None};

use crate::sample::{Sample, stored_of_rows, word_for};
use data_records::Record;
use std::alloc::Global;
use store_keeper::{Keeper, Stored};
use type_schema::ModelInfo;

/// The first record of the model, under another id.
fn under(alloc: Global, s: &Stored, info: &ModelInfo, id: u64) -> Option<Record> {
    let mut made = s.base.records(info.number).first()?.copy(alloc).ok()?;
    made.id = id;
    Some(made)
}

/// A word for the answer where the first record of the sample's first model is put into the keeper
/// under this id.
pub fn put<K: Keeper>(alloc: Global, sample: Sample<'_>, keeper: &mut K, id: u64) -> &'static str
    requires untold { K.told keeper.old ≡ None }
{
    let Some(s) = stored_of_rows(alloc, sample.rows) else {
        return "no sample";
    };
    let Some(info) = s.schema.models.as_slice().first() else {
        return "no model";
    };
    match under(alloc, &s, info, id) {
        Some(made) => word_for(keeper.put(alloc, info, &made)),
        None => "no record",
    }
}

/// A word for the answer where the record of this id of the sample's first model is dropped.
pub fn dropped<K: Keeper>(
    alloc: Global,
    sample: Sample<'_>,
    keeper: &mut K,
    id: u64,
) -> &'static str
    requires untold { K.told keeper.old ≡ None }
{
    let Some(s) = stored_of_rows(alloc, sample.rows) else {
        return "no sample";
    };
    match s.schema.models.as_slice().first() {
        Some(info) => word_for(keeper.drop_row(alloc, info, id)),
        None => "no model",
    }
}
