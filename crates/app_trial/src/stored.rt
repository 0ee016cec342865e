//! What is stored, under another version.

use std::alloc::Global;
use store_keeper::limits::LAST_VERSION;
use store_keeper::{KeepErr, Keeper, MemKeeper, Stored, SureKeeper};

/// A keeper that holds what the other one holds, under the last version, and whose calls of these
/// numbers fail.
pub fn at_last_version(
    alloc: Global,
    store: &mut SureKeeper,
    failing: Vec<u64>,
) -> Result<MemKeeper, KeepErr> {
    let last = match store.load(alloc)? {
        Some(held) => Some(Stored::new(held.schema, LAST_VERSION, held.base, held.notes)),
        None => None,
    };
    Ok(MemKeeper::new(alloc, last, failing))
}
