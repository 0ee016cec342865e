//! Fields that are changed.

use data_records::{DataErr, Database};
use std::alloc::{AllocError, Global};
use type_schema::{FieldInfo, ModelInfo, ModelNo, Schema};

/// The ids of the records of a model.
fn ids_of(alloc: Global, database: &Database, m: ModelNo) -> Result<Vec<u64>, AllocError> {
    let mut ids = Vec::new(alloc);
    for row in database.records(m) {
        ids.push(row.id)?;
    }
    Ok(ids)
}

/// Puts into a field of a record what another record has there. Says whether it did.
fn change(
    alloc: Global,
    database: &mut Database,
    m: ModelNo,
    field: &FieldInfo,
    id: u64,
    from: u64,
) -> Result<bool, AllocError> {
    let value = match database.value(m, from, field.number) {
        Some(value) => value.copy(alloc)?,
        None => return Ok(false),
    };
    match database.set_field(alloc, m, id, field, &value) {
        Ok(()) => Ok(true),
        Err(DataErr::OutOfMemory) => Err(AllocError),
        Err(_) => Ok(false),
    }
}

/// Changes a field of records, up to so many.
fn change_records(
    alloc: Global,
    database: &mut Database,
    m: ModelNo,
    field: &FieldInfo,
    ids: &[u64],
    most: u64,
) -> Result<u64, AllocError> {
    let mut count: u64 = 0;
    for (id, from) in ids.iter().zip(ids.iter().rev()) {
        if count < most && change(alloc, database, m, field, *id, *from)? {
            count += 1;
        }
    }
    Ok(count)
}

/// Changes fields of a model, up to so many.
fn change_model(
    alloc: Global,
    database: &mut Database,
    info: &ModelInfo,
    most: u64,
) -> Result<u64, AllocError> {
    let ids = ids_of(alloc, database, info.number)?;
    let mut count: u64 = 0;
    for field in info.fields.as_slice() {
        let left = most.saturating_sub(count);
        let done = change_records(alloc, database, info.number, field, ids.as_slice(), left)?;
        count = count.saturating_add(done);
    }
    Ok(count)
}

/// Puts into fields of records what other records have there, so many times. Says how many of
/// these changes were made.
pub(crate) fn change_fields(
    alloc: Global,
    database: &mut Database,
    s: &Schema,
    most: u64,
) -> Result<u64, AllocError> {
    let mut count: u64 = 0;
    for info in s.models.as_slice() {
        let left = most.saturating_sub(count);
        let done = change_model(alloc, database, info, left)?;
        count = count.saturating_add(done);
    }
    Ok(count)
}
