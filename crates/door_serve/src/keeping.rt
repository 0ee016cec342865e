//! Calls of the store.

ghost use Rattle.std.specs.Prelude.{◌≡◌, IfSome, IsSomeAnd};
ghost use Rattle.data_records.specs.Views.{record_data};
ghost use Rattle.door_serve.specs.Changing.{Keeps};
ghost use Rattle.store_keeper.specs.Changes.{MayDrop, MayPut, with_drop, with_put};
ghost use Rattle.store_keeper.specs.declared.keeper.KeepCall.TheVariants.{DropRow, Put};
ghost use Rattle.type_schema.specs.SchemaViews.{model_info_of};

use crate::door_err::DoorErr;
use data_records::Record;
use std::alloc::Global;
use store_keeper::Keeper;
use type_schema::ModelInfo;

/// Stores a record.
pub(crate) fn keep_record<K: Keeper>(
    alloc: Global,
    info: &ModelInfo,
    made: &Record,
    store: &mut K,
) -> Result<(), DoorErr>
    requires { IfSome (K.told store.old) (λ held. IsSomeAnd held
        (λ s. MayPut s (model_info_of info.now) (record_data made.now))) }
    ensures { Keeps K.told K.calls K.faults (with_put info.now.number (record_data made.now))
        Put store.old store.new result }
{
    Ok(store.put(alloc, info, made)?)
}

/// Drops a record from the store.
pub(crate) fn drop_kept<K: Keeper>(
    alloc: Global,
    info: &ModelInfo,
    id: u64,
    store: &mut K,
) -> Result<(), DoorErr>
    requires { IfSome (K.told store.old) (λ held. IsSomeAnd held
        (λ s. MayDrop s (model_info_of info.now) id)) }
    ensures { Keeps K.told K.calls K.faults (with_drop info.now.number id) DropRow store.old
        store.new result }
{
    Ok(store.drop_row(alloc, info, id)?)
}
