//! Single changes of what is stored.
//!
//! A record that is put is one that `insert` makes, or differs in one field at most from the one
//! that is there. So nothing refuses it but want of memory.
ghost use Rattle.std.specs.Prelude.{◌≡◌, ◌==◌, ◌↔◌, false, true, map, option_copied, IfOk, IsTrue};
ghost use Rattle.std.specs.Prelude.{OnErr, OnOk};
ghost use Rattle.std.specs.List.{find};
ghost use Rattle.std.specs.Option.{option_map};
ghost use Rattle.data_meaning.specs.Database.{has_record};
ghost use Rattle.data_records.specs.Inserted.{next_of, with_row};
ghost use Rattle.data_records.specs.Views.{record_data, slot_data, value_data};
ghost use Rattle.type_schema.specs.SchemaViews.{model_info_of};
ghost use Rattle.store_keeper.specs.Changes.{FindsChange, IsChanged, IsNext, IsPutInto, IsPuttable, IsSetInto};
ghost use Rattle.store_keeper.specs.Changes.{MayDrop, MayPut, values_of, with_drop, with_put};
ghost use Rattle.store_keeper.specs.Stored.{IsStored, stored_of};

use crate::stored::Stored;
use data_records::{DataErr, Database, Record, Slot, Value, databases_stay};
use std::alloc::{AllocError, Global};
use type_schema::{FieldInfo, FieldNo, ModelInfo};

/// Equal values to those of the slots, in their order.
fn values_in(alloc: Global, slots: &[Slot]) -> Result<Vec<Value>, AllocError>
    ensures { IfOk result (λ values. map value_data values.items
        ≡ values_of (map slot_data slots.now)) }
{
    let mut values = Vec::new(alloc);
    for slot in slots {
        let value = slot.value.copy(alloc)?;
        values.push(value)?;
    }
    Ok(values)
}

/// Whether the values are equal.
fn same_value(a: &Value, b: &Value) -> bool
    ensures { IsTrue result ↔ (value_data a.now ≡ value_data b.now) }
{
    match (a, b) {
        (Value::Flag(x), Value::Flag(y)) => x == y,
        (Value::Num(x), Value::Num(y)) => x == y,
        (Value::Str(x), Value::Str(y)) => x.bytes() == y.bytes(),
        (Value::Id(x), Value::Id(y)) => x == y,
        (Value::Ids(x), Value::Ids(y)) => x.as_slice() == y.as_slice(),
        (Value::Nothing, Value::Nothing) => true,
        (Value::Just(x), Value::Just(y)) => same_value(x.get(), y.get()),
        _ => false,
    }
}

/// The first slot that holds another value than before.
fn changed_slot<'a>(old: &[Slot], new: &'a [Slot]) -> Option<&'a Slot>
    ensures { FindsChange (map slot_data old.now) (map slot_data new.now)
        (option_map slot_data (option_copied result)) }
{
    match (old.split_first(), new.split_first()) {
        (Some((a, rest)), Some((b, others))) => {
            if same_value(&a.value, &b.value) {
                changed_slot(rest, others)
            } else {
                Some(b)
            }
        }
        _ => None,
    }
}

/// The field of this number.
fn field_in(fields: &[FieldInfo], f: FieldNo) -> Option<&FieldInfo>
    ensures { option_copied result ≡ find (λ info. info.number == f) fields.now }
{
    fields.iter().find(|info| info.number == f)
}

/// What is refused for want of memory alone.
fn memory_error(e: DataErr) -> AllocError
    requires { e ≡ DataErr.OutOfMemory }
{
    let _memory = e;
    AllocError
}

/// Inserts the record that is to come next.
fn insert_record(
    alloc: Global,
    base: &mut Database,
    info: &ModelInfo,
    made: &Record,
) -> Result<(), AllocError>
    requires { IsNext (model_info_of info.now) base.old (record_data made.now) }
    ensures ok { OnOk result (base.new ≡ with_row (model_info_of info.now)
        (values_of (record_data made.now).slots) base.old) }
    ensures err { OnErr result (base.new ≡ base.old) }
{
    let values = values_in(alloc, made.slots.as_slice())?;
    match base.insert(alloc, info, values.as_slice()) {
        Ok(_) => Ok(()),
        Err(e) => Err(memory_error(e)),
    }
}

/// Sets the field in which the record differs from the one that is there.
fn set_record(
    alloc: Global,
    base: &mut Database,
    info: &ModelInfo,
    made: &Record,
) -> Result<(), AllocError>
    requires { IsChanged (model_info_of info.now) base.old (record_data made.now) }
    ensures ok { OnOk result (IsSetInto (model_info_of info.now) base.old
        (record_data made.now) base.new) }
    ensures err { OnErr result (base.new ≡ base.old) }
{
    let Some(old) = base.get(info.number, made.id) else {
        unreachable!();
    };
    let Some(slot) = changed_slot(old.slots.as_slice(), made.slots.as_slice()) else {
        return Ok(());
    };
    let Some(field) = field_in(info.fields.as_slice(), slot.field) else {
        unreachable!();
    };
    match base.set_field(alloc, info.number, made.id, field, &slot.value) {
        Ok(()) => Ok(()),
        Err(e) => Err(memory_error(e)),
    }
}

/// Puts the record into the database, in which no record has the id that is to come next.
fn put_record(
    alloc: Global,
    base: &mut Database,
    info: &ModelInfo,
    made: &Record,
) -> Result<(), AllocError>
    requires fresh { has_record base.old info.now.number
        (next_of base.old info.now.number) ≡ false }
    requires may { IsPuttable (model_info_of info.now) base.old (record_data made.now) }
    ensures ok { OnOk result (IsPutInto (model_info_of info.now) base.old
        (record_data made.now) base.new) }
    ensures err { OnErr result (base.new ≡ base.old) }
{
    if base.has(info.number, made.id) {
        set_record(alloc, base, info, made)
    } else {
        insert_record(alloc, base, info, made)
    }
}

/// Puts the record into what is stored.
pub(crate) fn put_stored(
    alloc: Global,
    stored: &mut Stored,
    info: &ModelInfo,
    made: &Record,
) -> Result<(), AllocError>
    requires stored { IsStored (stored_of stored.old) }
    requires may { MayPut (stored_of stored.old) (model_info_of info.now) (record_data made.now) }
    ensures ok { OnOk result (stored_of stored.new
        ≡ with_put info.now.number (record_data made.now) (stored_of stored.old)) }
    ensures err { OnErr result (stored.new ≡ stored.old) }
    ensures stored { IsStored (stored_of stored.new) }
{
    databases_stay();
    match put_record(alloc, &mut stored.base, info, made) {
        Ok(()) => Ok(()),
        Err(e) => Err(e),
    }
}

/// Drops the record from what is stored.
pub(crate) fn drop_stored(stored: &mut Stored, info: &ModelInfo, id: u64)
    requires stored { IsStored (stored_of stored.old) }
    requires may { MayDrop (stored_of stored.old) (model_info_of info.now) id }
    ensures dropped { stored_of stored.new ≡ with_drop info.now.number id (stored_of stored.old) }
    ensures stored { IsStored (stored_of stored.new) }
{
    databases_stay();
    match stored.base.remove(&stored.schema, info.number, id) {
        Ok(()) => {}
        Err(_) => unreachable!(),
    }
}
