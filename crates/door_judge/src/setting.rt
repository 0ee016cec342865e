//! What `write` puts into a field of a record.

ghost use Rattle.std.specs.Prelude.{◌≡◌, ◌==◌, ◌<◌, true, IfOk, OnOk};
ghost use Rattle.std.specs.Prelude.{length, map, position, slice_set};
ghost use Rattle.data_meaning.specs.Database.{IsDatabase, has_record};
ghost use Rattle.data_records.specs.Changed.{IsFitting, change_first, has_field, with_slot_value};
ghost use Rattle.data_records.specs.Shape.{IsShape};
ghost use Rattle.data_records.specs.Views.{record_data, slot_data, value_data};
ghost use Rattle.door_judge.specs.Coming.{Comes};
ghost use Rattle.door_judge.specs.Parts.{IsKnown, set_record};
ghost use Rattle.door_judge.specs.Views.{setting_data};
ghost use Rattle.door_meaning.specs.Orders.{stops};
ghost use Rattle.door_meaning.specs.Records.{named_setting, ready_setting, set_refusal};
ghost use Rattle.type_schema.specs.Proper.{IsProper};
ghost use Rattle.type_schema.specs.SchemaViews.{field_info_of, model_info_of, schema_of};

use crate::cell::{Cell, field_of_record};
use crate::halt::Halt;
use crate::policies::is_allowed;
use crate::values::{dangling, named_value};
use data_meaning::Principal;
use data_records::{DataErr, Database, Limit, Record, Slot, Slots, Value, records_have_fields};
use data_tree::Lit;
use door_meaning::{Fullness, Reply};
use std::alloc::{AllocError, Global};
use type_schema::{FieldInfo, FieldNo, ModelInfo, Schema};

/// A value for a field of a record.
#[derive(Drop)]
pub struct Setting<'s> {
    pub info: &'s ModelInfo,
    pub field: &'s FieldInfo,
    pub value: Value,
}

/// What is to be written, before it is asked whether the database takes it.
fn setting_named<'s>(
    alloc: Global,
    s: &'s Schema,
    d: &Database,
    who: Option<Principal>,
    cell: &Cell<'_>,
    l: &Lit,
) -> Result<Setting<'s>, Halt>
    ensures named { Comes (named_setting (schema_of s.now) d.now who cell.now.model.now
        cell.now.id.number cell.now.field.now l.now) setting_data result }
    ensures shaped { IfOk result (λ set. IsShape set.field.now.ty (value_data set.value)) }
{
    let (info, field) = field_of_record(s, d, cell)?;
    is_allowed(alloc, d, field, &field.write, cell.id.number, who)?;
    let value = named_value(alloc, info, field, l)?;
    Ok(Setting { info, field, value })
}

/// Whether the database takes the value; all memory for it is ready then.
fn ready(alloc: Global, base: &mut Database, id: u64, set: &Setting<'_>) -> Result<(), Halt>
    requires there { has_field base.old set.now.info.now.number id set.now.field.now.number ≡ true }
    requires shaped { IsShape set.now.field.now.ty (value_data set.now.value) }
    ensures judged { Comes (stops (set_refusal base.old (model_info_of set.now.info.now)
        (field_info_of set.now.field.now) id (value_data set.now.value))) (λ x. x) result }
    ensures fits { OnOk result (IsFitting base.old set.now.info.now.number id
        (field_info_of set.now.field.now) (value_data set.now.value)) }
    ensures same { base.new ≡ base.old }
{
    let field = set.field;
    match base.ready_field(alloc, set.info.number, id, field, &set.value) {
        Ok(()) => Ok(()),
        Err(DataErr::Dangling { id, .. }) => {
            Err(Halt::Replied(dangling(alloc, &field.name, id)?))
        }
        Err(
            DataErr::Full {
                what: Limit::Weight,
            },
        ) => Err(Halt::Replied(Reply::Full {
            what: Fullness::Weight,
        })),
        Err(DataErr::OutOfMemory) => Err(Halt::OutOfMemory),
        Err(
            DataErr::NoRecord
            | DataErr::WrongShape { .. }
            | DataErr::Referenced { .. }
            | DataErr::Full {
                what: Limit::Records,
            }
            | DataErr::IdsSpent,
        ) => unreachable!(),
    }
}

/// What is to be written, if nothing refuses it. The database is as before, and all memory for the
/// value is ready in it.
pub fn setting_ready<'s>(
    alloc: Global,
    s: &'s Schema,
    base: &mut Database,
    who: Option<Principal>,
    cell: &Cell<'_>,
    l: &Lit,
) -> Result<Setting<'s>, Halt>
    requires proper { IsProper (schema_of s.now) }
    requires database { IsDatabase (schema_of s.now) base.old }
    ensures ready { Comes (ready_setting (schema_of s.now) base.old who cell.now.model.now
        cell.now.id.number cell.now.field.now l.now) setting_data result }
    ensures known { IfOk result
        (λ set. IsKnown (schema_of s.now) base.old cell.now.id.number (setting_data set)) }
    ensures fits { IfOk result (λ set. IsFitting base.old set.info.now.number cell.now.id.number
        (field_info_of set.field.now) (value_data set.value)) }
    ensures same { base.new ≡ base.old }
{
    records_have_fields();
    let set = setting_named(alloc, s, base, who, cell, l)?;
    ready(alloc, base, cell.id.number, &set)?;
    Ok(set)
}

/// The place of the value of a field.
fn place_of(slots: &[Slot], f: FieldNo) -> Option<usize>
    ensures { result ≡ position (λ slot. slot.field == f) slots.now }
{
    slots.iter().position(|slot| slot.field == f)
}

/// Equal values, in the same order.
fn copy_slots(alloc: Global, slots: &[Slot]) -> Result<Vec<Slot>, AllocError>
    ensures { IfOk result (λ copies. map slot_data copies.items ≡ map slot_data slots.now) }
{
    let mut copies = Vec::new(alloc);
    for slot in slots {
        let copy = slot.copy(alloc)?;
        copies.push(copy)?;
    }
    Ok(copies)
}

/// Puts a value in place of another.
fn set_slot(slots: &mut Vec<Slot>, at: usize, slot: Slot)
    requires { at < length slots.old.items }
    ensures { slots.new.items ≡ slice_set slots.old.items at slot }
{
    slots[at] = slot;
}

/// Puts a value in place of that of its field.
fn put_slot(slots: &mut Vec<Slot>, slot: Slot)
    ensures { map slot_data slots.new.items ≡ change_first (λ other. other.field == slot.field)
        (with_slot_value (value_data slot.value)) (map slot_data slots.old.items) }
{
    match place_of(slots.as_slice(), slot.field) {
        Some(place) => set_slot(slots, place, slot),
        None => {}
    }
}

/// Equal values, but for that of the field.
fn slots_with(alloc: Global, slots: &[Slot], field: FieldNo, v: &Value) -> Result<Slots, AllocError>
    ensures { IfOk result (λ made. map slot_data made ≡ change_first (λ slot. slot.field == field)
        (with_slot_value (value_data v.now)) (map slot_data slots.now)) }
{
    let value = v.copy(alloc)?;
    let mut made = copy_slots(alloc, slots)?;
    put_slot(&mut made, Slot { field, value });
    Ok(Slots::from_vec(made))
}

/// The record with the value in its field.
pub fn record_with(
    alloc: Global,
    d: &Database,
    id: u64,
    set: &Setting<'_>,
) -> Result<Record, AllocError>
    requires { has_record d.now set.now.info.now.number id ≡ true }
    ensures { IfOk result (λ made. record_data made ≡ set_record d.now set.now.info.now.number id
        set.now.field.now.number (value_data set.now.value)) }
{
    match d.get(set.info.number, id) {
        Some(old) => {
            let slots = slots_with(alloc, old.slots.as_slice(), set.field.number, &set.value)?;
            Ok(Record { id, slots })
        }
        None => unreachable!(),
    }
}
