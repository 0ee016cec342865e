//! Records of what is written.

ghost use Rattle.std.specs.Prelude.{◌≡◌, ◌++◌, IfOk, OnOk, map};
ghost use Rattle.data_judge.specs.InOrder.{AreApart, slots_paired};
ghost use Rattle.data_judge.specs.Meaning as meaning;
ghost use Rattle.data_judge.specs.Meaning.{with_item};
ghost use Rattle.data_tree.specs.declared.literals.Lit.{out-Lit};
ghost use Rattle.data_records.specs.Views.{record_data, slot_data, value_data};
ghost use Rattle.type_schema.specs.SchemaViews.{field_info_of};

use crate::ids::{distinct_ids, ids_rise, numbers_in};
use crate::literals::id_in;
use crate::names::{are_in_order, field_written};
use crate::numbers::Numbers;
use data_records::{Record, Slot, Slots, Value};
use data_tree::{FieldLit, Lit, RecordLit};
use sqlite_items::{Boxed, Items};
use std::alloc::{AllocError, Global};
use type_schema::FieldInfo;

/// Puts the id of an item into a set.
fn add_item(seen: &mut Numbers, l: &Lit) -> Result<(), AllocError>
    ensures { OnOk result (seen.new ≡ with_item seen.old l.now) }
{
    match id_in(l) {
        Some(id) => {
            let _new = seen.add(id.number)?;
            Ok(())
        }
        None => Ok(()),
    }
}

/// The set of the ids of items.
fn ids_of(alloc: Global, items: &[Lit]) -> Result<Items<u64>, AllocError>
    ensures { IfOk result (λ ids. ids ≡ meaning.ids_of items.now) }
{
    if ids_rise(items) {
        return Ok(Items::from_vec(numbers_in(alloc, items)?));
    }
    if let Some(ids) = distinct_ids(alloc, items)? {
        return Ok(Items::from_vec(ids));
    }
    let mut seen = Numbers::new(alloc);
    for l in items {
        add_item(&mut seen, l)?;
    }
    seen.into_items(alloc)
}

/// The value that is written, without `some`.
pub(crate) fn plain_value(alloc: Global, l: &Lit) -> Result<Value, AllocError>
    ensures { IfOk result (λ v. value_data v ≡ meaning.plain_value (out-Lit l.now)) }
{
    match l {
        Lit::Flag(b, _) => Ok(Value::Flag(*b)),
        Lit::Num(n, _) => Ok(Value::Num(*n)),
        Lit::Str(text, _) => Ok(Value::Str(text.copy(alloc)?)),
        Lit::Id(id, _) => Ok(Value::Id(id.number)),
        Lit::List(items, _) => Ok(Value::Ids(ids_of(alloc, items.as_slice())?)),
        Lit::SelfId(_) | Lit::NoneLit(_) | Lit::SomeLit(_, _) => Ok(Value::Nothing),
    }
}

/// The value that is written.
fn value_of(alloc: Global, l: &Lit) -> Result<Value, AllocError>
    ensures { IfOk result (λ v. value_data v ≡ meaning.value_of l.now) }
{
    match l {
        Lit::SomeLit(inner, _) => {
            let inner = plain_value(alloc, inner.get())?;
            Ok(Value::Just(Boxed::new(alloc, inner)?))
        }
        Lit::Flag(_, _)
        | Lit::Num(_, _)
        | Lit::Str(_, _)
        | Lit::Id(_, _)
        | Lit::SelfId(_)
        | Lit::NoneLit(_)
        | Lit::List(_, _) => plain_value(alloc, l),
    }
}

/// What is written for a field.
fn slot_of(alloc: Global, ws: &[FieldLit], info: &FieldInfo) -> Result<Slot, AllocError>
    ensures { IfOk result (λ slot. slot_data slot
        ≡ meaning.slot_of ws.now (field_info_of info.now)) }
{
    match field_written(ws, info.name.bytes()) {
        Some(w) => {
            let value = value_of(alloc, &w.value)?;
            Ok(Slot {
                field: info.number,
                value,
            })
        }
        None => Ok(Slot {
            field: info.number,
            value: Value::Nothing,
        }),
    }
}

/// Adds what is written for fields.
fn push_slots(
    alloc: Global,
    ws: &[FieldLit],
    fields: &[FieldInfo],
    slots: &mut Slots,
) -> Result<(), AllocError>
    ensures { OnOk result (map slot_data slots.new
        ≡ map slot_data slots.old
        ++ map (meaning.slot_of ws.now) (map field_info_of fields.now)) }
{
    match fields {
        [] => Ok(()),
        [info, fields @ ..] => {
            let slot = slot_of(alloc, ws, info)?;
            slots.push(slot)?;
            push_slots(alloc, ws, fields, slots)
        }
    }
}

/// Adds what is written for the fields in their order.
fn push_paired(
    alloc: Global,
    ws: &[FieldLit],
    fields: &[FieldInfo],
    slots: &mut Slots,
) -> Result<(), AllocError>
    ensures { OnOk result (map slot_data slots.new
        ≡ map slot_data slots.old ++ slots_paired (map field_info_of fields.now) ws.now) }
{
    match fields {
        [] => Ok(()),
        [info, fields @ ..] => match ws {
            [] => Ok(()),
            [w, ws @ ..] => {
                let value = value_of(alloc, &w.value)?;
                let slot = Slot {
                    field: info.number,
                    value,
                };
                slots.push(slot)?;
                push_paired(alloc, ws, fields, slots)
            }
        },
    }
}

/// Adds what is written for fields, in whatever order.
fn push_written(
    alloc: Global,
    ws: &[FieldLit],
    fields: &[FieldInfo],
    slots: &mut Slots,
) -> Result<(), AllocError>
    requires { AreApart (map field_info_of fields.now) }
    ensures { OnOk result (map slot_data slots.new
        ≡ map slot_data slots.old
        ++ map (meaning.slot_of ws.now) (map field_info_of fields.now)) }
{
    if are_in_order(fields, ws) {
        push_paired(alloc, ws, fields, slots)
    } else {
        push_slots(alloc, ws, fields, slots)
    }
}

/// The record that is written, of a model with these fields.
pub(crate) fn record_of(
    alloc: Global,
    fields: &[FieldInfo],
    row: &RecordLit,
) -> Result<Record, AllocError>
    requires { AreApart (map field_info_of fields.now) }
    ensures { IfOk result (λ made. record_data made
        ≡ meaning.record_of (map field_info_of fields.now) row.now) }
{
    let mut slots = Slots::new(alloc);
    push_written(alloc, row.fields.as_slice(), fields, &mut slots)?;
    Ok(Record {
        id: row.id.number,
        slots,
    })
}
