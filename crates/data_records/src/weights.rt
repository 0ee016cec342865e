//! How much values weigh.

ghost use Rattle.std.specs.Prelude.{◌≡◌, ◌+◌, ◌^◌, ◌<◌, ◌≤◌, length, map, MatchOption};
ghost use Rattle.data_records.specs.Room.{row_weight, weight_of};
ghost use Rattle.data_records.specs.Views.{slot_data, value_data};
ghost use Rattle.std.specs.List.{sum_by};

use crate::record::{Record, Slot};
use crate::table::Table;
use crate::value::Value;

/// The weight of a value.
pub(crate) fn weight(v: &Value) -> u64
    requires { weight_of (value_data v.now) < 2 ^ 64 }
    ensures { result ≡ weight_of (value_data v.now) }
{
    match v {
        Value::Flag(_) | Value::Num(_) | Value::Id(_) | Value::Nothing => 1,
        Value::Str(text) => 1 + text.bytes().len() as u64,
        Value::Ids(ids) => 1 + 8 * ids.len() as u64,
        Value::Just(inner) => weight(inner.get()),
    }
}

/// What is left of a number without this one.
fn without(left: u64, weight: u64) -> Option<u64>
    ensures { MatchOption result (left < weight) (λ rest. rest + weight ≡ left) }
{
    if weight <= left {
        Some(left - weight)
    } else {
        None
    }
}

/// What is left of a number without the weight of a value, or None where the value weighs more.
pub(crate) fn without_value(left: u64, v: &Value) -> Option<u64>
    ensures { MatchOption result (left < weight_of (value_data v.now)) (λ rest. rest
        + weight_of (value_data v.now) ≡ left) }
{
    match v {
        Value::Flag(_) | Value::Num(_) | Value::Id(_) | Value::Nothing => without(left, 1),
        Value::Str(text) => match without(left, 1) {
            Some(left) => without(left, text.bytes().len() as u64),
            None => None,
        },
        Value::Ids(ids) => match without(left, 1) {
            Some(left) => {
                let count = ids.len() as u64;
                if count <= left / 8 {
                    Some(left - 8 * count)
                } else {
                    None
                }
            }
            None => None,
        },
        Value::Just(inner) => without_value(left, inner.get()),
    }
}

/// What is left of a number without the weights of values, or None where they weigh more.
pub(crate) fn without_row(left: u64, row: &[Value]) -> Option<u64>
    ensures { MatchOption result (left < row_weight (map value_data row.now)) (λ rest. rest
        + row_weight (map value_data row.now) ≡ left) }
{
    let Some((value, row)) = row.split_first() else {
        return Some(left);
    };
    match without_value(left, value) {
        Some(left) => without_row(left, row),
        None => None,
    }
}

/// What is left of a number without the weights of slots, or None where they weigh more.
fn without_slots(left: u64, slots: &[Slot]) -> Option<u64>
    ensures { MatchOption result
        (left < sum_by (λ slot. weight_of (value_data slot.value)) slots.now)
        (λ rest. rest
        + sum_by (λ slot. weight_of (value_data slot.value)) slots.now ≡ left) }
{
    let mut left = left;
    for slot in slots {
        left = without_value(left, &slot.value)?;
    }
    Some(left)
}

/// What is left of a number without the weights of records, or None where they weigh more.
fn without_records(left: u64, records: &[Record]) -> Option<u64>
    ensures { MatchOption result
        (left < sum_by (λ r. sum_by (λ slot. weight_of (value_data slot.value)) r.slots)
        records.now)
        (λ rest. rest
        + sum_by (λ r. sum_by (λ slot. weight_of (value_data slot.value)) r.slots) records.now
        ≡ left) }
{
    let mut left = left;
    for made in records {
        left = without_slots(left, made.slots.as_slice())?;
    }
    Some(left)
}

/// What is left of a number without the weights of tables, or None where they weigh more.
fn without_tables(left: u64, tables: &[Table]) -> Option<u64>
    ensures { MatchOption result
        (left < sum_by (λ t. sum_by (λ r. sum_by (λ slot. weight_of (value_data slot.value))
        r.slots) t.records.items) tables.now)
        (λ rest. rest
        + sum_by (λ t. sum_by (λ r. sum_by (λ slot. weight_of (value_data slot.value)) r.slots)
        t.records.items) tables.now ≡ left) }
{
    let mut left = left;
    for table in tables {
        left = without_records(left, table.records.as_slice())?;
    }
    Some(left)
}

/// How much tables weigh, or None where that is more than a number has.
pub(crate) fn weight_in(tables: &[Table]) -> Option<u64>
    ensures { MatchOption result
        (2 ^ 64 ≤ sum_by (λ t. sum_by (λ r. sum_by (λ slot. weight_of (value_data slot.value))
        r.slots) t.records.items) tables.now)
        (λ weight. weight
        ≡ sum_by (λ t. sum_by (λ r. sum_by (λ slot. weight_of (value_data slot.value)) r.slots)
        t.records.items) tables.now) }
{
    let left = without_tables(u64::MAX, tables)?;
    Some(u64::MAX - left)
}

/// A weight with that of these values, or None where that is more than a number has.
pub(crate) fn weight_with(weight: u64, values: &[Value]) -> Option<u64>
    ensures { MatchOption result
        (2 ^ 64 ≤ weight + sum_by (λ v. weight_of (value_data v)) values.now)
        (λ all. all ≡ weight + sum_by (λ v. weight_of (value_data v)) values.now) }
{
    let mut left = u64::MAX - weight;
    for value in values {
        left = without_value(left, value)?;
    }
    Some(u64::MAX - left)
}

/// How many records tables have, or None where there are more than a number has.
pub(crate) fn count_in(tables: &[Table]) -> Option<usize>
    ensures { MatchOption result (2 ^ 64 ≤ sum_by (λ t. length t.records.items) tables.now)
        (λ n. n ≡ sum_by (λ t. length t.records.items) tables.now) }
{
    let mut count: usize = 0;
    for table in tables {
        count = count.checked_add(table.records.len())?;
    }
    Some(count)
}

/// The weight of a record with these slots.
pub(crate) fn slots_weight(slots: &[Slot]) -> u64
    requires { sum_by (λ slot. weight_of slot.value) (map slot_data slots.now) < 2 ^ 64 }
    ensures { result ≡ sum_by (λ slot. weight_of slot.value) (map slot_data slots.now) }
{
    let Some((slot, slots)) = slots.split_first() else {
        return 0;
    };
    weight(&slot.value) + slots_weight(slots)
}
