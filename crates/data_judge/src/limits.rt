//! How much tables hold.

ghost use Rattle.std.specs.Prelude.{◌≡◌, ◌+◌, ◌<◌, map, MatchOption};
ghost use Rattle.std.specs.List.{sum_by};
ghost use Rattle.data_meaning.specs.Values as plain;
ghost use Rattle.data_judge.specs.Limits as spec;
ghost use Rattle.data_judge.specs.Ranged.{HasRange, HaveRanges, IsRanged, RecordsHaveRanges};
ghost use Rattle.data_records.specs.Room.{record_count, record_weight, total_weight, weight_of};
ghost use Rattle.data_records.specs.Views.{record_data, slot_data, table_data, value_data};

use data_records::limits::{MOST_RECORDS, MOST_WEIGHT};
use data_records::{Limit, Record, Slot, Table, Value};

/// Whether a database that is read has to keep within the limits.
#[derive(Clone, Copy, Debug, PartialEq, Eq)]
pub enum Limits {
    /// As one that is given to be used.
    Asked,
    /// One that was kept, which a change of the schema may have left above them.
    Waived,
}

/// What is left of a number without the records of tables, or None where they are more.
fn without_rows(left: usize, tables: &[Table]) -> Option<usize>
    ensures { MatchOption result (left < record_count (map table_data tables.now)) (λ rest. rest
        + record_count (map table_data tables.now) ≡ left) }
{
    match tables {
        [] => Some(left),
        [table, tables @ ..] => {
            let count = table.records.len();
            if count <= left {
                without_rows(left - count, tables)
            } else {
                None
            }
        }
    }
}

/// What is left of a number without this one.
fn without(left: u64, weight: u64) -> Option<u64>
    ensures { MatchOption result (left < weight) (λ rest. rest + weight ≡ left) }
{
    if weight <= left {
        Some(left - weight)
    } else {
        None
    }
}

/// What is left of a number without the weight of a value, or None where the value weighs more.
fn without_value(left: u64, v: &Value) -> Option<u64>
    ensures { MatchOption result (left < weight_of (value_data v.now)) (λ rest. rest
        + weight_of (value_data v.now) ≡ left) }
{
    match v {
        Value::Flag(_) | Value::Num(_) | Value::Id(_) | Value::Nothing => without(left, 1),
        Value::Str(text) => match without(left, 1) {
            Some(left) => without(left, text.bytes().len() as u64),
            None => None,
        },
        Value::Ids(ids) => match without(left, 1) {
            Some(left) => {
                let count = ids.len() as u64;
                if count <= left / 8 {
                    Some(left - 8 * count)
                } else {
                    None
                }
            }
            None => None,
        },
        Value::Just(inner) => without_value(left, inner.get()),
    }
}

/// Each number of 64 bits is in its range.
fn number_is_ranged(n: i64)
    ensures { HasRange (plain.Num n) }
{
    let _ = n;
}

/// A value of the code is in its range.
fn is_ranged(v: &Value)
    ensures { HasRange (value_data v.now) }
{
    match v {
        Value::Flag(_) => {}
        Value::Num(n) => number_is_ranged(*n),
        Value::Str(text) => {
            let _bytes = text.bytes();
        }
        Value::Id(_) => {}
        Value::Ids(_) => {}
        Value::Nothing => {}
        Value::Just(inner) => is_ranged(inner.get()),
    }
}

/// So is each value of slots.
fn slots_are_ranged(slots: &[Slot])
    ensures { HaveRanges (map slot_data slots.now) }
{
    match slots {
        [] => {}
        [slot, slots @ ..] => {
            is_ranged(&slot.value);
            slots_are_ranged(slots);
        }
    }
}

/// Each of records.
fn records_are_ranged(records: &[Record])
    ensures { RecordsHaveRanges (map record_data records.now) }
{
    for row in records {
        slots_are_ranged(row.slots.as_slice());
    }
}

/// Each of tables.
pub(crate) fn are_ranged(tables: &[Table])
    ensures { IsRanged (map table_data tables.now) }
{
    match tables {
        [] => {}
        [table, tables @ ..] => {
            records_are_ranged(table.records.as_slice());
            are_ranged(tables);
        }
    }
}

/// What is left of a number without the weights of slots, or None where they weigh more.
fn without_slots(left: u64, slots: &[Slot]) -> Option<u64>
    ensures { MatchOption result
        (left < sum_by (λ slot. weight_of slot.value) (map slot_data slots.now)) (λ rest. rest
        + sum_by (λ slot. weight_of slot.value) (map slot_data slots.now) ≡ left) }
{
    match slots {
        [] => Some(left),
        [slot, slots @ ..] => match without_value(left, &slot.value) {
            Some(left) => without_slots(left, slots),
            None => None,
        },
    }
}

/// What is left of a number without the weights of records, or None where they weigh more.
fn without_records(left: u64, records: &[Record]) -> Option<u64>
    ensures { MatchOption result
        (left < sum_by record_weight (map record_data records.now)) (λ rest. rest
        + sum_by record_weight (map record_data records.now) ≡ left) }
{
    let mut left = left;
    for row in records {
        match without_slots(left, row.slots.as_slice()) {
            Some(rest) => left = rest,
            None => return None,
        }
    }
    Some(left)
}

/// What is left of a number without the weights of tables, or None where they weigh more.
fn without_tables(left: u64, tables: &[Table]) -> Option<u64>
    ensures { MatchOption result (left < total_weight (map table_data tables.now)) (λ rest. rest
        + total_weight (map table_data tables.now) ≡ left) }
{
    match tables {
        [] => Some(left),
        [table, tables @ ..] => match without_records(left, table.records.as_slice()) {
            Some(left) => without_tables(left, tables),
            None => None,
        },
    }
}

/// Of what tables hold too much: first of records, then of weight.
fn too_much(tables: &[Table]) -> Option<Limit>
    ensures { result ≡ spec.excess Limits.Asked (map table_data tables.now) }
{
    match without_rows(MOST_RECORDS, tables) {
        Some(_) => match without_tables(MOST_WEIGHT, tables) {
            Some(_) => None,
            None => Some(Limit::Weight),
        },
        None => Some(Limit::Records),
    }
}

/// The same, where the limits are asked.
pub(crate) fn excess(limits: Limits, tables: &[Table]) -> Option<Limit>
    ensures { result ≡ spec.excess limits (map table_data tables.now) }
{
    match limits {
        Limits::Asked => too_much(tables),
        Limits::Waived => None,
    }
}
