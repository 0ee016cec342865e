//! Which records `find` shows.

ghost use Rattle.std.specs.Prelude.{◌≡◌, IfOk, IfSome, filter, map};
ghost use Rattle.std.specs.List.{list_all};
ghost use Rattle.data_records.specs.Views.{record_data, slot_data};
ghost use Rattle.door_meaning.specs.Conditions.{found_ids};
ghost use Rattle.door_meaning.specs.Records.{ids_shown};
ghost use Rattle.door_judge.specs.Coming.{Comes};
ghost use Rattle.door_judge.specs.Tests as spec;
ghost use Rattle.door_judge.specs.Tests.{IsEquality, IsNeeded, is_shown_at};
ghost use Rattle.door_judge.specs.Tests.{is_there_and_shown, test_data};
ghost use Rattle.type_schema.specs.SchemaViews.{schema_of};

use crate::cell::model_of_name;
use crate::compare::meets;
use crate::conditions::{Test, fields_named, tests_of};
use crate::halt::Halt;
use crate::policies::permits;
use data_meaning::Principal;
use data_records::{Database, Record, Value};
use door_requests::Condition;
use sqlite_items::Items;
use std::alloc::{AllocError, Global};
use text_tree::{CmpOp, FilterOp, Named};
use type_schema::{FieldNo, ModelNo, Schema};

/// Whether the record holds what the test asks.
fn meets_one(test: &Test, row: &Record) -> bool
    ensures { result ≡ spec.meets_in (map slot_data row.now.slots) (test_data test.now) }
{
    match row.value(test.field.number) {
        Some(held) => meets(test.op, held, &test.value),
        None => {
            let held = Value::Nothing;
            meets(test.op, &held, &test.value)
        }
    }
}

/// Whether the record holds what each test asks.
fn meets_all(tests: &[Test], row: &Record) -> bool
    ensures { result ≡ list_all (λ test. spec.meets_in (map slot_data row.now.slots) (test_data test))
        tests.now }
{
    tests.iter().all(|test| meets_one(test, row))
}

/// Whether the principal of a session may read the field of each test at the record.
fn may_read_all(
    alloc: Global,
    d: &Database,
    who: Option<Principal>,
    tests: &[Test],
    id: u64,
) -> Result<bool, AllocError>
    ensures { IfOk result (λ b. b ≡ spec.may_read_all d.now who (map test_data tests.now) id) }
{
    for test in tests {
        if !permits(alloc, d, &test.field.read, id, who)? {
            return Ok(false);
        }
    }
    Ok(true)
}

/// Whether the record is shown. Policies are asked last, since they take longest.
fn is_shown(
    alloc: Global,
    d: &Database,
    who: Option<Principal>,
    tests: &[Test],
    row: &Record,
) -> Result<bool, AllocError>
    ensures { IfOk result (λ b. b
        ≡ is_shown_at d.now who (map test_data tests.now) (record_data row.now)) }
{
    if meets_all(tests, row) {
        may_read_all(alloc, d, who, tests, row.id)
    } else {
        Ok(false)
    }
}

/// The ids of those of the records that are shown.
fn shown_among(
    alloc: Global,
    d: &Database,
    who: Option<Principal>,
    tests: &[Test],
    records: &[Record],
) -> Result<Vec<u64>, AllocError>
    ensures { IfOk result (λ found. found.items ≡ map (λ r. r.id)
        (filter (λ r. is_shown_at d.now who (map test_data tests.now) (record_data r)) records.now)) }
{
    let mut found = Vec::new(alloc);
    for row in records {
        if is_shown(alloc, d, who, tests, row)? {
            found.push(row.id)?;
        }
    }
    Ok(found)
}

/// A field of references, and the id that a record has to hold in it.
#[derive(Clone, Copy)]
struct Key {
    field: FieldNo,
    id: u64,
}

/// What the test asks, if it is an equality on references.
fn key_in(test: &Test) -> Option<Key>
    ensures { IfSome result (λ key. IsEquality (test_data test.now) key.field key.id) }
{
    match test.op {
        FilterOp::Cmp(CmpOp::Eq) => match &test.value {
            Value::Id(id) => Some(Key {
                field: test.field.number,
                id: *id,
            }),
            Value::Flag(_)
            | Value::Num(_)
            | Value::Str(_)
            | Value::Ids(_)
            | Value::Nothing
            | Value::Just(_) => None,
        },
        FilterOp::Cmp(CmpOp::Ne | CmpOp::Lt | CmpOp::Le | CmpOp::Gt | CmpOp::Ge) | FilterOp::Has =>
            None,
    }
}

/// What the first of the tests asks that is an equality on references.
fn key_of(tests: &[Test]) -> Option<Key>
    ensures { IfSome result (λ key. IsNeeded (map test_data tests.now) key.field key.id) }
{
    for test in tests {
        if let Some(key) = key_in(test) {
            return Some(key);
        }
    }
    None
}

/// Whether the record of the id is there and is shown.
fn is_shown_there(
    alloc: Global,
    d: &Database,
    m: ModelNo,
    who: Option<Principal>,
    tests: &[Test],
    id: u64,
) -> Result<bool, AllocError>
    ensures { IfOk result (λ b. b
        ≡ is_there_and_shown d.now m who (map test_data tests.now) id) }
{
    match d.get(m, id) {
        Some(row) => is_shown(alloc, d, who, tests, row),
        None => Ok(false),
    }
}

/// Those of the ids whose records are shown.
fn shown_ids(
    alloc: Global,
    d: &Database,
    m: ModelNo,
    who: Option<Principal>,
    tests: &[Test],
    ids: &[u64],
) -> Result<Vec<u64>, AllocError>
    ensures { IfOk result (λ found. found.items
        ≡ filter (λ id. is_there_and_shown d.now m who (map test_data tests.now) id) ids.now) }
{
    let mut found = Vec::new(alloc);
    for id in ids {
        if is_shown_there(alloc, d, m, who, tests, *id)? {
            found.push(*id)?;
        }
    }
    Ok(found)
}

/// The ids of the records of the model that are shown, rising. Where one of the tests is an
/// equality on references, only records that hold the reference are looked at.
fn found_ids(
    alloc: Global,
    d: &Database,
    m: ModelNo,
    who: Option<Principal>,
    tests: &[Test],
) -> Result<Vec<u64>, AllocError>
    ensures { IfOk result (λ found. found.items
        ≡ found_ids d.now m who (map test_data tests.now)) }
{
    match key_of(tests) {
        Some(key) => {
            let ids = d.ids_holding(alloc, m, key.field, key.id)?;
            shown_ids(alloc, d, m, who, tests, ids.as_slice())
        }
        None => shown_among(alloc, d, who, tests, d.records(m)),
    }
}

/// The ids of the records of the model that meet the conditions, rising, where the principal of a
/// session may read each of their fields.
pub fn ids_shown(
    alloc: Global,
    s: &Schema,
    d: &Database,
    who: Option<Principal>,
    model: &Named,
    conditions: &[Condition],
) -> Result<Items<u64>, Halt>
    ensures { Comes (ids_shown (schema_of s.now) d.now who model.now conditions.now) (λ ids. ids)
        result }
{
    let info = model_of_name(s, model)?;
    let fields = fields_named(alloc, info, conditions)?;
    let tests = tests_of(alloc, info, fields.as_slice(), conditions)?;
    let found = found_ids(alloc, d, info.number, who, tests.as_slice())?;
    Ok(Items::from_vec(found))
}
