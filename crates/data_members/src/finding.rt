//! The records that pass the tests of filters.

ghost use Rattle.std.specs.Prelude.{◌≡◌, filter, map, true, IfOk, IfSome, List};
ghost use Rattle.std.specs.List.{list_all};
ghost use Rattle.type_schema.specs.Trees.{no_filters};
ghost use Rattle.type_schema.specs.Views.{filter_of};
ghost use Rattle.text_tree.specs.declared.exprs.CmpOp.TheVariants.{Eq};
ghost use Rattle.text_tree.specs.declared.exprs.FilterOp.TheVariants.{Cmp};
ghost use Rattle.data_meaning.specs.Database.{Slot, ids_of, slots_of};
ghost use Rattle.data_meaning.specs.Meaning.{are_equal};
ghost use Rattle.data_meaning.specs.Values as stored;
ghost use Rattle.data_records.specs.Views.{slot_data, value_data};
ghost use Rattle.data_members.specs.Tests.{first_op, held_in, passes_in};
ghost use Rattle.data_members.specs.Variables.{first_field};

use crate::parts::passes;
use data_records::{Database, Record, Value};
use std::alloc::{AllocError, Global};
use text_tree::{CmpOp, FilterOp};
use type_schema::{FieldNo, ModelNo, TFilter};

/// The test of a filter: how what the field holds compares with a value.
#[derive(Drop)]
pub(crate) struct Test {
    pub(crate) field: FieldNo,
    pub(crate) op: FilterOp,
    pub(crate) with: Value,
}

/// The test of a filter, with the value of its expression.
pub(crate) fn test_of(filter: &TFilter, with: Value) -> Test
    ensures { result ≡ record {
      field = first_field (filter_of filter.now no_filters);
      op = first_op (filter_of filter.now no_filters);
      with = with;
    } }
{
    let TFilter::Test(field, op, _) = filter;
    Test {
        field: *field,
        op: *op,
        with,
    }
}

/// Whether the record passes the test.
fn passes_one(test: &Test, row: &Record) -> bool
    ensures { result ≡ passes_in (map slot_data row.now.slots) test.now }
{
    match row.value(test.field) {
        Some(held) => passes(test.op, held, &test.with),
        None => {
            let held = Value::Nothing;
            passes(test.op, &held, &test.with)
        }
    }
}

/// Whether the record passes each test.
pub(crate) fn passes_all(tests: &[Test], row: &Record) -> bool
    ensures { result ≡ list_all (passes_in (map slot_data row.now.slots)) tests.now }
{
    tests.iter().all(|test| passes_one(test, row))
}

/// The ids of the records that pass each test.
fn ids_passing(alloc: Global, records: &[Record], tests: &[Test]) -> Result<Vec<u64>, AllocError>
    ensures { IfOk result (λ found. found.items ≡ map (λ r. r.id)
        (filter (λ r. list_all (passes_in (map slot_data r.slots)) tests.now) records.now)) }
{
    records
        .iter()
        .filter(|row| passes_all(tests, row))
        .map(|row| row.id)
        .collect(alloc)
}

/// The id that the test asks for, if it asks whether a field is equal to an id.
fn id_asked(test: &Test) -> Option<u64>
    ensures { IfSome result (λ id. (test.now.op ≡ Cmp Eq) ×
        (value_data test.now.with ≡ stored.Id id)) }
{
    match (test.op, &test.with) {
        (FilterOp::Cmp(CmpOp::Eq), Value::Id(id)) => Some(*id),
        _ => None,
    }
}

/// A field, and an id to which it is equal in each record that passes the tests, if one of them
/// asks for that.
fn reference_asked(tests: &[Test]) -> Option<(FieldNo, u64)>
    ensures { IfSome result (λ it. (slots : List Slot) →
        list_all (passes_in slots) tests.now ≡ true →
        are_equal (held_in slots it.0) (stored.Id it.1) ≡ true) }
{
    let (test, tests) = tests.split_first()?;
    match id_asked(test) {
        Some(id) => Some((test.field, id)),
        None => reference_asked(tests),
    }
}

/// Whether the record of the id passes the test.
fn passes_at(database: &Database, m: ModelNo, id: u64, test: &Test) -> bool
    ensures { result ≡ passes_in (slots_of database.now m id) test.now }
{
    match database.value(m, id, test.field) {
        Some(held) => passes(test.op, held, &test.with),
        None => {
            let held = Value::Nothing;
            passes(test.op, &held, &test.with)
        }
    }
}

/// Whether the record of the id passes each test.
fn passes_all_at(database: &Database, m: ModelNo, id: u64, tests: &[Test]) -> bool
    ensures { result ≡ list_all (passes_in (slots_of database.now m id)) tests.now }
{
    tests.iter().all(|test| passes_at(database, m, id, test))
}

/// Those of the ids whose records pass each test.
fn ids_left(
    alloc: Global,
    database: &Database,
    m: ModelNo,
    ids: &[u64],
    tests: &[Test],
) -> Result<Vec<u64>, AllocError>
    ensures { IfOk result (λ found. found.items
        ≡ filter (λ y. list_all (passes_in (slots_of database.now m y)) tests.now) ids.now) }
{
    ids.iter()
        .copied()
        .filter(|id| passes_all_at(database, m, *id, tests))
        .collect(alloc)
}

/// The ids of the records of the model that pass each test. Where a test asks whether a field is
/// equal to an id, only the records that hold it are looked at.
pub(crate) fn ids_found(
    alloc: Global,
    database: &Database,
    m: ModelNo,
    tests: &[Test],
) -> Result<Vec<u64>, AllocError>
    ensures { IfOk result (λ found. found.items
        ≡ filter (λ y. list_all (passes_in (slots_of database.now m y)) tests.now)
        (ids_of database.now m)) }
{
    match reference_asked(tests) {
        Some((f, id)) => {
            let ids = database.ids_holding(alloc, m, f, id)?;
            ids_left(alloc, database, m, ids.as_slice(), tests)
        }
        None => ids_passing(alloc, database.records(m), tests),
    }
}
