//! Values and rows that literals name.

use crate::tests::{MOST_BYTES, company};
use data_judge::{LitErr, row_from, value_from};
use data_parse::parse_data;
use data_records::Value;
use data_tree::{FieldLit, Lit, TableLit, WrittenId};
use sqlite_items::Items;
use std::alloc::Global;
use std::test::Fail;
use text_ast::Name;
use text_tree::Named;
use type_schema::Schema;

fn given(alloc: Global, word: &[u8], value: Lit) -> Result<FieldLit, Fail> {
    let name = Name::make(alloc, word)?.ok_or("no name")?;
    Ok(FieldLit {
        name: Named { name, at: 0 },
        value,
    })
}

fn id(number: u64) -> Lit {
    Lit::Id(WrittenId { number, at: 1 }, 0)
}

fn list(alloc: Global, first: Lit, second: Lit) -> Result<Lit, Fail> {
    let mut items = Items::new(alloc);
    items.push(first)?;
    items.push(second)?;
    Ok(Lit::List(items, 0))
}

/// What the row of a team with the id 7 is, where it is given members and another field.
fn team(
    alloc: Global,
    s: &Schema,
    members: Lit,
    other: &[u8],
) -> Result<Result<Items<Value>, LitErr>, Fail> {
    let mut fields = Vec::new(alloc);
    fields.push(given(alloc, b"members", members)?)?;
    fields.push(given(alloc, other, Lit::NoneLit(0))?)?;
    let info = s.models.get(1).ok_or("no team")?;
    Ok(row_from(alloc, info, fields.as_slice(), 7))
}

/// What `self` is as the manager of a user.
fn manager(alloc: Global, s: &Schema, own: Option<u64>) -> Result<Result<Value, LitErr>, Fail> {
    let info = s.models.get(0).ok_or("no user")?;
    let field = info.fields.get(4).ok_or("no manager")?;
    Ok(value_from(alloc, info, field, &Lit::SelfId(0), own))
}

fn is_team(row: Result<Items<Value>, LitErr>) -> bool {
    match row {
        Ok(row) => match row.as_slice() {
            [Value::Ids(ids), Value::Nothing] => ids.as_slice() == [1, 2].as_slice(),
            _ => false,
        },
        Err(_) => false,
    }
}

fn is_refused(row: Result<Items<Value>, LitErr>, err: LitErr) -> bool {
    match row {
        Ok(_) => false,
        Err(found) => found == err,
    }
}

#[test]
fn literals_name_a_row(rt: HostRuntime) -> Result<(), Fail> {
    let alloc = rt.alloc();
    let s = company(alloc)?;
    let row = team(alloc, &s, list(alloc, id(2), id(1))?, b"lead")?;
    assert!(rt; is_team(row));
    let other = team(alloc, &s, list(alloc, id(2), Lit::SelfId(3))?, b"lead")?;
    assert!(rt; is_refused(other, LitErr::WrongShape { field: 5 }));
    let boss = team(alloc, &s, list(alloc, id(2), id(2))?, b"boss")?;
    assert!(rt; is_refused(boss, LitErr::Unknown { place: 1 }));
    Ok(())
}

#[test]
fn the_record_that_is_made(rt: HostRuntime) -> Result<(), Fail> {
    let alloc = rt.alloc();
    let s = company(alloc)?;
    assert!(rt; matches!(manager(alloc, &s, Some(4))?, Ok(Value::Id(4))));
    assert!(rt;
        matches!(
            manager(alloc, &s, None)?,
            Err(LitErr::WrongShape { field: 4 })
        )
    );
    Ok(())
}

/// Fields of a record of users, 0, or of teams, 1, by what refuses them: the name that is unknown,
/// counted from 0, or the number of the field that has no value.
const REFUSED_ROWS: &[(&str, &str, usize, &str)] = &[
    (
        "unknown_at, the first of two",
        "name 1",
        1,
        "{members: [], boss: none, email: none}",
    ),
    (
        "unknown_at, before shapes",
        "name 1",
        1,
        "{members: none, boss: none}",
    ),
    (
        "push_values, the first is not given",
        "field 5",
        1,
        "{lead: none}",
    ),
    (
        "push_values, the last is not given",
        "field 6",
        1,
        "{members: []}",
    ),
    (
        "one_given, twice",
        "field 6",
        1,
        "{lead: none, members: [], lead: none}",
    ),
    (
        "one_given, the first twice",
        "field 5",
        1,
        "{members: [], members: [], lead: 5}",
    ),
    (
        "set_named, an id",
        "field 5",
        1,
        "{members: @1, lead: none}",
    ),
    (
        "set_named, none",
        "field 5",
        1,
        "{members: none, lead: none}",
    ),
    (
        "set_named, some",
        "field 5",
        1,
        "{members: some(@1), lead: none}",
    ),
    (
        "set_named, a number",
        "field 5",
        1,
        "{members: 1, lead: none}",
    ),
    (
        "set_named, a text",
        "field 5",
        1,
        "{members: \"\", lead: none}",
    ),
    (
        "set_named, a truth value",
        "field 5",
        1,
        "{members: true, lead: none}",
    ),
    (
        "add_named, a number",
        "field 5",
        1,
        "{members: [@1, 2], lead: none}",
    ),
    (
        "add_named, again",
        "field 5",
        1,
        "{members: [@2, @1, @2], lead: none}",
    ),
    (
        "option_named, an id",
        "field 6",
        1,
        "{members: [], lead: @1}",
    ),
    (
        "option_named, a list",
        "field 6",
        1,
        "{members: [], lead: [@1]}",
    ),
    (
        "option_named, a number",
        "field 6",
        1,
        "{members: [], lead: 1}",
    ),
    (
        "option_named, a text",
        "field 6",
        1,
        "{members: [], lead: \"\"}",
    ),
    (
        "option_named, a truth value",
        "field 6",
        1,
        "{members: [], lead: true}",
    ),
    (
        "base_named, in an option",
        "field 6",
        1,
        "{members: [], lead: some(1)}",
    ),
    (
        "base_named, none in an option",
        "field 6",
        1,
        "{members: [], lead: some(none)}",
    ),
    (
        "base_named, a text",
        "field 0",
        0,
        "{email: 1, age: none, isAdmin: none, secret: 1, manager: @1}",
    ),
    (
        "base_named, a number",
        "field 1",
        0,
        "{email: \"\", age: \"\", isAdmin: none, secret: 1, manager: @1}",
    ),
    (
        "base_named, a truth value",
        "field 2",
        0,
        "{email: \"\", age: 1, isAdmin: 1, secret: 1, manager: @1}",
    ),
    (
        "base_named, an id",
        "field 4",
        0,
        "{email: \"\", age: 1, isAdmin: true, secret: \"\", manager: 1}",
    ),
    (
        "base_named, some",
        "field 4",
        0,
        "{email: \"\", age: 1, isAdmin: true, secret: \"\", manager: some(@1)}",
    ),
    (
        "a row",
        "row",
        0,
        "{email: \"\", age: 1, isAdmin: true, secret: \"\", manager: @9}",
    ),
    (
        "a row in another order",
        "row",
        1,
        "{lead: some(@0), members: [@3, @1]}",
    ),
];

/// The tables that a short text spells.
fn tables_of(alloc: Global, text: &[u8]) -> Result<Items<TableLit>, Fail> {
    if text.len() > MOST_BYTES {
        return Err(Fail::new("too long"));
    }
    Ok(parse_data(alloc, text)?)
}

/// Why there is no value.
fn told_err(alloc: Global, err: LitErr) -> Result<String, Fail> {
    match err {
        LitErr::Unknown { place } => Ok(format!(in alloc; "name {place}")?),
        LitErr::WrongShape { field } => Ok(format!(in alloc; "field {field}")?),
        LitErr::OutOfMemory => Ok("out of memory".to_string(alloc)?),
    }
}

/// What is said of the fields as a row of the model.
fn told(alloc: Global, s: &Schema, model: usize, fields: &[FieldLit]) -> Result<String, Fail> {
    let info = s.models.get(model).ok_or("no model")?;
    match row_from(alloc, info, fields, 7) {
        Ok(_) => Ok("row".to_string(alloc)?),
        Err(err) => told_err(alloc, err),
    }
}

#[test]
fn each_shape_refuses(rt: HostRuntime) -> Result<(), Fail> {
    let alloc = rt.alloc();
    let s = company(alloc)?;
    for (place, wanted, model, fields) in REFUSED_ROWS {
        let text = format!(in alloc; "Any @2 {{@1 {fields}}}")?;
        let tables = tables_of(alloc, text.as_bytes())?;
        let table = tables.get(0).ok_or("no table")?;
        let record = table.records.get(0).ok_or("no record")?;
        let told = told(alloc, &s, *model, record.fields.as_slice())?;
        assert_eq!(rt; told.as_str(), *wanted, "of {place}");
    }
    Ok(())
}
