//! A database over a schema with gaps in its numbers, numbered anew.

use crate::tests::databases::{insert, text};
use crate::tests::typed;
use crate::tests::written::{SCRIPT, last_schema};
use data_meaning::Principal;
use data_members::allows;
use data_print::print_database;
use data_records::{Database, Value};
use std::alloc::Global;
use std::test::Fail;
use type_anew::renumber;
use type_schema::{FieldInfo, Schema};

/// Two users, of whom the second has written a note.
const NOTED: &[u8] = b"User @3 {
  @1 {email: \"a@x\", age: 30, secret: \"s1\", manager: @1, level: 2}
  @2 {email: \"b@x\", age: 20, secret: \"s2\", manager: @1, level: 0}
}
Note @2 {
  @1 {owner: @2}
}
";

/// The values of a user's fields, in their order.
fn user(
    alloc: Global,
    email: &[u8],
    age: i64,
    secret: &[u8],
    level: i64,
) -> Result<Vec<Value>, Fail> {
    let mut row = Vec::new(alloc);
    row.push(text(alloc, email)?)?;
    row.push(Value::Num(age))?;
    row.push(text(alloc, secret)?)?;
    row.push(Value::Id(1))?;
    row.push(Value::Num(level))?;
    Ok(row)
}

/// The database of the users and the note.
fn noted(alloc: Global, schema: &Schema) -> Result<Database, Fail> {
    let [users, notes] = schema.models.as_slice() else {
        return Err(Fail::new("other models"));
    };
    let mut database = Database::empty(alloc, schema)?;
    let first = user(alloc, b"a@x", 30, b"s1", 2)?;
    insert(alloc, &mut database, users, first.as_slice())?;
    let second = user(alloc, b"b@x", 20, b"s2", 0)?;
    insert(alloc, &mut database, users, second.as_slice())?;
    insert(alloc, &mut database, notes, &[Value::Id(2)])?;
    Ok(database)
}

/// The field of the user's secret, which those of a level of 2 and more may read.
fn secret(schema: &Schema) -> Result<&FieldInfo, Fail> {
    let Some(users) = schema.models.as_slice().first() else {
        return Err(Fail::new("no users"));
    };
    let Some(field) = users.fields.as_slice().get(2) else {
        return Err(Fail::new("no secret"));
    };
    Ok(field)
}

/// Whether just the first user may read secrets.
fn is_kept(alloc: Global, database: &Database, schema: &Schema) -> Result<bool, Fail> {
    let policy = &secret(schema)?.read;
    let first = allows(alloc, database, policy, Principal::Rec(0, 1), 2)?;
    let second = allows(alloc, database, policy, Principal::Rec(0, 2), 2)?;
    Ok(first && !second)
}

#[test]
fn a_database_is_numbered_anew(rt: HostRuntime) -> Result<(), Fail> {
    let alloc = rt.alloc();
    let t = typed(alloc, SCRIPT)?;
    let last = last_schema(&t);
    let mut database = noted(alloc, last)?;
    let before = print_database(alloc, &database, last)?;
    assert_eq!(rt; before.as_slice(), NOTED);
    assert!(rt; is_kept(alloc, &database, last)?);
    let anew = renumber(alloc, last)?;
    database.renumber(last);
    let after = print_database(alloc, &database, &anew)?;
    assert_eq!(rt; after.as_slice(), NOTED);
    assert!(rt; is_kept(alloc, &database, &anew)?);
    assert!(rt; database.value(1, 1, 5).is_some());
    assert!(rt; database.value(2, 1, 7).is_none());
    Ok(())
}
