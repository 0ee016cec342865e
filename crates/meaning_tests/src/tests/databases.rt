//! The worked database: an admin of 30 years, who is the manager of both, and a user of 20.

ghost use Rattle.std.specs.Prelude.{◌≡◌};

use data_records::{Database, Value};
use std::alloc::Global;
use std::test::Fail;
use text_ast::Txt;
use type_schema::{ModelInfo, Schema};

/// The text with these bytes, as a value.
pub fn text(alloc: Global, bytes: &[u8]) -> Result<Value, Fail> {
    match Txt::make(Vec::from_slice(alloc, bytes)?) {
        Some(text) => Ok(Value::Str(text)),
        None => Err(Fail::new("no text")),
    }
}

/// The values of a user's fields, in their order.
fn row(
    alloc: Global,
    email: &[u8],
    age: i64,
    admin: bool,
    secret: &[u8],
) -> Result<Vec<Value>, Fail> {
    let mut row = Vec::new(alloc);
    row.push(text(alloc, email)?)?;
    row.push(Value::Num(age))?;
    row.push(Value::Flag(admin))?;
    row.push(text(alloc, secret)?)?;
    row.push(Value::Id(1))?;
    Ok(row)
}

/// Puts the record into the database.
pub fn insert(
    alloc: Global,
    database: &mut Database,
    info: &ModelInfo,
    row: &[Value],
) -> Result<(), Fail> {
    if info.fields.as_slice().len() != row.len() {
        return Err(Fail::new("other fields"));
    }
    database.insert(alloc, info, row)?;
    Ok(())
}

/// Puts the two users into the database.
fn insert_two(alloc: Global, database: &mut Database, info: &ModelInfo) -> Result<(), Fail> {
    let first = row(alloc, b"a@x", 30, true, b"s1")?;
    insert(alloc, database, info, first.as_slice())?;
    let second = row(alloc, b"b@x", 20, false, b"s2")?;
    insert(alloc, database, info, second.as_slice())
}

/// The database of the two users and so many further ones, over a schema whose first model is
/// theirs.
pub fn more_users(alloc: Global, schema: &Schema, more: u32) -> Result<Database, Fail> {
    let mut database = two_users(alloc, schema)?;
    let Some(info) = schema.models.as_slice().first() else {
        return Err(Fail::new("no model"));
    };
    for _user in 0..more {
        let user = row(alloc, b"c@x", 40, false, b"s3")?;
        insert(alloc, &mut database, info, user.as_slice())?;
    }
    Ok(database)
}

/// The database of the two users, over a schema whose first model is theirs.
pub fn two_users(alloc: Global, schema: &Schema) -> Result<Database, Fail> {
    let mut database = Database::empty(alloc, schema)?;
    match schema.models.as_slice().first() {
        Some(info) => insert_two(alloc, &mut database, info)?,
        None => return Err(Fail::new("no model")),
    }
    Ok(database)
}
