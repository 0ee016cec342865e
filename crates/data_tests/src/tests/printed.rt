//! The text of a database.

ghost use Rattle.std.specs.Prelude.{◌≡◌, IfOk, length};

use crate::tests::{field, name, text};
use data_print::print_database;
use data_records::{Database, Value};
use sqlite_items::{Boxed, Items};
use std::alloc::Global;
use std::rc::Rc;
use std::test::Fail;
use type_schema::{ModelInfo, Schema, TBase, TPolicy, TTy};

/// Users with an email, friends and perhaps an age.
fn users(alloc: Global) -> Result<ModelInfo, Fail>
    ensures { IfOk result (λ info. length info.fields ≡ 3) }
{
    let mut fields = Items::new(alloc);
    fields.push(field(alloc, 0, b"email", TTy::Plain(TBase::Text))?)?;
    fields.push(field(alloc, 1, b"friends", TTy::Set(0))?)?;
    fields.push(field(alloc, 2, b"age", TTy::Opt(TBase::Int))?)?;
    Ok(ModelInfo {
        number: 0,
        name: name(alloc, b"User")?,
        principal: true,
        create: Rc::new(alloc, TPolicy::Nobody)?,
        delete: Rc::new(alloc, TPolicy::Nobody)?,
        fields,
    })
}

fn schema_of_users(alloc: Global) -> Result<Schema, Fail> {
    let mut models = Items::new(alloc);
    models.push(users(alloc)?)?;
    Ok(Schema {
        statics: Items::new(alloc),
        models,
        next_static: 0,
        next_model: 1,
        next_field: 3,
        added: Items::new(alloc),
        removed: Items::new(alloc),
    })
}

fn insert_two(alloc: Global, database: &mut Database) -> Result<(), Fail> {
    let info = users(alloc)?;
    let age = Value::Just(Boxed::new(alloc, Value::Num(-30))?);
    let row = [
        text(alloc, b"a@x\n\x01")?,
        Value::Ids(Items::new(alloc)),
        age,
    ];
    database.insert(alloc, &info, &row)?;
    let both: &[u64] = &[1, 2];
    let friends = Value::Ids(Items::from_slice(alloc, both)?);
    let row = [text(alloc, b"b")?, friends, Value::Nothing];
    database.insert(alloc, &info, &row)?;
    Ok(())
}

#[test]
fn users_are_printed(rt: HostRuntime) -> Result<(), Fail> {
    let alloc = rt.alloc();
    let s = schema_of_users(alloc)?;
    let mut database = Database::empty(alloc, &s)?;
    insert_two(alloc, &mut database)?;
    let printed = print_database(alloc, &database, &s)?;
    let wanted: &[u8] = b"User @3 {\n\
        \x20 @1 {email: \"a@x\\n\\x01\", friends: [], age: some(-30)}\n\
        \x20 @2 {email: \"b\", friends: [@1, @2], age: none}\n}\n";
    assert_eq!(rt; printed.as_slice(), wanted);
    Ok(())
}

/// Each of 4,096 quotes is printed as two bytes.
#[test]
fn a_long_text_is_printed(rt: HostRuntime) -> Result<(), Fail> {
    let alloc = rt.alloc();
    let s = schema_of_users(alloc)?;
    let info = users(alloc)?;
    let mut database = Database::empty(alloc, &s)?;
    let mut quotes = Vec::new(alloc);
    let mut wanted = Vec::from_slice(alloc, b"User @2 {\n  @1 {email: \"")?;
    for _quote in 0..4_096 {
        quotes.push(b'"')?;
        wanted.push(b'\\')?;
        wanted.push(b'"')?;
    }
    let end: &[u8] = b"\", friends: [], age: none}\n}\n";
    wanted.extend_from_slice(end)?;
    let email = text(alloc, quotes.as_slice())?;
    let row = [email, Value::Ids(Items::new(alloc)), Value::Nothing];
    database.insert(alloc, &info, &row)?;
    let printed = print_database(alloc, &database, &s)?;
    assert!(rt; printed.as_slice() == wanted.as_slice());
    Ok(())
}
