//! Records of users.

ghost use Rattle.std.specs.Prelude.{◌≡◌, IfOk, length};

use crate::tests::{field, name, text};
use data_meaning::Principal;
use data_records::{DataErr, Database, Value};
use sqlite_items::{Boxed, Items};
use std::alloc::Global;
use std::rc::Rc;
use std::test::Fail;
use type_schema::{ModelInfo, Schema, TBase, TPolicy, TTy};

/// Users with an email, a manager and perhaps an age.
fn users(alloc: Global) -> Result<ModelInfo, Fail>
    ensures { IfOk result (λ info. length info.fields ≡ 3) }
{
    let mut fields = Items::new(alloc);
    fields.push(field(alloc, 0, b"email", TTy::Plain(TBase::Text))?)?;
    fields.push(field(alloc, 1, b"manager", TTy::Plain(TBase::Id(0)))?)?;
    fields.push(field(alloc, 2, b"age", TTy::Opt(TBase::Int))?)?;
    Ok(ModelInfo {
        number: 0,
        name: name(alloc, b"User")?,
        principal: true,
        create: Rc::new(alloc, TPolicy::Nobody)?,
        delete: Rc::new(alloc, TPolicy::Nobody)?,
        fields,
    })
}

fn schema_of_users(alloc: Global) -> Result<Schema, Fail> {
    let mut models = Items::new(alloc);
    models.push(users(alloc)?)?;
    Ok(Schema {
        statics: Items::new(alloc),
        models,
        next_static: 0,
        next_model: 1,
        next_field: 3,
        added: Items::new(alloc),
        removed: Items::new(alloc),
    })
}

fn database_of_users(alloc: Global) -> Result<Database, Fail> {
    let s = schema_of_users(alloc)?;
    Ok(Database::empty(alloc, &s)?)
}

/// Two users, of whom the first is the manager of both.
fn insert_two(alloc: Global, info: &ModelInfo, database: &mut Database) -> Result<(), Fail>
    requires { length info.now.fields ≡ 3 }
{
    let row = [text(alloc, b"a@x")?, Value::Id(1), Value::Nothing];
    database.insert(alloc, info, &row)?;
    let row = [text(alloc, b"b@x")?, Value::Id(1), Value::Nothing];
    database.insert(alloc, info, &row)?;
    Ok(())
}

fn database_of_two(alloc: Global) -> Result<Database, Fail> {
    let info = users(alloc)?;
    let mut database = database_of_users(alloc)?;
    insert_two(alloc, &info, &mut database)?;
    Ok(database)
}

#[test]
fn a_record_may_name_itself(rt: HostRuntime) -> Result<(), Fail> {
    let alloc = rt.alloc();
    let info = users(alloc)?;
    let mut database = database_of_users(alloc)?;
    let age = Value::Just(Boxed::new(alloc, Value::Num(30))?);
    let row = [text(alloc, b"a@x")?, Value::Id(1), age];
    let id = database.insert(alloc, &info, &row)?;
    assert_eq!(rt; id, 1);
    assert!(rt; database.has(0, 1));
    assert!(rt; matches!(database.value(0, 1, 1), Some(Value::Id(1))));
    assert!(rt; database.get(0, 2).is_none());
    Ok(())
}

#[test]
fn an_id_names_a_record(rt: HostRuntime) -> Result<(), Fail> {
    let alloc = rt.alloc();
    let info = users(alloc)?;
    let mut database = database_of_users(alloc)?;
    let row = [text(alloc, b"a@x")?, Value::Id(9), Value::Nothing];
    let answer = database.insert(alloc, &info, &row);
    assert!(rt; matches!(answer, Err(DataErr::Dangling { field: 1, id: 9 })));
    Ok(())
}

#[test]
fn a_value_is_of_its_type(rt: HostRuntime) -> Result<(), Fail> {
    let alloc = rt.alloc();
    let info = users(alloc)?;
    let mut database = database_of_users(alloc)?;
    let row = [text(alloc, b"a@x")?, Value::Id(9), Value::Num(30)];
    let answer = database.insert(alloc, &info, &row);
    assert!(rt; matches!(answer, Err(DataErr::WrongShape { field: 2 })));
    Ok(())
}

#[test]
fn a_record_that_is_named_stays(rt: HostRuntime) -> Result<(), Fail> {
    let alloc = rt.alloc();
    let mut database = database_of_two(alloc)?;
    let s = schema_of_users(alloc)?;
    let answer = database.remove(&s, 0, 1);
    assert!(rt;
        matches!(
            answer,
            Err(DataErr::Referenced {
                model: 0,
                id: 2,
                field: 1
            })
        )
    );
    assert!(rt; database.remove(&s, 0, 2).is_ok());
    assert!(rt; database.remove(&s, 0, 1).is_ok());
    assert!(rt; matches!(database.remove(&s, 0, 1), Err(DataErr::NoRecord)));
    Ok(())
}

#[test]
fn a_field_is_set(rt: HostRuntime) -> Result<(), Fail> {
    let alloc = rt.alloc();
    let mut database = database_of_two(alloc)?;
    let age = field(alloc, 2, b"age", TTy::Opt(TBase::Int))?;
    let answer = database.set_field(alloc, 0, 2, &age, &Value::Num(30));
    assert!(rt; matches!(answer, Err(DataErr::WrongShape { field: 2 })));
    let answer = database.set_field(alloc, 0, 3, &age, &Value::Nothing);
    assert!(rt; matches!(answer, Err(DataErr::NoRecord)));
    let some = Value::Just(Boxed::new(alloc, Value::Num(31))?);
    assert!(rt; database.set_field(alloc, 0, 2, &age, &some).is_ok());
    assert!(rt; matches!(database.value(0, 2, 2), Some(Value::Just(_))));
    Ok(())
}

#[test]
fn a_record_of_a_marked_model_is_a_principal(rt: HostRuntime) -> Result<(), Fail> {
    let alloc = rt.alloc();
    let database = database_of_two(alloc)?;
    let s = schema_of_users(alloc)?;
    assert!(rt; database.has_principal(&s, Principal::Rec(0, 2)));
    assert!(rt; !database.has_principal(&s, Principal::Rec(0, 3)));
    assert!(rt; !database.has_principal(&s, Principal::Static(0)));
    Ok(())
}
