//! Databases at their limits.

ghost use Rattle.std.specs.Prelude.{◌≡◌, IfOk, length};

use crate::tests::{field, name, text};
use data_meaning::limits::LAST_ID;
use data_records::{DataErr, Database, Limit, Table, Value};
use sqlite_items::Items;
use std::alloc::Global;
use std::rc::Rc;
use std::test::Fail;
use type_schema::{ModelInfo, Schema, TBase, TPolicy, TTy};

/// Notes with a body, and the notes that they are about.
fn notes(alloc: Global) -> Result<ModelInfo, Fail>
    ensures { IfOk result (λ info. length info.fields ≡ 2) }
{
    let mut fields = Items::new(alloc);
    fields.push(field(alloc, 0, b"body", TTy::Plain(TBase::Text))?)?;
    fields.push(field(alloc, 1, b"about", TTy::Set(0))?)?;
    Ok(ModelInfo {
        number: 0,
        name: name(alloc, b"Note")?,
        principal: false,
        create: Rc::new(alloc, TPolicy::Nobody)?,
        delete: Rc::new(alloc, TPolicy::Nobody)?,
        fields,
    })
}

fn schema_of_notes(alloc: Global) -> Result<Schema, Fail> {
    let mut models = Items::new(alloc);
    models.push(notes(alloc)?)?;
    Ok(Schema {
        statics: Items::new(alloc),
        models,
        next_static: 0,
        next_model: 1,
        next_field: 2,
        added: Items::new(alloc),
        removed: Items::new(alloc),
    })
}

/// A body of so many bytes.
fn body(alloc: Global, len: usize) -> Result<Value, Fail> {
    let mut bytes = Vec::new(alloc);
    for _byte in 0..len {
        bytes.push(b'x')?;
    }
    text(alloc, bytes.as_slice())
}

fn ids(alloc: Global, ids: &[u64]) -> Result<Value, Fail> {
    Ok(Value::Ids(Items::from_slice(alloc, ids)?))
}

/// Inserts a note whose body has so many bytes.
fn insert(
    alloc: Global,
    info: &ModelInfo,
    database: &mut Database,
    len: usize,
) -> Result<Result<u64, DataErr>, Fail>
    requires { length info.now.fields ≡ 2 }
{
    let row = [body(alloc, len)?, ids(alloc, &[])?];
    Ok(database.insert(alloc, info, &row))
}

/// Inserts so many notes whose bodies have so many bytes.
fn fill(
    alloc: Global,
    info: &ModelInfo,
    database: &mut Database,
    count: usize,
    len: usize,
) -> Result<(), Fail>
    requires { length info.now.fields ≡ 2 }
{
    let row = [body(alloc, len)?, ids(alloc, &[])?];
    for _note in 0..count {
        database.insert(alloc, info, &row)?;
    }
    Ok(())
}

#[test]
fn a_database_has_20000_records(rt: HostRuntime) -> Result<(), Fail> {
    let alloc = rt.alloc();
    let info = notes(alloc)?;
    let s = schema_of_notes(alloc)?;
    let mut database = Database::empty(alloc, &s)?;
    fill(alloc, &info, &mut database, 20_000, 0)?;
    assert!(rt; database.has(0, 20_000));
    assert!(rt;
        matches!(
            insert(alloc, &info, &mut database, 0)?,
            Err(DataErr::Full {
                what: Limit::Records
            })
        )
    );
    assert_eq!(rt; database.records(0).len(), 20_000);
    assert!(rt; database.remove(&s, 0, 10_000).is_ok());
    assert!(rt; database.get(0, 10_000).is_none());
    assert!(rt; database.has(0, 9_999) && database.has(0, 10_001));
    assert!(rt; matches!(insert(alloc, &info, &mut database, 0)?, Ok(20_001)));
    assert!(rt;
        matches!(
            insert(alloc, &info, &mut database, 0)?,
            Err(DataErr::Full {
                what: Limit::Records
            })
        )
    );
    Ok(())
}

/// Whether the answer refuses the weight.
fn is_too_heavy<T>(answer: &Result<T, DataErr>) -> bool {
    matches!(
        answer,
        Err(DataErr::Full {
            what: Limit::Weight
        })
    )
}

/// 8,188 notes of 4,098 leave a weight of 8.
#[test]
fn a_database_weighs_33554432(rt: HostRuntime) -> Result<(), Fail> {
    let alloc = rt.alloc();
    let info = notes(alloc)?;
    let s = schema_of_notes(alloc)?;
    let mut database = Database::empty(alloc, &s)?;
    fill(alloc, &info, &mut database, 8_188, 4_096)?;
    assert!(rt; is_too_heavy(&insert(alloc, &info, &mut database, 4_096)?));
    assert!(rt; is_too_heavy(&insert(alloc, &info, &mut database, 7)?));
    assert!(rt; matches!(insert(alloc, &info, &mut database, 6)?, Ok(8_189)));
    assert!(rt; is_too_heavy(&insert(alloc, &info, &mut database, 0)?));
    Ok(())
}

#[test]
fn a_value_that_is_set_is_weighed(rt: HostRuntime) -> Result<(), Fail> {
    let alloc = rt.alloc();
    let info = notes(alloc)?;
    let s = schema_of_notes(alloc)?;
    let mut database = Database::empty(alloc, &s)?;
    fill(alloc, &info, &mut database, 8_188, 4_096)?;
    let bodies = field(alloc, 0, b"body", TTy::Plain(TBase::Text))?;
    let about = field(alloc, 1, b"about", TTy::Set(0))?;
    let two = ids(alloc, &[1, 2])?;
    assert!(rt; is_too_heavy(&database.set_field(alloc, 0, 1, &about, &two)));
    let one = ids(alloc, &[2])?;
    assert!(rt; database.set_field(alloc, 0, 1, &about, &one).is_ok());
    let short = body(alloc, 4_088)?;
    assert!(rt; database.set_field(alloc, 0, 2, &bodies, &short).is_ok());
    assert!(rt; database.set_field(alloc, 0, 1, &about, &two).is_ok());
    let long = body(alloc, 4_089)?;
    assert!(rt; is_too_heavy(&database.set_field(alloc, 0, 2, &bodies, &long)));
    Ok(())
}

#[test]
fn a_set_rises_and_names_records(rt: HostRuntime) -> Result<(), Fail> {
    let alloc = rt.alloc();
    let info = notes(alloc)?;
    let s = schema_of_notes(alloc)?;
    let mut database = Database::empty(alloc, &s)?;
    fill(alloc, &info, &mut database, 40, 3)?;
    let about = field(alloc, 1, b"about", TTy::Set(0))?;
    let table: [(&[u64], bool, u64); 5] = [
        (&[], true, 0),
        (&[1, 7, 40], true, 0),
        (&[7, 1], false, 0),
        (&[7, 7], false, 0),
        (&[7, 41, 42], false, 41),
    ];
    for (them, is_set, missing) in table {
        let set = ids(alloc, them)?;
        let answer = database.set_field(alloc, 0, 7, &about, &set);
        let wanted = match answer {
            Ok(()) => is_set,
            Err(DataErr::Dangling { field: 1, id }) => id == missing,
            Err(DataErr::WrongShape { field: 1 }) => !is_set && missing == 0,
            Err(_) => false,
        };
        assert!(rt; wanted, "in {them:?}");
    }
    assert!(rt;
        matches!(
            database.remove(&s, 0, 40),
            Err(DataErr::Referenced { id: 7, .. })
        )
    );
    Ok(())
}

/// A database without notes, of which the next has the last id.
fn nearly_spent(alloc: Global) -> Result<Database, Fail> {
    let mut tables = Vec::new(alloc);
    tables.push(Table {
        model: 0,
        next: LAST_ID,
        records: Vec::new(alloc),
    })?;
    Ok(Database::of_tables(tables)?)
}

#[test]
fn ids_are_spent(rt: HostRuntime) -> Result<(), Fail> {
    let alloc = rt.alloc();
    let info = notes(alloc)?;
    let mut database = nearly_spent(alloc)?;
    let last = insert(alloc, &info, &mut database, 1)?;
    assert!(rt; matches!(last, Ok(LAST_ID)));
    let spent = insert(alloc, &info, &mut database, 1)?;
    assert!(rt; matches!(spent, Err(DataErr::IdsSpent)));
    assert_eq!(rt; database.records(0).len(), 1);
    Ok(())
}

#[test]
fn a_copy_stays_as_it_was(rt: HostRuntime) -> Result<(), Fail> {
    let alloc = rt.alloc();
    let info = notes(alloc)?;
    let s = schema_of_notes(alloc)?;
    let mut database = Database::empty(alloc, &s)?;
    fill(alloc, &info, &mut database, 3, 5)?;
    let copy = database.copy(alloc)?;
    assert!(rt; database.remove(&s, 0, 2).is_ok());
    assert!(rt; copy.has(0, 2));
    assert_eq!(rt; copy.records(0).len(), 3);
    Ok(())
}
