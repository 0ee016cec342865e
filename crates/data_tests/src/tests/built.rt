//! The database of a structure.

use crate::tests::{field, name};
use check_witness::build;
use data_records::Value;
use form_formula::{SVal, Structure};
use sqlite_items::Items;
use std::alloc::Global;
use std::rc::Rc;
use std::test::Fail;
use type_schema::{ModelInfo, Schema, TBase, TPolicy, TTy};

/// Users with a manager and friends.
fn users(alloc: Global) -> Result<ModelInfo, Fail> {
    let mut fields = Items::new(alloc);
    fields.push(field(alloc, 0, b"manager", TTy::Plain(TBase::Id(0)))?)?;
    fields.push(field(alloc, 1, b"friends", TTy::Set(0))?)?;
    Ok(ModelInfo {
        number: 0,
        name: name(alloc, b"User")?,
        principal: true,
        create: Rc::new(alloc, TPolicy::Nobody)?,
        delete: Rc::new(alloc, TPolicy::Nobody)?,
        fields,
    })
}

fn schema_of_users(alloc: Global) -> Result<Schema, Fail> {
    let mut models = Items::new(alloc);
    models.push(users(alloc)?)?;
    Ok(Schema {
        statics: Items::new(alloc),
        models,
        next_static: 0,
        next_model: 1,
        next_field: 2,
        added: Items::new(alloc),
        removed: Items::new(alloc),
    })
}

/// Two users, each the manager of the other, and the first a friend of both.
fn managers(alloc: Global) -> Result<Structure, Fail> {
    let mut sizes = Items::new(alloc);
    sizes.push(2)?;
    let mut table = Items::new(alloc);
    table.push(Some(SVal::Rec(1)))?;
    table.push(Some(SVal::Rec(0)))?;
    let mut funs = Items::new(alloc);
    funs.push(table)?;
    let pairs: &[(u32, u32)] = &[(1, 0), (0, 0), (1, 0)];
    let mut sets = Items::new(alloc);
    sets.push(Items::from_slice(alloc, pairs)?)?;
    Ok(Structure { sizes, funs, sets })
}

#[test]
fn managers_are_built(rt: HostRuntime) -> Result<(), Fail> {
    let alloc = rt.alloc();
    let s = schema_of_users(alloc)?;
    let structure = managers(alloc)?;
    let database = build(alloc, &structure, &s)?;
    assert!(rt; database.has(0, 2));
    assert!(rt; matches!(database.value(0, 1, 0), Some(Value::Id(2))));
    let Some(Value::Ids(friends)) = database.value(0, 2, 1) else {
        return Err("no friends".into());
    };
    let wanted: &[u64] = &[1];
    assert_eq!(rt; friends.as_slice(), wanted);
    Ok(())
}
