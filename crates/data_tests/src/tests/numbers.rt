//! The signature of a schema and the structure of a database.

ghost use Rattle.std.specs.Prelude.{◌≡◌};

use crate::tests::{field, name};
use data_records::Database;
use duty_numbering::{Numbering, signature_of, structure_of};
use sqlite_items::Items;
use std::alloc::{AllocError, Global};
use std::rc::Rc;
use std::test::Fail;
use type_schema::{FieldInfo, ModelInfo, Schema, TBase, TPolicy, TTy};

fn model(alloc: Global, number: u32, fields: Items<FieldInfo>) -> Result<ModelInfo, Fail> {
    Ok(ModelInfo {
        number,
        name: name(alloc, b"Model")?,
        principal: true,
        create: Rc::new(alloc, TPolicy::Nobody)?,
        delete: Rc::new(alloc, TPolicy::Nobody)?,
        fields,
    })
}

/// A schema of these models.
fn schema(alloc: Global, models: Items<ModelInfo>) -> Schema
    ensures { result.models ≡ models }
{
    Schema {
        statics: Items::new(alloc),
        models,
        next_static: 0,
        next_model: 9,
        next_field: 9,
        added: Items::new(alloc),
        removed: Items::new(alloc),
    }
}

/// A text and a set of notes.
fn fields_of_users(alloc: Global) -> Result<Items<FieldInfo>, Fail> {
    let mut fields = Items::new(alloc);
    fields.push(field(alloc, 5, b"field", TTy::Plain(TBase::Text))?)?;
    fields.push(field(alloc, 6, b"field", TTy::Set(4))?)?;
    Ok(fields)
}

/// A user.
fn fields_of_notes(alloc: Global) -> Result<Items<FieldInfo>, Fail> {
    let mut fields = Items::new(alloc);
    fields.push(field(alloc, 7, b"field", TTy::Plain(TBase::Id(3)))?)?;
    Ok(fields)
}

fn users_and_notes(alloc: Global) -> Result<Items<ModelInfo>, Fail> {
    let mut models = Items::new(alloc);
    models.push(model(alloc, 3, fields_of_users(alloc)?)?)?;
    models.push(model(alloc, 4, fields_of_notes(alloc)?)?)?;
    Ok(models)
}

/// The numbers of the notes, of their user, of the set and of a field that is no function.
fn numbers(alloc: Global, s: &Schema) -> Result<(u32, u32, u32, u32), AllocError> {
    let numbering = Numbering::of(alloc, s)?;
    Ok((
        numbering.sort_of(4),
        numbering.function_of(4, 7),
        numbering.relation_of(3, 6),
        numbering.function_of(3, 6),
    ))
}

#[test]
fn fields_are_numbered(rt: HostRuntime) -> Result<(), Fail> {
    let alloc = rt.alloc();
    let s = schema(alloc, users_and_notes(alloc)?);
    let found = numbers(alloc, &s);
    assert!(rt; matches!(found, Ok((1, 1, 0, 2))));
    Ok(())
}

#[test]
fn a_schema_has_a_signature(rt: HostRuntime) -> Result<(), Fail> {
    let alloc = rt.alloc();
    let s = schema(alloc, Items::new(alloc));
    let signature = signature_of(alloc, &s);
    assert!(rt; signature.is_ok());
    Ok(())
}

/// How many elements the sorts have, and how many functions there are, without records.
fn parts(alloc: Global, s: &Schema) -> Result<(usize, usize), AllocError> {
    let database = Database::empty(alloc, s)?;
    let structure = structure_of(alloc, &database, s)?;
    Ok((structure.sizes.len(), structure.funs.len()))
}

#[test]
fn a_database_has_a_structure(rt: HostRuntime) -> Result<(), Fail> {
    let alloc = rt.alloc();
    let s = schema(alloc, users_and_notes(alloc)?);
    let found = parts(alloc, &s);
    assert!(rt; matches!(found, Ok((2, 2))));
    Ok(())
}
