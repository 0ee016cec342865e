//! Witnesses and other reports.

use crate::tests::name;
use check_report::{Witness, print_too_large, print_undecided, print_witness};
use data_meaning::Principal;
use data_records::Database;
use duty_meaning::Duty;
use sqlite_items::Items;
use std::alloc::Global;
use std::rc::Rc;
use std::test::Fail;
use type_schema::{Kind, ModelInfo, Right, Schema, StaticInfo, TCommand, TPolicy, TScript, Target};

/// A model without fields.
fn grant(alloc: Global) -> Result<ModelInfo, Fail> {
    Ok(ModelInfo {
        number: 0,
        name: name(alloc, b"Grant")?,
        principal: true,
        create: Rc::new(alloc, TPolicy::Nobody)?,
        delete: Rc::new(alloc, TPolicy::Nobody)?,
        fields: Items::new(alloc),
    })
}

fn visitor(alloc: Global) -> Result<StaticInfo, Fail> {
    Ok(StaticInfo {
        number: 0,
        name: name(alloc, b"Visitor")?,
    })
}

/// The schema of start databases of a script that creates the model.
fn start(alloc: Global) -> Result<Schema, Fail> {
    let mut statics = Items::new(alloc);
    statics.push(visitor(alloc)?)?;
    let mut models = Items::new(alloc);
    models.push(grant(alloc)?)?;
    Ok(Schema {
        statics,
        models,
        next_static: 1,
        next_model: 1,
        next_field: 0,
        added: Items::new(alloc),
        removed: Items::new(alloc),
    })
}

fn script(alloc: Global) -> Result<TScript, Fail> {
    let mut commands = Items::new(alloc);
    commands.push(TCommand::DeleteModel(7))?;
    commands.push(TCommand::CreateModel(grant(alloc)?))?;
    Ok(TScript {
        start: start(alloc)?,
        commands,
        schemas: Items::new(alloc),
    })
}

#[test]
fn a_witness_is_printed(rt: HostRuntime) -> Result<(), Fail> {
    let alloc = rt.alloc();
    let t = script(alloc)?;
    let base = Database::empty(alloc, &t.start)?;
    let w = Witness {
        command: 3,
        target: Target::Model(0),
        right: Right::Delete,
        base,
        row: 1,
        who: Principal::Static(0),
        cell: None,
    };
    let printed = print_witness(alloc, &w, &t)?;
    let wanted: &[u8] = b"leak command 3 model Grant@2 right delete\n\
        row Grant@2 @1\n\
        principal Visitor\n\
        database\n\
        Grant@2 @1 {\n}\n\
        end\n";
    assert_eq!(rt; printed.as_slice(), wanted);
    Ok(())
}

#[test]
fn reports_are_printed(rt: HostRuntime) -> Result<(), Fail> {
    let alloc = rt.alloc();
    let t = script(alloc)?;
    let duty = Duty {
        command: 3,
        target: Target::Model(0),
        right: Right::Create,
        spot: Some(2),
        kind: Kind::Model(0),
    };
    let cycle: &[u32] = &[0];
    let undecided = print_undecided(alloc, duty, cycle, &t)?;
    let wanted: &[u8] = b"undecided command 3 model Grant@2 right create use 2 kind Grant@2 \
        cycle Grant@2 -> Grant@2\n";
    assert_eq!(rt; undecided.as_slice(), wanted);
    let large = print_too_large(alloc, duty, 401, 1000, &t)?;
    let wanted: &[u8] = b"too large command 3 model Grant@2 right create use 2 kind Grant@2 \
        terms 401 nodes 1000\n";
    assert_eq!(rt; large.as_slice(), wanted);
    Ok(())
}
