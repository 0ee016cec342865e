//! Whom a policy allows a right, who is in a set, and what an initialiser gives and reads.

ghost use Rattle.std.specs.Prelude.{◌≡◌, ◌++◌, IfOk, OnOk};
ghost use Rattle.type_schema.specs.Views as view;
ghost use Rattle.data_meaning.specs.Meaning as meaning;
ghost use Rattle.data_meaning.specs.Run.{init_value};
ghost use Rattle.data_meaning.specs.Touched.{init_touched};
ghost use Rattle.data_members.specs.Has.{has};
ghost use Rattle.data_members.specs.Sets.{Denotes};
ghost use Rattle.data_members.specs.Touching.{IsSetOf, cell_cmp};
ghost use Rattle.data_members.specs.Variables.{env_data};
ghost use Rattle.data_records.specs.Views.{value_data};

use crate::gathering::{Gathered, gather};
use crate::meaning::{holds, ids_within, value};
use crate::order::{rising_cells, rising_principals};
use crate::sets::PrincipalSet;
use crate::touching::{touch, touch_set};
use data_meaning::{Cell, Principal};
use data_records::{Database, Value};
use sqlite_items::Items;
use std::alloc::{AllocError, Global};
use type_schema::{TInit, TPolicy, TSet};

/// Whether the policy allows the principal the right on the record with this id.
pub fn allows(
    alloc: Global,
    database: &Database,
    policy: &TPolicy,
    who: Principal,
    id: u64,
) -> Result<bool, AllocError>
    ensures { IfOk result (λ b. b
        ≡ meaning.allows database.now (view.policy_of policy.now) id who) }
{
    match policy {
        TPolicy::Everyone => Ok(true),
        TPolicy::Nobody => Ok(false),
        TPolicy::Fun(_, set) => holds(alloc, database, set, &[Value::Id(id)], who),
    }
}

/// The value that the initialiser gives at the record with this id.
pub fn init_value(
    alloc: Global,
    database: &Database,
    init: &TInit,
    id: u64,
) -> Result<Value, AllocError>
    ensures { IfOk result (λ v. value_data v ≡ init_value database.now (view.init_of init.now) id) }
{
    match init {
        TInit::Plain(e) => value(alloc, database, e, &[Value::Id(id)])?.into_value(alloc),
        TInit::OfSet(m, set) => {
            let ids = ids_within(alloc, database, set, &[Value::Id(id)], *m)?;
            Ok(Value::Ids(Items::from_vec(ids)))
        }
    }
}

/// Adds the cells that the initialiser reads at the record with this id.
fn touch_init(
    alloc: Global,
    database: &Database,
    init: &TInit,
    id: u64,
    found: &mut Vec<Cell>,
) -> Result<(), AllocError>
    ensures { OnOk result (found.new.items ≡ found.old.items
        ++ init_touched database.now (view.init_of init.now) id) }
{
    match init {
        TInit::Plain(e) => touch(alloc, database, e, &[Value::Id(id)], found),
        TInit::OfSet(_, set) => touch_set(alloc, database, set, &[Value::Id(id)], found),
    }
}

/// The cells that the initialiser reads at the record with this id, by rising model, id and field,
/// each once.
pub fn touched(
    alloc: Global,
    database: &Database,
    init: &TInit,
    id: u64,
) -> Result<Vec<Cell>, AllocError>
    ensures { IfOk result (λ cells. IsSetOf cell_cmp cells.items
        (init_touched database.now (view.init_of init.now) id)) }
{
    let mut found = Vec::new(alloc);
    touch_init(alloc, database, init, id, &mut found)?;
    Ok(rising_cells(found))
}

/// A set of these principals, with rising lists.
fn set_of(alloc: Global, all: Gathered) -> PrincipalSet
    ensures { Denotes result (has all) }
{
    match all {
        Gathered::Only(ps) => PrincipalSet {
            everyone: false,
            some: rising_principals(ps),
            but: Vec::new(alloc),
        },
        Gathered::AllBut(ps) => PrincipalSet {
            everyone: true,
            some: Vec::new(alloc),
            but: rising_principals(ps),
        },
    }
}

/// The principals, or records, that are in the set where the variables have these values.
pub fn members(
    alloc: Global,
    database: &Database,
    set: &TSet,
    env: &[Value],
) -> Result<PrincipalSet, AllocError>
    ensures { IfOk result (λ all. Denotes all
        (meaning.member database.now (env_data env.now) (view.set_of set.now))) }
{
    let all = gather(alloc, database, set, env)?;
    Ok(set_of(alloc, all))
}
