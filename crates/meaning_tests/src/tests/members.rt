//! Who is in a set, whom a policy allows, what an initialiser gives and reads.

use crate::tests::databases::{more_users, two_users};
use crate::tests::obligations::{AGE, IS_ADMIN, MANAGER, first_init};
use crate::tests::typed;
use data_meaning::{Cell, Principal};
use data_members::{PrincipalSet, allows, init_value, members, touched};
use data_records::{Database, Value};
use std::alloc::Global;
use std::test::Fail;
use type_schema::{TCommand, TPolicy, TScript, TSet};

/// A level for admins.
const LEVEL: &[u8] =
    b"User::AddField(level: Int {read: public, write: none}, u -> if u.isAdmin then 2 else 0)";

/// Whether a user is an admin.
const BOSS: &[u8] = b"User::AddField(boss: Bool {read: public, write: none},
    u -> u in {User::Find({isAdmin: true})})";

/// The policy on reading that the first command gives.
fn first_policy(t: &TScript) -> Option<&TPolicy> {
    match t.commands.as_slice().first() {
        Some(TCommand::UpdateFieldPolicy(_, _, Some(read), _)) => Some(read),
        _ => None,
    }
}

/// The set of the policy on reading that the first command gives.
fn first_set(t: &TScript) -> Option<&TSet> {
    match first_policy(t) {
        Some(TPolicy::Fun(_, set)) => Some(set),
        _ => None,
    }
}

/// Whether the lists name just these users.
fn is_of(all: &PrincipalSet, everyone: bool, some: &[u64], but: &[u64]) -> bool {
    all.everyone == everyone
        && are_users(all.some.as_slice(), some)
        && are_users(all.but.as_slice(), but)
}

/// Whether the principals are these users, in this order.
fn are_users(ps: &[Principal], ids: &[u64]) -> bool {
    ps.len() == ids.len()
        && ps
            .iter()
            .zip(ids.iter())
            .all(|(p, id)| *p == Principal::Rec(0, *id))
}

/// Who is in the set that the first command gives, at the user of this id.
fn members_at(
    alloc: Global,
    t: &TScript,
    database: &Database,
    id: u64,
) -> Result<PrincipalSet, Fail> {
    match first_set(t) {
        Some(set) => Ok(members(alloc, database, set, &[Value::Id(id)])?),
        None => Err(Fail::new("no set")),
    }
}

#[test]
fn members_of_sets_are_known(rt: HostRuntime) -> Result<(), Fail> {
    let table: [(&[u8], u64, bool, &[u64], &[u64]); 6] = [
        (
            b"User::UpdateFieldPolicy(secret, {read: u -> User::Find({isAdmin: true})})",
            1,
            false,
            &[1],
            &[],
        ),
        (
            b"User::UpdateFieldPolicy(secret, {read: u -> User::Find({isAdmin: true}) - [u.manager]})",
            2,
            false,
            &[],
            &[],
        ),
        (
            b"User::UpdateFieldPolicy(secret, {read: u -> User::Find({}) - [u.manager]})",
            2,
            false,
            &[2],
            &[],
        ),
        (
            b"User::UpdateFieldPolicy(secret, {read: u -> public - [u]})",
            2,
            true,
            &[],
            &[2],
        ),
        (
            b"User::UpdateFieldPolicy(secret, {read: u -> [u] + [u.manager] + [u]})",
            2,
            false,
            &[1, 2],
            &[],
        ),
        (
            b"User::UpdateFieldPolicy(secret, {read: u -> User::Find({}).flat_map(x -> [x] - [x.manager])})",
            1,
            false,
            &[2],
            &[],
        ),
    ];
    for (script, id, everyone, some, but) in table {
        let t = typed(rt.alloc(), script)?;
        let database = two_users(rt.alloc(), &t.start)?;
        let all = members_at(rt.alloc(), &t, &database, id)?;
        assert!(rt; is_of(&all, everyone, some, but), "in {script:?}");
    }
    Ok(())
}

/// Whether the policy that the first command gives allows the user on the other.
fn allowed(alloc: Global, script: &[u8], who: u64, id: u64) -> Result<bool, Fail> {
    let t = typed(alloc, script)?;
    let database = two_users(alloc, &t.start)?;
    match first_policy(&t) {
        Some(policy) => Ok(allows(alloc, &database, policy, Principal::Rec(0, who), id)?),
        None => Err(Fail::new("no policy")),
    }
}

#[test]
fn policies_allow_by_the_record(rt: HostRuntime) -> Result<(), Fail> {
    let table: [(&[u8], u64, u64, bool); 6] = [
        (
            b"User::UpdateFieldPolicy(email, {read: u -> [u]})",
            2,
            2,
            true,
        ),
        (
            b"User::UpdateFieldPolicy(email, {read: u -> [u]})",
            1,
            2,
            false,
        ),
        (
            b"User::UpdateFieldPolicy(email, {read: u -> [u.manager]})",
            1,
            2,
            true,
        ),
        (
            b"User::UpdateFieldPolicy(email, {read: u -> [u.manager]})",
            2,
            2,
            false,
        ),
        (
            b"User::UpdateFieldPolicy(email, {read: u -> User::Find({isAdmin: true, age < 30})})",
            1,
            2,
            false,
        ),
        (
            b"User::UpdateFieldPolicy(email, {read: u -> User::Find({isAdmin: true, age <= 30})})",
            1,
            2,
            true,
        ),
    ];
    for (script, who, id, want) in table {
        assert_eq!(rt;
            allowed(rt.alloc(), script, who, id)?,
            want,
            "in {script:?}"
        );
    }
    Ok(())
}

/// A value that is wanted.
#[derive(Drop)]
enum Wanted {
    Num(i64),
    Flag(bool),
    Users(&'static [u64]),
}

/// Whether it is the value.
fn is_wanted(value: &Value, wanted: &Wanted) -> bool {
    match (value, wanted) {
        (Value::Num(n), Wanted::Num(m)) => n == m,
        (Value::Flag(b), Wanted::Flag(c)) => b == c,
        (Value::Ids(ids), Wanted::Users(users)) => ids.as_slice() == *users,
        _ => false,
    }
}

/// Reads the age and the sign of admins at each user.
const BOSS_OF_OLD: &[u8] = b"User::AddField(a: Set(Id(User)) {read: none, write: none},
    u -> User::Find({isAdmin: false}) + User::Find({age >= 40}))";

/// What the initialiser of the first command gives at the user of this id.
fn given_at(alloc: Global, script: &[u8], id: u64) -> Result<Value, Fail> {
    let t = typed(alloc, script)?;
    let database = two_users(alloc, &t.start)?;
    match first_init(&t) {
        Some(init) => Ok(init_value(alloc, &database, init, id)?),
        None => Err(Fail::new("no initialiser")),
    }
}

#[test]
fn initialisers_give_values(rt: HostRuntime) -> Result<(), Fail> {
    let table: [(&[u8], u64, Wanted); 6] = [
        (LEVEL, 1, Wanted::Num(2)),
        (LEVEL, 2, Wanted::Num(0)),
        (BOSS, 1, Wanted::Flag(true)),
        (BOSS, 2, Wanted::Flag(false)),
        (
            b"User::AddField(a: Set(Id(User)) {read: none, write: none}, u -> User::Find({}).map(x -> x.manager))",
            2,
            Wanted::Users(&[1]),
        ),
        (
            b"User::AddField(a: Set(Id(User)) {read: none, write: none}, u -> [u] + [u.manager])",
            2,
            Wanted::Users(&[1, 2]),
        ),
    ];
    for (script, id, wanted) in &table {
        let value = given_at(rt.alloc(), script, *id)?;
        assert!(rt; is_wanted(&value, wanted), "in {script:?}");
    }
    Ok(())
}

/// The cells that the initialiser of the first command reads at the user of this id.
fn read_at(alloc: Global, script: &[u8], id: u64) -> Result<Vec<Cell>, Fail> {
    let t = typed(alloc, script)?;
    let database = two_users(alloc, &t.start)?;
    match first_init(&t) {
        Some(init) => Ok(touched(alloc, &database, init, id)?),
        None => Err(Fail::new("no initialiser")),
    }
}

/// A field of a user.
const fn cell(id: u64, field: u32) -> Cell {
    Cell {
        model: 0,
        id,
        field,
    }
}

#[test]
fn initialisers_read_cells(rt: HostRuntime) -> Result<(), Fail> {
    let table: [(&[u8], u64, &[Cell]); 4] = [
        (LEVEL, 2, &[cell(2, IS_ADMIN)]),
        (BOSS, 2, &[cell(1, IS_ADMIN), cell(2, IS_ADMIN)]),
        (
            b"User::AddField(a: Int {read: none, write: none}, u -> if u.isAdmin then u.age else u.manager.age)",
            2,
            &[cell(1, AGE), cell(2, IS_ADMIN), cell(2, MANAGER)],
        ),
        (
            b"User::AddField(a: Set(Id(User)) {read: none, write: none},
                u -> User::Find({isAdmin: true}).map(x -> x.manager))",
            2,
            &[cell(1, IS_ADMIN), cell(1, MANAGER), cell(2, IS_ADMIN)],
        ),
    ];
    for (script, id, want) in table {
        let cells = read_at(rt.alloc(), script, id)?;
        assert_eq!(rt; cells.as_slice(), want, "in {script:?}");
    }
    Ok(())
}

#[test]
fn many_cells_are_read(rt: HostRuntime) -> Result<(), Fail> {
    let alloc = rt.alloc();
    let t = typed(alloc, BOSS_OF_OLD)?;
    let database = more_users(alloc, &t.start, 98)?;
    let Some(init) = first_init(&t) else {
        return Err(Fail::new("no initialiser"));
    };
    let cells = touched(alloc, &database, init, 1)?;
    let mut wanted = Vec::new(alloc);
    for id in 1..=100 {
        wanted.push(cell(id, AGE))?;
        wanted.push(cell(id, IS_ADMIN))?;
    }
    assert!(rt; cells.as_slice() == wanted.as_slice());
    Ok(())
}
