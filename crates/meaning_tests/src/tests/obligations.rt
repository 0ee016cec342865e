//! Kinds, obligations and uses.

use crate::tests::typed;
use duty_listing::{Use, duties, kinds, uses_in};
use std::alloc::Global;
use std::test::Fail;
use type_schema::{Kind, TCommand, TInit, TScript};

const EMAIL: u32 = 0;

/// The number of `age`.
pub const AGE: u32 = 1;

/// The number of `isAdmin`.
pub const IS_ADMIN: u32 = 2;

const SECRET: u32 = 3;

/// The number of `manager`.
pub const MANAGER: u32 = 4;

/// The commands of the script's obligations, in their order.
fn commands_of_duties(alloc: Global, script: &[u8]) -> Result<Vec<u32>, Fail> {
    let t = typed(alloc, script)?;
    let mut commands = Vec::new(alloc);
    let duties = duties(alloc, &t)?;
    for duty in duties.as_slice() {
        commands.push(duty.command)?;
    }
    Ok(commands)
}

#[test]
fn obligations_are_of_updates_and_added_fields(rt: HostRuntime) -> Result<(), Fail> {
    let table: [(&[u8], &[u32]); 6] = [
        (b"", &[]),
        (b"User::UpdateFieldPolicy(email, {read: u -> [u]})", &[1]),
        (
            b"User::AddField(level: Int {read: public, write: none}, u -> if u.isAdmin then 2 else 0)
              User::UpdateFieldPolicy(secret, {read: u -> User::Find({level >= 2})})",
            &[1, 2],
        ),
        (
            b"User::UpdateFieldPolicy(email, {read: u -> User::Find({})})
              User::UpdateFieldPolicy(email, {read: public})
              AddStatic(Robot)",
            &[1, 1, 2, 2],
        ),
        (
            b"User::UpdatePolicy({create: none, delete: none})
              User::RemoveField(secret)
              CreateModel(model Log {create: public, delete: public})",
            &[1, 1],
        ),
        (
            b"User::AddField(boss: Bool {read: public, write: none}, u -> u in {User::Find({isAdmin: true})})
              User::UpdateFieldPolicy(secret, {read: u -> User::Find({boss: true})})",
            &[1, 2],
        ),
    ];
    for (script, want) in table {
        let commands = commands_of_duties(rt.alloc(), script)?;
        assert_eq!(rt; commands.as_slice(), want, "in {script:?}");
    }
    Ok(())
}

/// The kinds after so many commands.
fn kinds_at(alloc: Global, t: &TScript, k: u32) -> Result<Vec<Kind>, Fail> {
    if k as usize > t.commands.as_slice().len() {
        return Err(Fail::new("no such command"));
    }
    Ok(kinds(alloc, t, k)?)
}

#[test]
fn a_kind_counts_until_it_is_dropped(rt: HostRuntime) -> Result<(), Fail> {
    let alloc = rt.alloc();
    let script = b"AddStatic(Robot)
        CreateModel(principal model Group {create: none, delete: none})
        RemoveStatic(Robot)
        DeleteModel(Group)";
    let t = typed(alloc, script)?;
    let (robot, user, group) = (Kind::Static(0), Kind::Model(0), Kind::Model(1));
    let table: [(u32, &[Kind]); 5] = [
        (0, &[robot, user, group]),
        (1, &[robot, user, group]),
        (2, &[robot, user, group]),
        (3, &[user, group]),
        (4, &[user]),
    ];
    for (k, want) in table {
        let kinds = kinds_at(alloc, &t, k)?;
        assert_eq!(rt; kinds.as_slice(), want, "after {k}");
    }
    Ok(())
}

/// The initialiser that the first command gives.
pub fn first_init(t: &TScript) -> Option<&TInit> {
    match t.commands.as_slice().first() {
        Some(TCommand::AddField(_, _, init)) => Some(init),
        _ => None,
    }
}

/// The fields that the initialiser of the first command uses, in their order.
fn fields_used(alloc: Global, script: &[u8]) -> Result<Vec<u32>, Fail> {
    let t = typed(alloc, script)?;
    let mut fields = Vec::new(alloc);
    match first_init(&t) {
        Some(init) => add_fields(alloc, init, &mut fields)?,
        None => return Err(Fail::new("no initialiser")),
    }
    Ok(fields)
}

/// Puts the fields that the initialiser uses last.
fn add_fields(alloc: Global, init: &TInit, fields: &mut Vec<u32>) -> Result<(), Fail> {
    let uses = uses_in(alloc, init)?;
    for Use { model: _, field } in uses.as_slice() {
        fields.push(*field)?;
    }
    Ok(())
}

#[test]
fn uses_stand_in_the_order_of_the_text(rt: HostRuntime) -> Result<(), Fail> {
    let table: [(&[u8], &[u32]); 6] = [
        (
            b"User::AddField(a: Int {read: none, write: none}, u -> if u.isAdmin then 2 else u.age)",
            &[IS_ADMIN, AGE],
        ),
        (
            b"User::AddField(a: Text {read: none, write: none}, u -> u.manager.manager.secret)",
            &[MANAGER, MANAGER, SECRET],
        ),
        (
            b"User::AddField(a: Bool {read: none, write: none}, u -> u.manager.age > u.age || u.email == \"\")",
            &[MANAGER, AGE, AGE, EMAIL],
        ),
        (
            b"User::AddField(a: Set(Id(User)) {read: none, write: none},
                u -> User::Find({age <= u.age, isAdmin: u.manager.isAdmin}))",
            &[AGE, AGE, MANAGER, IS_ADMIN, IS_ADMIN],
        ),
        (
            b"User::AddField(a: Set(Id(User)) {read: none, write: none},
                u -> User::Find({isAdmin: true}).map(x -> x.manager) - [u.manager])",
            &[IS_ADMIN, MANAGER, MANAGER],
        ),
        (
            b"User::AddField(a: Bool {read: none, write: none}, u -> u.manager in {User::Find({email: u.email})})",
            &[MANAGER, EMAIL, EMAIL],
        ),
    ];
    for (script, want) in table {
        let fields = fields_used(rt.alloc(), script)?;
        assert_eq!(rt; fields.as_slice(), want, "in {script:?}");
    }
    Ok(())
}
