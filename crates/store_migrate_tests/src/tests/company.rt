//! A script with each kind of command.

use crate::tests::{database_of, is_migrated, printed_after, typed};
use data_print::print_database;
use std::test::Fail;
use store_migrate::widen;

/// Users with a manager, their notes, and a log.
const COMPANY: &[u8] = b"static Robot
principal model User {
  create: public,
  delete: none,
  email: Text {read: public, write: none},
  age: Int {read: public, write: none},
  manager: Id(User) {read: public, write: none},
}
model Note {
  create: public,
  delete: none,
  owner: Id(User) {read: public, write: none},
}
model Log {
  create: public,
  delete: none,
  text: Text {read: public, write: none},
}";

const COMPANY_SCRIPT: &[u8] =
    b"CreateModel(model Team {create: none, delete: none, lead: Id(User) {read: public, write: none}})
DeleteModel(Log)
AddStatic(Visitor)
RemoveStatic(Robot)
AddPrincipal(Note)
User::AddField(old: Bool {read: public, write: none}, u -> if u.age > 17 then true else false)
User::AddField(boss: Text {read: public, write: none}, u -> u.manager.email)
Note::AddField(readers: Set(Id(User)) {read: public, write: none}, n -> [n.owner] + [n.owner.manager])
User::RemoveField(age)
User::UpdateFieldPolicy(email, {read: none})
User::WeakenFieldPolicy(email, {read: public}, \"open\")
Note::UpdatePolicy({create: none})
Note::WeakenPolicy({create: public}, \"free\")";

const BEFORE: &[u8] = b"User @4 {
  @1 {email: \"a@x\", age: 30, manager: @1}
  @3 {email: \"c@x\", age: 17, manager: @1}
}
Note @2 {
  @1 {owner: @3}
}
Log @8 {
  @7 {text: \"t\"}
}
";

const WIDENED: &[u8] = b"User @4 {
  @1 {email: \"a@x\", age: 30, manager: @1}
  @3 {email: \"c@x\", age: 17, manager: @1}
}
Note @2 {
  @1 {owner: @3}
}
Log @8 {
  @7 {text: \"t\"}
}
Team @1 {
}
";

const WITHOUT_LOG: &[u8] = b"User @4 {
  @1 {email: \"a@x\", age: 30, manager: @1}
  @3 {email: \"c@x\", age: 17, manager: @1}
}
Note @2 {
  @1 {owner: @3}
}
Team @1 {
}
";

const WITH_AGES: &[u8] = b"User @4 {
  @1 {email: \"a@x\", age: 30, manager: @1, old: true}
  @3 {email: \"c@x\", age: 17, manager: @1, old: false}
}
Note @2 {
  @1 {owner: @3}
}
Team @1 {
}
";

const WITH_READERS: &[u8] = b"User @4 {
  @1 {email: \"a@x\", age: 30, manager: @1, old: true, boss: \"a@x\"}
  @3 {email: \"c@x\", age: 17, manager: @1, old: false, boss: \"a@x\"}
}
Note @2 {
  @1 {owner: @3, readers: [@1, @3]}
}
Team @1 {
}
";

const AFTER: &[u8] = b"User @4 {
  @1 {email: \"a@x\", manager: @1, old: true, boss: \"a@x\"}
  @3 {email: \"c@x\", manager: @1, old: false, boss: \"a@x\"}
}
Note @2 {
  @1 {owner: @3, readers: [@1, @3]}
}
Team @1 {
}
";

#[test]
fn created_models_have_empty_tables(rt: HostRuntime) -> Result<(), Fail> {
    let alloc = rt.alloc();
    let t = typed(alloc, COMPANY, COMPANY_SCRIPT)?;
    let database = database_of(alloc, &t, BEFORE)?;
    let start = widen(alloc, &t, &database)?;
    let text = print_database(alloc, &start, &t.start)?;
    assert_eq!(rt; text.as_slice(), WIDENED);
    Ok(())
}

#[test]
fn each_command_changes_what_it_says(rt: HostRuntime) -> Result<(), Fail> {
    let alloc = rt.alloc();
    let t = typed(alloc, COMPANY, COMPANY_SCRIPT)?;
    let cases: [(u32, &[u8]); 9] = [
        (0, BEFORE),
        (1, WIDENED),
        (2, WITHOUT_LOG),
        (5, WITHOUT_LOG),
        (6, WITH_AGES),
        (8, WITH_READERS),
        (9, AFTER),
        (11, AFTER),
        (13, AFTER),
    ];
    assert_eq!(rt; printed_after(alloc, &t, BEFORE, &cases)?, 9);
    Ok(())
}

#[test]
fn a_database_is_migrated(rt: HostRuntime) -> Result<(), Fail> {
    let alloc = rt.alloc();
    let t = typed(alloc, COMPANY, COMPANY_SCRIPT)?;
    assert!(rt; is_migrated(alloc, &t, BEFORE, AFTER)?);
    Ok(())
}
