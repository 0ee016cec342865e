//! Printed databases and witnesses, read back.

use crate::tests::{SECRETS, schema_of_text, typed};
use check_report::print_witness;
use check_report_back::{read_witness, schemas_are_numbered};
use data_back::read_printed;
use data_meaning::Principal;
use data_print::print_database;
use std::test::Fail;
use type_schema::Target;

/// Two users, in the spelling in which they are printed.
const TWO: &[u8] = b"User @3 {
  @1 {email: \"a@x\", age: 30, isAdmin: true, secret: \"s1\", manager: @1}
  @2 {email: \"b\\n\", age: -20, isAdmin: false, secret: \"\", manager: @1}
}
";

/// A manager who is not there.
const DANGLING: &[u8] = b"User @3 {
  @1 {email: \"a@x\", age: 30, isAdmin: true, secret: \"s1\", manager: @2}
}
";

#[test]
fn a_printed_database_is_read(rt: HostRuntime) -> Result<(), Fail> {
    let alloc = rt.alloc();
    let schema = schema_of_text(alloc, SECRETS)?;
    schemas_are_numbered();
    let database = read_printed(alloc, TWO, &schema)?.ok_or("not read")?;
    assert!(rt; database.has(0, 2));
    let printed = print_database(alloc, &database, &schema)?;
    assert_eq!(rt; printed.as_slice(), TWO);
    assert!(rt; read_printed(alloc, DANGLING, &schema)?.is_none());
    Ok(())
}

/// Users with sets and options.
const FRIENDS: &[u8] = b"principal model User {
  create: public,
  delete: none,
  friends: Set(Id(User)) {read: public, write: none},
  nick: Option(Text) {read: public, write: none},
  boss: Option(Id(User)) {read: public, write: none},
}";

const SETS: &[u8] = b"User @4 {
  @1 {friends: [@1, @2], nick: some(\"none\"), boss: none}
  @2 {friends: [], nick: none, boss: some(@1)}
}
";

#[test]
fn printed_sets_and_options_are_read(rt: HostRuntime) -> Result<(), Fail> {
    let alloc = rt.alloc();
    let schema = schema_of_text(alloc, FRIENDS)?;
    schemas_are_numbered();
    let database = read_printed(alloc, SETS, &schema)?.ok_or("not read")?;
    let printed = print_database(alloc, &database, &schema)?;
    assert_eq!(rt; printed.as_slice(), SETS);
    Ok(())
}

/// A model and a static are added, and the policy of the model becomes another.
const GRANTING: &[u8] =
    b"CreateModel(model Grant {create: none, delete: none, user: Id(User) {read: public, write: none}})
    AddStatic(Robot)
    Grant::UpdatePolicy({delete: public})";

const LEAK: &[u8] = b"leak command 3 model Grant@1 right delete
row Grant@1 @1
principal Robot@2
database
User @2 {
  @1 {email: \"\", age: 0, isAdmin: false, secret: \"\", manager: @1}
}
Grant@1 @2 {
  @1 {user: @1}
}
end
";

/// A record that is not there.
const NO_ROW: &[u8] = b"leak command 3 model Grant@1 right delete
row Grant@1 @1
principal Robot@2
database
User @1 {
}
Grant@1 @2 {
}
end
";

#[test]
fn a_printed_witness_is_read(rt: HostRuntime) -> Result<(), Fail> {
    let alloc = rt.alloc();
    let t = typed(alloc, GRANTING)?;
    let w = read_witness(alloc, LEAK, &t)?.ok_or("not read")?;
    assert_eq!(rt; w.command, 3);
    assert_eq!(rt; w.target, Target::Model(1));
    assert_eq!(rt; w.row, 1);
    assert_eq!(rt; w.who, Principal::Static(0));
    let printed = print_witness(alloc, &w, &t)?;
    assert_eq!(rt; printed.as_slice(), LEAK);
    assert!(rt; read_witness(alloc, NO_ROW, &t)?.is_none());
    Ok(())
}

/// A field is added that holds a secret.
const COPYING: &[u8] = b"User::AddField(copy: Text {read: public, write: none}, u -> u.secret)";

const FLOW: &[u8] = b"leak command 1 field User.copy right read
row User @1
principal User @2
touched User @1 secret
database
User @3 {
  @1 {email: \"\", age: 0, isAdmin: false, secret: \"s\", manager: @1}
  @2 {email: \"\", age: 0, isAdmin: false, secret: \"\", manager: @1}
}
end
";

#[test]
fn a_printed_flow_leak_is_read(rt: HostRuntime) -> Result<(), Fail> {
    let alloc = rt.alloc();
    let t = typed(alloc, COPYING)?;
    let w = read_witness(alloc, FLOW, &t)?.ok_or("not read")?;
    assert_eq!(rt; w.who, Principal::Rec(0, 2));
    assert!(rt; w.cell.is_some());
    let printed = print_witness(alloc, &w, &t)?;
    assert_eq!(rt; printed.as_slice(), FLOW);
    Ok(())
}
