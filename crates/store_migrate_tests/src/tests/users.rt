//! Users with a secret.

use crate::tests::{is_migrated, printed_after, typed};
use std::test::Fail;

/// Users with a secret for admins, and a manager who may read who manages them.
const SECRETS: &[u8] = b"principal model User {
  create: public,
  delete: none,
  email: Text {read: public, write: u -> [u]},
  age: Int {read: none, write: none},
  isAdmin: Bool {read: public, write: none},
  secret: Text {read: u -> User::Find({isAdmin: true}), write: none},
  manager: Id(User) {read: u -> [u.manager], write: none},
}";

/// The secret goes into another field, and from there into a new one of the old name.
const LAUNDERED: &[u8] = b"User::AddField(tmp: Text {read: none, write: none}, u -> u.secret)
User::RemoveField(secret)
User::AddField(secret: Text {read: public, write: none}, u -> u.tmp)";

const USERS_BEFORE: &[u8] = b"User @3 {
  @1 {email: \"a@x\", age: 30, isAdmin: true, secret: \"s1\", manager: @1}
  @2 {email: \"b@x\", age: 20, isAdmin: false, secret: \"s2\", manager: @1}
}
";

const COPIED: &[u8] = b"User @3 {
  @1 {email: \"a@x\", age: 30, isAdmin: true, secret: \"s1\", manager: @1, tmp: \"s1\"}
  @2 {email: \"b@x\", age: 20, isAdmin: false, secret: \"s2\", manager: @1, tmp: \"s2\"}
}
";

const REMOVED: &[u8] = b"User @3 {
  @1 {email: \"a@x\", age: 30, isAdmin: true, manager: @1, tmp: \"s1\"}
  @2 {email: \"b@x\", age: 20, isAdmin: false, manager: @1, tmp: \"s2\"}
}
";

const ADDED_AGAIN: &[u8] = b"User @3 {
  @1 {email: \"a@x\", age: 30, isAdmin: true, manager: @1, tmp: \"s1\", secret: \"s1\"}
  @2 {email: \"b@x\", age: 20, isAdmin: false, manager: @1, tmp: \"s2\", secret: \"s2\"}
}
";

#[test]
fn a_field_is_added_again(rt: HostRuntime) -> Result<(), Fail> {
    let alloc = rt.alloc();
    let t = typed(alloc, SECRETS, LAUNDERED)?;
    let cases: [(u32, &[u8]); 4] = [
        (0, USERS_BEFORE),
        (1, COPIED),
        (2, REMOVED),
        (3, ADDED_AGAIN),
    ];
    assert_eq!(rt; printed_after(alloc, &t, USERS_BEFORE, &cases)?, 4);
    Ok(())
}

#[test]
fn policies_change_no_record(rt: HostRuntime) -> Result<(), Fail> {
    let alloc = rt.alloc();
    let t = typed(
        alloc,
        SECRETS,
        b"User::UpdateFieldPolicy(email, {read: u -> [u]})",
    )?;
    assert!(rt; is_migrated(alloc, &t, USERS_BEFORE, USERS_BEFORE)?);
    Ok(())
}
