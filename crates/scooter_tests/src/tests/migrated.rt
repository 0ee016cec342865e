//! An application whose script is applied, and what is printed of it, read again.

use crate::tests::store::SURE;
use app_files::Status;
use app_trial::{File, run_over_store};
use std::alloc::{AllocError, Global};
use std::test::Fail;
use store_keeper::SureKeeper;

/// The application, its script, and the specification that the script makes of it.
const APP_FILES: [File<'static>; 3] = [
    File {
        name: "app.spec",
        text: APP,
    },
    File {
        name: "app.scm",
        text: SCRIPT,
    },
    File {
        name: "migrated.spec",
        text: MIGRATED,
    },
];

const APP: &[u8] = b"static Visitor
principal model User {
  create: public,
  delete: u -> [u],
  name: Text {read: public, write: u -> [u]},
  email: Text {read: u -> [u] + User::Find({isAdmin: true}), write: u -> [u]},
  passHash: Text {read: none, write: u -> [u]},
  isAdmin: Bool {read: public, write: none},
  age: Int {read: u -> [u] + u.friends, write: u -> [u]},
  friends: Set(Id(User)) {read: public, write: u -> [u]},
  bio: Text {read: public, write: u -> [u]},
  joined: Int {read: public, write: none},
}
model Group {
  create: g -> [g.owner],
  delete: g -> [g.owner],
  title: Text {read: public, write: g -> [g.owner]},
  owner: Id(User) {read: public, write: none},
  listed: Bool {read: public, write: g -> [g.owner]},
  notice: Text {read: g -> Membership::Find({group: g}).map(m -> m.user), write: g -> [g.owner]},
  size: Int {read: public, write: none},
}
model Membership {
  create: m -> [m.group.owner],
  delete: m -> [m.user, m.group.owner],
  user: Id(User) {read: public, write: none},
  group: Id(Group) {read: public, write: none},
  level: Int {read: public, write: m -> [m.group.owner]},
  since: Int {read: m -> [m.user], write: none},
  muted: Bool {read: m -> [m.user], write: m -> [m.user]},
}
model Message {
  create: m -> [m.sender],
  delete: m -> [m.sender],
  sender: Id(User) {read: public, write: none},
  body: Text {read: m -> [m.sender] + m.to + (match m.group with none -> none | some g -> Membership::Find({group: g}).map(x -> x.user)), write: none},
  sent: Int {read: public, write: none},
  group: Option(Id(Group)) {read: public, write: none},
  to: Set(Id(User)) {read: public, write: none},
  seen: Bool {read: m -> m.to, write: m -> m.to},
}
model Note {
  create: n -> [n.owner],
  delete: n -> [n.owner],
  owner: Id(User) {read: public, write: none},
  title: Text {read: n -> [n.owner], write: n -> [n.owner]},
  body: Text {read: n -> [n.owner] + n.shared, write: n -> [n.owner] + n.shared},
  shared: Set(Id(User)) {read: n -> [n.owner], write: n -> [n.owner]},
  pinned: Bool {read: n -> [n.owner], write: n -> [n.owner]},
  color: Text {read: n -> [n.owner], write: n -> [n.owner]},
}
";

const SCRIPT: &[u8] = b"User::UpdateFieldPolicy(bio, {read: u -> User::Find({})})
User::AddField(level: Int {read: public, write: none}, u -> if u.isAdmin then 2 else 0)
User::UpdateFieldPolicy(email, {read: u -> [u] + User::Find({level >= 2})})
User::RemoveField(isAdmin)
AddStatic(Auditor)
Membership::WeakenFieldPolicy(since, {read: public}, \"joining dates become public\")
Group::UpdateFieldPolicy(notice, {read: g -> Membership::Find({group: g, level >= 1}).map(m -> m.user)})
Message::AddField(preview: Text {read: m -> [m.sender], write: none}, m -> m.body)
Note::UpdateFieldPolicy(body, {read: n -> if n.pinned then [n.owner] else [n.owner] + n.shared, write: n -> [n.owner]})
CreateModel(model Report {create: r -> [r.by], delete: none, by: Id(User) {read: public, write: none}, text: Text {read: r -> [Auditor, r.by], write: none}})
Report::AddField(done: Bool {read: r -> [Auditor], write: r -> [Auditor]}, r -> false)
User::UpdatePolicy({delete: none})
";

const MIGRATED: &[u8] = b"static Visitor
static Auditor
principal model User {
  create: public,
  delete: none,
  name: Text {read: public, write: u -> [u]},
  email: Text {read: u -> [u] + User::Find({level >= 2}), write: u -> [u]},
  passHash: Text {read: none, write: u -> [u]},
  age: Int {read: u -> [u] + u.friends, write: u -> [u]},
  friends: Set(Id(User)) {read: public, write: u -> [u]},
  bio: Text {read: u -> User::Find({}), write: u -> [u]},
  joined: Int {read: public, write: none},
  level: Int {read: public, write: none},
}
model Group {
  create: g -> [g.owner],
  delete: g -> [g.owner],
  title: Text {read: public, write: g -> [g.owner]},
  owner: Id(User) {read: public, write: none},
  listed: Bool {read: public, write: g -> [g.owner]},
  notice: Text {read: g -> Membership::Find({group: g, level >= 1}).map(m -> m.user), write: g -> [g.owner]},
  size: Int {read: public, write: none},
}
model Membership {
  create: m -> [m.group.owner],
  delete: m -> [m.user, m.group.owner],
  user: Id(User) {read: public, write: none},
  group: Id(Group) {read: public, write: none},
  level: Int {read: public, write: m -> [m.group.owner]},
  since: Int {read: public, write: none},
  muted: Bool {read: m -> [m.user], write: m -> [m.user]},
}
model Message {
  create: m -> [m.sender],
  delete: m -> [m.sender],
  sender: Id(User) {read: public, write: none},
  body: Text {read: m -> [m.sender] + m.to + (match m.group with none -> none | some g -> Membership::Find({group: g}).map(x -> x.user)), write: none},
  sent: Int {read: public, write: none},
  group: Option(Id(Group)) {read: public, write: none},
  to: Set(Id(User)) {read: public, write: none},
  seen: Bool {read: m -> m.to, write: m -> m.to},
  preview: Text {read: m -> [m.sender], write: none},
}
model Note {
  create: n -> [n.owner],
  delete: n -> [n.owner],
  owner: Id(User) {read: public, write: none},
  title: Text {read: n -> [n.owner], write: n -> [n.owner]},
  body: Text {read: n -> if n.pinned then [n.owner] else [n.owner] + n.shared, write: n -> [n.owner]},
  shared: Set(Id(User)) {read: n -> [n.owner], write: n -> [n.owner]},
  pinned: Bool {read: n -> [n.owner], write: n -> [n.owner]},
  color: Text {read: n -> [n.owner], write: n -> [n.owner]},
}
model Report {
  create: r -> [r.by],
  delete: none,
  by: Id(User) {read: public, write: none},
  text: Text {read: r -> [Auditor, r.by], write: none},
  done: Bool {read: r -> [Auditor], write: r -> [Auditor]},
}
";

/// The tables of the application after its script, without a record.
const TABLES: &[u8] = b"User @1 {
}
Group @1 {
}
Membership @1 {
}
Message @1 {
}
Note @1 {
}
Report @1 {
}
";

const NOTE: &[u8] = b"note 2 command 6 Membership.since read \"joining dates become public\"\n";

/// The pieces, one behind another.
fn joined(alloc: Global, pieces: &[&[u8]]) -> Result<Vec<u8>, AllocError> {
    let mut text = Vec::new(alloc);
    for piece in pieces {
        text.extend_from_slice(piece)?;
    }
    Ok(text)
}

/// Whether the command is done and prints these pieces.
fn prints(
    alloc: Global,
    store: &mut SureKeeper,
    words: &[&str],
    pieces: &[&[u8]],
) -> Result<bool, AllocError> {
    let ended = run_over_store(alloc, words, &APP_FILES, store, SURE)?;
    let want = joined(alloc, pieces)?;
    Ok(ended.status == Status::Done && ended.output.as_slice() == want.as_slice())
}

#[test]
fn an_application_is_migrated(rt: HostRuntime) -> Result<(), Fail> {
    let alloc = rt.alloc();
    let mut store = SureKeeper::new(alloc, None);
    for (words, pieces) in [
        (
            ["init", "app.spec"].as_slice(),
            [b"ok version 1\n".as_slice()].as_slice(),
        ),
        (
            &["apply", "app.scm"],
            &[b"applied obligations 24 version 2\n"],
        ),
        (&["show"], &[b"version 2\n", MIGRATED, TABLES, NOTE]),
    ] {
        assert!(rt; prints(alloc, &mut store, words, pieces)?);
    }
    Ok(())
}

#[test]
fn what_was_migrated_is_read_again(rt: HostRuntime) -> Result<(), Fail> {
    let alloc = rt.alloc();
    let mut store = SureKeeper::new(alloc, None);
    assert!(rt;
        prints(
            alloc,
            &mut store,
            &["init", "migrated.spec"],
            &[b"ok version 1\n"]
        )?
    );
    let pieces = [b"version 1\n".as_slice(), MIGRATED, TABLES];
    assert!(rt; prints(alloc, &mut store, &["show"], &pieces)?);
    Ok(())
}
