//! The files of the tests. The application is that of `examples/`.

use app_trial::File;

/// The specifications, the scripts, and texts that are certificates or none.
pub(crate) const FILES: [File<'static>; 29] = [
    File {
        name: "notes.spec",
        text: NOTES,
    },
    File {
        name: "readers.scm",
        text: READERS,
    },
    File {
        name: "users.spec",
        text: USERS,
    },
    File {
        name: "own.scm",
        text: OWN_EMAIL,
    },
    File {
        name: "open.scm",
        text: OPEN_EMAIL,
    },
    File {
        name: "levels.scm",
        text: LEVELS,
    },
    File {
        name: "groups.spec",
        text: GROUPS,
    },
    File {
        name: "higher.scm",
        text: HIGHER,
    },
    File {
        name: "app.spec",
        text: APP,
    },
    File {
        name: "app.scm",
        text: APP_SCRIPT,
    },
    File {
        name: "empty.scm",
        text: b"",
    },
    File {
        name: "slip.scm",
        text: b"AddStatic(",
    },
    File {
        name: "none.cert",
        text: b"",
    },
    File {
        name: "first.cert",
        text: b"certificate 1\n",
    },
    File {
        name: "whole.cert",
        text: b"certificate 1\nend\n",
    },
    File {
        name: "second.cert",
        text: b"certificate 2\nend\n",
    },
    File {
        name: "spaced.cert",
        text: b"certificate 1 \nend\n",
    },
    File {
        name: "returns.cert",
        text: b"certificate 1\r\nend\r\n",
    },
    File {
        name: "cut.cert",
        text: b"certificate 1\nend",
    },
    File {
        name: "blank.cert",
        text: b"certificate 1\nend\n\n",
    },
    File {
        name: "letter.cert",
        text: b"certificate 1\nend\nx",
    },
    File {
        name: "more.cert",
        text: b"certificate 1\nend\nend\n",
    },
    File {
        name: "duty.cert",
        text: b"certificate 1\nduty 1\nend\n",
    },
    File {
        name: "late.cert",
        text: b"certificate 1\nduty 2\n",
    },
    File {
        name: "far.cert",
        text: b"certificate 1\nduty 1\nclause 4294967295\nend\n",
    },
    File {
        name: "wide.cert",
        text: b"certificate 1\nduty 1\nsplit 4294967295\nend\n",
    },
    File {
        name: "theory.cert",
        text: b"certificate 1\nduty 1\ntheory\nend\n",
    },
    File {
        name: "again.cert",
        text: b"certificate 1\nduty 1\nsplit 0\nsplit 0\n",
    },
    File {
        name: "half.cert",
        text: b"certificate 1\nduty 1\nsplit 0\n",
    },
];

const NOTES: &[u8] = b"static Visitor
static Robot
model Note {
  create: public,
  delete: none,
  body: Text {read: public, write: n -> [Visitor]},
}
";

const READERS: &[u8] = b"Note::UpdateFieldPolicy(body, {read: n -> [Visitor]})
";

const USERS: &[u8] = b"principal model User {
  create: public,
  delete: none,
  email: Text {read: public, write: u -> [u]},
  age: Int {read: none, write: none},
  isAdmin: Bool {read: public, write: none},
  secret: Text {read: u -> User::Find({isAdmin: true}), write: none},
  manager: Id(User) {read: u -> [u.manager], write: none},
}
";

const OWN_EMAIL: &[u8] = b"User::UpdateFieldPolicy(email, {read: u -> [u]})
";

const OPEN_EMAIL: &[u8] = b"User::UpdateFieldPolicy(email, {write: public})
";

const LEVELS: &[u8] =
    b"User::AddField(level: Int {read: public, write: none}, u -> if u.isAdmin then 2 else 0)
User::UpdateFieldPolicy(secret, {read: u -> User::Find({level >= 2})})
";

const GROUPS: &[u8] = b"principal model User {create: public, delete: none}
model Group {
  create: public,
  delete: none,
  plan: Text {read: g -> Membership::Find({group: g}).map(m -> m.user), write: none},
}
model Membership {
  create: public,
  delete: none,
  user: Id(User) {read: none, write: none},
  group: Id(Group) {read: none, write: none},
  level: Int {read: none, write: none},
}
";

const HIGHER: &[u8] = b"Group::UpdateFieldPolicy(plan,
  {read: g -> Membership::Find({group: g, level > 0}).map(m -> m.user)})
";

const APP: &[u8] = b"static Visitor
principal model User {
  create: public,
  delete: u -> [u],
  name: Text {read: public, write: u -> [u]},
  email: Text {read: u -> [u] + User::Find({isAdmin: true}), write: u -> [u]},
  passHash: Text {read: none, write: u -> [u]},
  isAdmin: Bool {read: public, write: none},
  age: Int {read: u -> [u] + u.friends, write: u -> [u]},
  friends: Set(Id(User)) {read: public, write: u -> [u]},
  bio: Text {read: public, write: u -> [u]},
  joined: Int {read: public, write: none},
}
model Group {
  create: g -> [g.owner],
  delete: g -> [g.owner],
  title: Text {read: public, write: g -> [g.owner]},
  owner: Id(User) {read: public, write: none},
  listed: Bool {read: public, write: g -> [g.owner]},
  notice: Text {read: g -> Membership::Find({group: g}).map(m -> m.user), write: g -> [g.owner]},
  size: Int {read: public, write: none},
}
model Membership {
  create: m -> [m.group.owner],
  delete: m -> [m.user, m.group.owner],
  user: Id(User) {read: public, write: none},
  group: Id(Group) {read: public, write: none},
  level: Int {read: public, write: m -> [m.group.owner]},
  since: Int {read: m -> [m.user], write: none},
  muted: Bool {read: m -> [m.user], write: m -> [m.user]},
}
model Message {
  create: m -> [m.sender],
  delete: m -> [m.sender],
  sender: Id(User) {read: public, write: none},
  body: Text {read: m -> [m.sender] + m.to + (match m.group with none -> none | some g -> Membership::Find({group: g}).map(x -> x.user)), write: none},
  sent: Int {read: public, write: none},
  group: Option(Id(Group)) {read: public, write: none},
  to: Set(Id(User)) {read: public, write: none},
  seen: Bool {read: m -> m.to, write: m -> m.to},
}
model Note {
  create: n -> [n.owner],
  delete: n -> [n.owner],
  owner: Id(User) {read: public, write: none},
  title: Text {read: n -> [n.owner], write: n -> [n.owner]},
  body: Text {read: n -> [n.owner] + n.shared, write: n -> [n.owner] + n.shared},
  shared: Set(Id(User)) {read: n -> [n.owner], write: n -> [n.owner]},
  pinned: Bool {read: n -> [n.owner], write: n -> [n.owner]},
  color: Text {read: n -> [n.owner], write: n -> [n.owner]},
}
";

const APP_SCRIPT: &[u8] = b"User::UpdateFieldPolicy(bio, {read: u -> User::Find({})})
User::AddField(level: Int {read: public, write: none}, u -> if u.isAdmin then 2 else 0)
User::UpdateFieldPolicy(email, {read: u -> [u] + User::Find({level >= 2})})
User::RemoveField(isAdmin)
AddStatic(Auditor)
Membership::WeakenFieldPolicy(since, {read: public}, \"joining dates become public\")
Group::UpdateFieldPolicy(notice, {read: g -> Membership::Find({group: g, level >= 1}).map(m -> m.user)})
Message::AddField(preview: Text {read: m -> [m.sender], write: none}, m -> m.body)
Note::UpdateFieldPolicy(body, {read: n -> if n.pinned then [n.owner] else [n.owner] + n.shared, write: n -> [n.owner]})
CreateModel(model Report {create: r -> [r.by], delete: none, by: Id(User) {read: public, write: none}, text: Text {read: r -> [Auditor, r.by], write: none}})
Report::AddField(done: Bool {read: r -> [Auditor], write: r -> [Auditor]}, r -> false)
User::UpdatePolicy({delete: none})
";
