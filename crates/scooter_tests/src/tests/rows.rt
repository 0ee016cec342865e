//! Worked scripts, each with what its check answers: four tables in one file, since they share
//! their specifications.

use app_files::Status;
use app_trial::{check_bytes, check_texts};
use std::test::Fail;

const VISITORS: &[u8] = b"static Visitor
static Robot
model Note {
  create: public,
  delete: none,
  body: Text {read: public, write: n -> [Visitor]},
}
";

const USERS: &[u8] = b"principal model User {
  create: public,
  delete: none,
  email: Text {read: public, write: u -> [u]},
  age: Int {read: none, write: none},
  isAdmin: Bool {read: public, write: none},
  secret: Text {read: u -> User::Find({isAdmin: true}), write: none},
  manager: Id(User) {read: u -> [u.manager], write: none},
}
";

const TEAMS: &[u8] = b"principal model User {
  create: public,
  delete: none,
  team: Option(Id(Team)) {read: none, write: none},
  plan: Text {read: u -> match u.team with none -> none | some t -> [t.lead], write: none},
}
model Team {
  create: public,
  delete: none,
  lead: Id(User) {read: none, write: none},
  active: Bool {read: none, write: none},
}
";

const GROUPS: &[u8] = b"principal model User {create: public, delete: none}
model Group {
  create: public,
  delete: none,
  plan: Text {read: g -> Membership::Find({group: g}).map(m -> m.user), write: none},
}
model Membership {
  create: public,
  delete: none,
  user: Id(User) {read: none, write: none},
  group: Id(Group) {read: none, write: none},
  level: Int {read: none, write: none},
}
";

const BANS: &[u8] = b"principal model User {create: public, delete: none}
model Group {
  create: public,
  delete: none,
  plan: Text {read: g -> Membership::Find({group: g}).flat_map(m ->
    [m.user] - Ban::Find({group: g}).map(b -> b.user)), write: none},
  idea: Text {read: g -> Membership::Find({group: g}).flat_map(m ->
    [m.user] - Membership::Find({level > 3}).map(k -> k.user)), write: none},
}
model Membership {
  create: public,
  delete: none,
  user: Id(User) {read: none, write: none},
  group: Id(Group) {read: none, write: none},
  level: Int {read: none, write: none},
}
model Ban {
  create: public,
  delete: none,
  user: Id(User) {read: none, write: none},
  group: Id(Group) {read: none, write: none},
}
";

/// A script on a specification, with the status and the report, or the front of the report.
struct Row {
    spec: &'static [u8],
    script: &'static [u8],
    status: Status,
    report: &'static [u8],
}

const ACCEPTED: [Row; 20] = [
    Row {
        spec: VISITORS,
        script: b"",
        status: Status::Done,
        report: b"accepted obligations 0\n",
    },
    Row {
        spec: VISITORS,
        script: b"# nothing\n \t\r\n",
        status: Status::Done,
        report: b"accepted obligations 0\n",
    },
    Row {
        spec: VISITORS,
        script: b"Note::UpdateFieldPolicy(body, {read: n -> [Visitor]})",
        status: Status::Done,
        report: b"accepted obligations 2\n",
    },
    Row {
        spec: VISITORS,
        script: b"Note::UpdateFieldPolicy(body, {write: n -> []})
            Note::UpdateFieldPolicy(body, {read: none, write: none})",
        status: Status::Done,
        report: b"accepted obligations 6\n",
    },
    Row {
        spec: VISITORS,
        script: b"Note::RemoveField(body) DeleteModel(Note) RemoveStatic(Robot)",
        status: Status::Done,
        report: b"accepted obligations 0\n",
    },
    Row {
        spec: USERS,
        script: b"User::UpdateFieldPolicy(email, {read: u -> [u]})",
        status: Status::Done,
        report: b"accepted obligations 1\n",
    },
    // What a command weakens, with a reason, is no obligation.
    Row {
        spec: USERS,
        script: b"User::WeakenFieldPolicy(email, {write: public}, \"open house\")",
        status: Status::Done,
        report: b"accepted obligations 0\n",
    },
    // An added field that is above 1 exactly where the user is an admin.
    Row {
        spec: USERS,
        script: b"User::AddField(level: Int {read: public, write: none}, u -> if u.isAdmin then 2 else 0)
            User::UpdateFieldPolicy(secret, {read: u -> User::Find({level >= 2})})",
        status: Status::Done,
        report: b"accepted obligations 2\n",
    },
    Row {
        spec: TEAMS,
        script: b"User::UpdateFieldPolicy(plan, {read: u -> match u.team with
            none -> none | some t -> if t.active then [t.lead] else none})",
        status: Status::Done,
        report: b"accepted obligations 1\n",
    },
    // No number is above the largest, and only 4 is between 3 and 5.
    Row {
        spec: USERS,
        script: b"User::UpdateFieldPolicy(age, {read: u -> User::Find({age > 9223372036854775807})})",
        status: Status::Done,
        report: b"accepted obligations 1\n",
    },
    Row {
        spec: USERS,
        script: b"User::WeakenFieldPolicy(age, {read: u -> User::Find({age: 4})}, \"four\")
            User::UpdateFieldPolicy(age, {read: u -> User::Find({age > 3, age < 5})})",
        status: Status::Done,
        report: b"accepted obligations 1\n",
    },
    Row {
        spec: GROUPS,
        script: b"Group::UpdateFieldPolicy(plan,
            {read: g -> Membership::Find({group: g, level > 0}).map(m -> m.user)})",
        status: Status::Done,
        report: b"accepted obligations 1\n",
    },
    Row {
        spec: USERS,
        script: b"User::UpdateFieldPolicy(email, {read: u -> User::Find({})})
            User::UpdateFieldPolicy(email, {read: public})",
        status: Status::Done,
        report: b"accepted obligations 2\n",
    },
    Row {
        spec: USERS,
        script: b"User::AddField(big: Int {read: none, write: none}, u -> -9223372036854775808)",
        status: Status::Done,
        report: b"accepted obligations 0\n",
    },
    Row {
        spec: USERS,
        script: b"User::AddField(eq: Bool {read: none, write: none}, u -> u.isAdmin == u.isAdmin)",
        status: Status::Done,
        report: b"accepted obligations 2\n",
    },
    // Differences of sets.
    Row {
        spec: USERS,
        script: b"User::UpdateFieldPolicy(secret, {read: u -> User::Find({isAdmin: true}) - [u.manager]})",
        status: Status::Done,
        report: b"accepted obligations 1\n",
    },
    Row {
        spec: BANS,
        script: b"Group::UpdateFieldPolicy(plan, {read: g ->
            Membership::Find({group: g, level > 0}).flat_map(m ->
              [m.user] - Ban::Find({group: g}).map(b -> b.user))})",
        status: Status::Done,
        report: b"accepted obligations 1\n",
    },
    // This is not stratified, and nobody gains: the policy is the same.
    Row {
        spec: BANS,
        script: b"Group::UpdateFieldPolicy(idea, {read: g -> Membership::Find({group: g}).flat_map(m ->
            [m.user] - Membership::Find({level > 3}).map(k -> k.user))})",
        status: Status::Done,
        report: b"accepted obligations 1\n",
    },
    // Added fields that hold sets, and that say who is in one.
    Row {
        spec: USERS,
        script: b"User::AddField(peers: Set(Id(User)) {read: public, write: none},
            u -> User::Find({isAdmin: true}))",
        status: Status::Done,
        report: b"accepted obligations 1\n",
    },
    Row {
        spec: USERS,
        script: b"User::AddField(boss: Bool {read: public, write: none},
              u -> u in {User::Find({isAdmin: true})})
            User::UpdateFieldPolicy(secret, {read: u -> User::Find({boss: true})})",
        status: Status::Done,
        report: b"accepted obligations 2\n",
    },
];

/// A script that leaks, with the first line of its report and a part of what follows. Which witness
/// it is is left open.
struct LeakRow {
    spec: &'static [u8],
    script: &'static [u8],
    line: &'static str,
    part: &'static str,
}

const LEAKS: [LeakRow; 14] = [
    LeakRow {
        spec: VISITORS,
        script: b"Note::UpdateFieldPolicy(body, {write: n -> [Visitor, Robot]})",
        line: "leak command 1 field Note.body right write\n",
        part: "\nprincipal Robot\n",
    },
    // A right that was taken away is a gain when it is given back.
    LeakRow {
        spec: VISITORS,
        script: b"Note::UpdateFieldPolicy(body, {write: none})
            Note::UpdateFieldPolicy(body, {write: n -> [Visitor]})",
        line: "leak command 2 field Note.body right write\n",
        part: "\nprincipal ",
    },
    LeakRow {
        spec: VISITORS,
        script: b"Note::UpdatePolicy({delete: n -> [Robot]})",
        line: "leak command 1 model Note right delete\n",
        part: "\nprincipal ",
    },
    LeakRow {
        spec: USERS,
        script: b"User::UpdateFieldPolicy(email, {write: public})",
        line: "leak command 1 field User.email right write\n",
        part: "\nprincipal ",
    },
    LeakRow {
        spec: USERS,
        script: b"User::AddField(level: Int {read: public, write: none}, u -> if u.isAdmin then 2 else 0)
            User::UpdateFieldPolicy(secret, {read: u -> User::Find({level >= 0})})",
        line: "leak command 2 field User.secret right read\n",
        part: "\nprincipal ",
    },
    LeakRow {
        spec: TEAMS,
        script: b"User::UpdateFieldPolicy(plan, {read: u -> match u.team with
            none -> [u] | some t -> if t.active then [t.lead] else none})",
        line: "leak command 1 field User.plan right read\n",
        part: "\nprincipal ",
    },
    LeakRow {
        spec: GROUPS,
        script: b"Group::UpdateFieldPolicy(plan, {read: g -> Membership::Find({}).map(m -> m.user)})",
        line: "leak command 1 field Group.plan right read\n",
        part: "\nprincipal ",
    },
    LeakRow {
        spec: USERS,
        script: b"User::UpdateFieldPolicy(manager, {read: u -> [u.manager.manager]})",
        line: "leak command 1 field User.manager right read\n",
        part: "\nprincipal ",
    },
    LeakRow {
        spec: USERS,
        script: b"CreateModel(model Grant {create: none, delete: none,
              user: Id(User) {read: public, write: none}})
            User::UpdateFieldPolicy(age, {read: u -> Grant::Find({}).map(g -> g.user)})",
        line: "leak command 2 field User.age right read\n",
        part: "\nGrant@1 @",
    },
    LeakRow {
        spec: USERS,
        script: b"User::UpdateFieldPolicy(email, {read: u -> User::Find({})})
            User::UpdateFieldPolicy(email, {read: public})
            AddStatic(Robot)",
        line: "leak command 2 field User.email right read\n",
        part: "\nprincipal Robot@3\n",
    },
    // What was copied from the secret is shown to all, under the name that it had.
    LeakRow {
        spec: USERS,
        script: b"User::AddField(tmp: Text {read: none, write: none}, u -> u.secret)
            User::RemoveField(secret)
            User::AddField(secret: Text {read: public, write: none}, u -> u.tmp)",
        line: "leak command 3 field User.secret right read\n",
        part: " tmp\ndatabase\n",
    },
    LeakRow {
        spec: USERS,
        script: b"User::UpdateFieldPolicy(age, {read: u -> [u] - [u.manager]})",
        line: "leak command 1 field User.age right read\n",
        part: "\nprincipal User @",
    },
    // Somebody who is banned is let in: nobody else is needed to show it.
    LeakRow {
        spec: BANS,
        script: b"Group::UpdateFieldPolicy(plan, {read: g ->
            Membership::Find({group: g, level > 0}).map(m -> m.user)})",
        line: "leak command 1 field Group.plan right read\n",
        part: "\nBan @2 {\n  @1 {user: @1, group: @1}\n}\nend\n",
    },
    LeakRow {
        spec: USERS,
        script: b"User::AddField(peers: Set(Id(User)) {read: public, write: none},
            u -> User::Find({age > 17}))",
        line: "leak command 1 field User.peers right read\n",
        part: " age\ndatabase\n",
    },
];

const REFUSED: [Row; 13] = [
    Row {
        spec: USERS,
        script: b"User::WeakenFieldPolicy(email, {write: public}, \"\")",
        status: Status::TypesRefused,
        report: b"s.scm: command 1: empty reason at 48\n",
    },
    Row {
        spec: USERS,
        script: b"User::RemoveField(isAdmin)",
        status: Status::TypesRefused,
        report: b"s.scm: command 1: still used at 18 by User.secret read\n",
    },
    // Who uses it is named as before the command: the second `mark` is the one that is read.
    Row {
        spec: USERS,
        script: b"User::AddField(mark: Bool {read: none, write: none}, u -> true)
            User::RemoveField(mark)
            User::AddField(mark: Bool {read: none, write: u -> User::Find({mark: true})}, u -> true)
            User::UpdatePolicy({delete: u -> User::Find({mark: true})})
            User::UpdateFieldPolicy(mark, {write: none})
            User::RemoveField(mark)",
        status: Status::TypesRefused,
        report: b"s.scm: command 6: still used at 360 by User delete\n",
    },
    Row {
        spec: TEAMS,
        script: b"DeleteModel(Team)",
        status: Status::TypesRefused,
        report: b"s.scm: command 1: still used at 12 by User.team type\n",
    },
    Row {
        spec: VISITORS,
        script: b"RemoveStatic(Visitor)",
        status: Status::TypesRefused,
        report: b"s.scm: command 1: still used at 13 by Note.body write\n",
    },
    Row {
        spec: VISITORS,
        script: b"Note::UpdateFieldPolicy(title, {read: none})",
        status: Status::TypesRefused,
        report: b"s.scm: command 1: unknown at 24\n",
    },
    Row {
        spec: VISITORS,
        script: b"AddStatic(Visitor)",
        status: Status::TypesRefused,
        report: b"s.scm: command 1: twice at 10\n",
    },
    Row {
        spec: USERS,
        script: b"AddStatic(Robot) User::UpdateFieldPolicy(age, {read: u -> User::Find({age: true})})",
        status: Status::TypesRefused,
        report: b"s.scm: command 2: wrong type at 75\n",
    },
    Row {
        spec: TEAMS,
        script: b"Team::UpdateFieldPolicy(active, {read: t -> [t]})",
        status: Status::TypesRefused,
        report: b"s.scm: command 1: not principal at 45\n",
    },
    Row {
        spec: b"static Visitor static Visitor",
        script: b"=",
        status: Status::TypesRefused,
        report: b"n.spec: twice at 22\n",
    },
    Row {
        spec: b"model Note {create: none, delete: none, of: Id(User) {read: none, write: none}}",
        script: b"",
        status: Status::TypesRefused,
        report: b"n.spec: unknown at 47\n",
    },
    Row {
        spec: VISITORS,
        script: b"Note::UpdateFieldPolicy(body, {})",
        status: Status::TextRefused,
        report: b"s.scm: not grammar at token 7\n",
    },
    Row {
        spec: USERS,
        script: b"User::WeakenFieldPolicy(age, {read: u -> User::Find({}).flat_map(x -> if x.manager.age <= x.age then public else none)}, \"r\")
            User::UpdateFieldPolicy(age, {read: public})",
        status: Status::Undecided,
        report: b"undecided command 2 field User.age right read kind User cycle User -> User\n",
    },
];

/// Each cause of a fault of typing, at the name or the first token of the part that it is about.
const TYPING_FAULTS: [Row; 19] = [
    Row {
        spec: USERS,
        script: b"User::AddField(x: Int {read: public, write: none}, u -> u.nope)",
        status: Status::TypesRefused,
        report: b"s.scm: command 1: unknown at 58\n",
    },
    Row {
        spec: USERS,
        script: b"User::AddField(x: Int {read: public, write: none}, u -> u.email)",
        status: Status::TypesRefused,
        report: b"s.scm: command 1: wrong type at 56\n",
    },
    Row {
        spec: VISITORS,
        script: b"Note::UpdateFieldPolicy(body, {write: n -> [n]})",
        status: Status::TypesRefused,
        report: b"s.scm: command 1: not principal at 44\n",
    },
    Row {
        spec: VISITORS,
        script: b"CreateModel(model Tag {create: none, delete: none, of: Id(Ghost) {read: none, write: none}})",
        status: Status::TypesRefused,
        report: b"s.scm: command 1: unknown at 58\n",
    },
    Row {
        spec: VISITORS,
        script: b"CreateModel(model Tag {create: t -> [t], delete: none})",
        status: Status::TypesRefused,
        report: b"s.scm: command 1: not principal at 37\n",
    },
    Row {
        spec: VISITORS,
        script: b"CreateModel(model Tag {create: none, delete: none, name: Text {read: t -> [t.name], write: none}})",
        status: Status::TypesRefused,
        report: b"s.scm: command 1: wrong type at 75\n",
    },
    Row {
        spec: VISITORS,
        script: b"CreateModel(model Visitor {create: none, delete: none})",
        status: Status::TypesRefused,
        report: b"s.scm: command 1: twice at 18\n",
    },
    Row {
        spec: USERS,
        script: b"User::AddField(age: Int {read: none, write: none}, u -> 0)",
        status: Status::TypesRefused,
        report: b"s.scm: command 1: twice at 15\n",
    },
    Row {
        spec: USERS,
        script: b"AddPrincipal(User)",
        status: Status::TypesRefused,
        report: b"s.scm: command 1: twice at 13\n",
    },
    Row {
        spec: USERS,
        script: b"CreateModel(model User {create: none, delete: none})",
        status: Status::TypesRefused,
        report: b"s.scm: command 1: twice at 18\n",
    },
    Row {
        spec: USERS,
        script: b"User::UpdateFieldPolicy(age, {read: u -> User::Find({}).map(u -> u)})",
        status: Status::TypesRefused,
        report: b"s.scm: command 1: twice at 60\n",
    },
    Row {
        spec: VISITORS,
        script: b"DeleteModel(User)",
        status: Status::TypesRefused,
        report: b"s.scm: command 1: unknown at 12\n",
    },
    Row {
        spec: VISITORS,
        script: b"Note::UpdatePolicy({create: n -> [Ghost]})",
        status: Status::TypesRefused,
        report: b"s.scm: command 1: unknown at 34\n",
    },
    Row {
        spec: USERS,
        script: b"User::UpdateFieldPolicy(age, {read: u -> [u.email]})",
        status: Status::TypesRefused,
        report: b"s.scm: command 1: wrong type at 42\n",
    },
    Row {
        spec: b"model Note {create: none, delete: none, f: Int {read: none, write: none}, f: Int {read: none, write: none}}",
        script: b"",
        status: Status::TypesRefused,
        report: b"n.spec: twice at 74\n",
    },
    Row {
        spec: b"static Note model Note {create: none, delete: none}",
        script: b"",
        status: Status::TypesRefused,
        report: b"n.spec: twice at 18\n",
    },
    Row {
        spec: b"model Note {create: n -> [n], delete: none}",
        script: b"",
        status: Status::TypesRefused,
        report: b"n.spec: not principal at 26\n",
    },
    Row {
        spec: b"principal model User {create: none, delete: u -> User::Find({age: true}), age: Int {read: none, write: none}}",
        script: b"",
        status: Status::TypesRefused,
        report: b"n.spec: wrong type at 66\n",
    },
    Row {
        spec: b"principal model User {create: none, delete: u -> [u.boss]}",
        script: b"",
        status: Status::TypesRefused,
        report: b"n.spec: unknown at 52\n",
    },
];

#[test]
fn accepted_scripts(rt: HostRuntime) -> Result<(), Fail> {
    for row in &ACCEPTED {
        let ended = check_texts(rt.alloc(), row.spec, row.script)?;
        assert_eq!(rt; ended.status, row.status);
        assert!(rt; ended.output.as_slice() == row.report);
    }
    Ok(())
}

#[test]
fn leaks(rt: HostRuntime) -> Result<(), Fail> {
    for row in &LEAKS {
        let ended = check_texts(rt.alloc(), row.spec, row.script)?;
        assert_eq!(rt; ended.status, Status::Leak);
        let report = str::from_utf8(ended.output.as_slice()).map_err(
            |_| "a report that is no text",
        )?;
        assert!(rt; report.starts_with(row.line));
        assert!(rt; report.contains(row.part));
        assert!(rt; report.ends_with("\nend\n"));
    }
    Ok(())
}

#[test]
fn refused_and_undecided_scripts(rt: HostRuntime) -> Result<(), Fail> {
    for row in &REFUSED {
        let ended = check_texts(rt.alloc(), row.spec, row.script)?;
        assert_eq!(rt; ended.status, row.status);
        assert!(rt; ended.output.as_slice() == row.report);
    }
    Ok(())
}

/// Texts that are handed in, without a file.
#[test]
fn texts_that_nobody_fetches(rt: HostRuntime) -> Result<(), Fail> {
    for (script, word) in [
        (
            b"User::UpdateFieldPolicy(email, {read: u -> [u]})".as_slice(),
            "accepted",
        ),
        (
            b"User::UpdateFieldPolicy(age, {read: public})".as_slice(),
            "leak",
        ),
        (b"User::RemoveField(isAdmin)".as_slice(), "refused"),
    ] {
        assert_eq!(rt; check_bytes(rt.alloc(), USERS, script)?, word);
    }
    Ok(())
}

#[test]
fn faults_of_typing(rt: HostRuntime) -> Result<(), Fail> {
    for row in &TYPING_FAULTS {
        let ended = check_texts(rt.alloc(), row.spec, row.script)?;
        assert_eq!(rt; ended.status, row.status);
        assert!(rt; ended.output.as_slice() == row.report);
    }
    Ok(())
}
