//! `impact`: an example, nothing, what is not decided, and each refusal.

use super::linked::linked;
use app_files::Status;
use app_trial::{File, run_failing, run_over};
use std::test::Fail;

const FILES: [File<'static>; 13] = [
    File {
        name: "u.spec",
        text: b"principal model User {
  create: public,
  delete: none,
  email: Text {read: public, write: u -> [u]},
  age: Int {read: none, write: none},
  isAdmin: Bool {read: public, write: none},
  secret: Text {read: u -> User::Find({isAdmin: true}), write: none},
  manager: Id(User) {read: u -> [u.manager], write: none},
}
",
    },
    File {
        name: "v.spec",
        text: b"static Visitor
principal model User {
  create: public,
  delete: none,
  age: Int {read: none, write: none},
  manager: Id(User) {read: u -> [u.manager], write: none},
}
",
    },
    File {
        name: "open.scm",
        text: b"User::WeakenFieldPolicy(email, {write: public}, \"open house\")",
    },
    File {
        name: "same.scm",
        text: b"User::WeakenFieldPolicy(secret,
            {read: u -> User::Find({isAdmin: true})}, \"same\")",
    },
    // What is updated is none of it, and an added static is a kind.
    File {
        name: "both.scm",
        text: b"AddStatic(Robot)
            User::UpdateFieldPolicy(age, {read: public})
            User::WeakenPolicy({create: none, delete: u -> [u]}, \"own\")",
    },
    File {
        name: "older.scm",
        text: b"RemoveStatic(Visitor)
            User::WeakenFieldPolicy(age, {read: u -> User::Find({}).flat_map(x ->
                if x.manager.age <= x.age then public else none)}, \"older\")
            User::WeakenFieldPolicy(age, {read: public}, \"all\")",
    },
    File {
        name: "none.scm",
        text: b"User::UpdateFieldPolicy(age, {read: public})",
    },
    File {
        name: "secret.scm",
        text: b"C::WeakenFieldPolicy(secret, {read: public}, \"gone\")",
    },
    File {
        name: "twice.spec",
        text: b"static Visitor static Visitor",
    },
    File {
        name: "cut.spec",
        text: b"model",
    },
    File {
        name: "slip.scm",
        text: b"AddStatic(A) =",
    },
    File {
        name: "unknown.scm",
        text: b"DeleteModel(Note)",
    },
    File {
        name: "empty.scm",
        text: b"User::WeakenFieldPolicy(email, {write: public}, \"\")",
    },
];

/// Words, the status, and what the output begins and ends with, and holds.
struct Row {
    words: &'static [&'static str],
    status: Status,
    front: &'static str,
    within: &'static str,
    end: &'static str,
}

const ROWS: [Row; 14] = [
    Row {
        words: &["impact", "u.spec", "open.scm"],
        status: Status::Done,
        front: "impact command 1 field User.email right write kind User example\nrow User @",
        within: "\nprincipal User @",
        end: "\nend\nimpacts 1\n",
    },
    Row {
        words: &["impact", "u.spec", "same.scm"],
        status: Status::Done,
        front: "impact command 1 field User.secret right read kind User nothing
impacts 1
",
        within: "impact command 1 field User.secret right read kind User nothing
impacts 1
",
        end: "impact command 1 field User.secret right read kind User nothing
impacts 1
",
    },
    Row {
        words: &["impact", "v.spec", "both.scm"],
        status: Status::Done,
        front: "impact command 3 model User right create kind Visitor nothing
impact command 3 model User right create kind Robot@1 nothing
impact command 3 model User right create kind User nothing
impact command 3 model User right delete kind Visitor nothing
impact command 3 model User right delete kind Robot@1 nothing
impact command 3 model User right delete kind User example
row User @",
        within: "\nprincipal User @",
        end: "\nend\nimpacts 6\n",
    },
    Row {
        words: &["impact", "v.spec", "older.scm"],
        status: Status::Done,
        front: "impact command 2 field User.age right read kind User example\nrow User @",
        within: "\nend\nimpact",
        end: "\nimpact command 3 field User.age right read kind User undecided cycle User -> User
impacts 2
",
    },
    Row {
        words: &["impact", "v.spec", "none.scm"],
        status: Status::Done,
        front: "impacts 0\n",
        within: "impacts 0\n",
        end: "impacts 0\n",
    },
    Row {
        words: &["impact", "nowhere", "open.scm"],
        status: Status::Missing,
        front: "missing nowhere\n",
        within: "missing nowhere\n",
        end: "missing nowhere\n",
    },
    Row {
        words: &["impact", "u.spec", "nowhere"],
        status: Status::Missing,
        front: "missing nowhere\n",
        within: "missing nowhere\n",
        end: "missing nowhere\n",
    },
    Row {
        words: &["impact", "cut.spec", "nowhere"],
        status: Status::TextRefused,
        front: "cut.spec: not grammar at token 1\n",
        within: "cut.spec: not grammar at token 1\n",
        end: "cut.spec: not grammar at token 1\n",
    },
    Row {
        words: &["impact", "u.spec", "slip.scm"],
        status: Status::TextRefused,
        front: "slip.scm: bad byte at 13\n",
        within: "slip.scm: bad byte at 13\n",
        end: "slip.scm: bad byte at 13\n",
    },
    Row {
        words: &["impact", "twice.spec", "nowhere"],
        status: Status::TypesRefused,
        front: "twice.spec: twice at 22\n",
        within: "twice.spec: twice at 22\n",
        end: "twice.spec: twice at 22\n",
    },
    Row {
        words: &["impact", "u.spec", "unknown.scm"],
        status: Status::TypesRefused,
        front: "unknown.scm: command 1: unknown at 12\n",
        within: "unknown.scm: command 1: unknown at 12\n",
        end: "unknown.scm: command 1: unknown at 12\n",
    },
    Row {
        words: &["impact", "u.spec", "empty.scm"],
        status: Status::TypesRefused,
        front: "empty.scm: command 1: empty reason at 48\n",
        within: "empty.scm: command 1: empty reason at 48\n",
        end: "empty.scm: command 1: empty reason at 48\n",
    },
    Row {
        words: &["impact", "u.spec"],
        status: Status::Usage,
        front: "usage: init SPEC [DATA], check ",
        within: ", impact SPEC SCRIPT\n",
        end: ", recheck SPEC SCRIPT CERT, impact SPEC SCRIPT\n",
    },
    Row {
        words: &["impact", "u.spec", "-open.scm"],
        status: Status::Usage,
        front: "usage: ",
        within: "gen N",
        end: "\n",
    },
];

#[test]
fn answers(rt: HostRuntime) -> Result<(), Fail> {
    for row in &ROWS {
        let ended = run_over(rt.alloc(), row.words, &FILES)?;
        assert_eq!(rt; ended.status, row.status);
        let output = ended.output.as_slice();
        assert!(rt; output.starts_with(row.front.as_bytes()));
        assert!(rt; output.ends_with(row.end.as_bytes()));
        let text = str::from_utf8(output)?;
        assert!(rt; text.contains(row.within));
    }
    Ok(())
}

#[test]
fn row_and_principal_are_two_users(rt: HostRuntime) -> Result<(), Fail> {
    let ended = run_over(rt.alloc(), &["impact", "u.spec", "open.scm"], &FILES)?;
    let text = str::from_utf8(ended.output.as_slice())?;
    let one = text.contains("row User @1\nprincipal User @2\n");
    assert!(rt; one || text.contains("row User @2\nprincipal User @1\n"));
    Ok(())
}

#[test]
fn a_formula_that_is_too_large(rt: HostRuntime) -> Result<(), Fail> {
    let spec = linked(rt.alloc())?;
    let files = [
        File {
            name: "c.spec",
            text: spec.as_slice(),
        },
        FILES[7],
    ];
    let ended = run_over(rt.alloc(), &["impact", "c.spec", "secret.scm"], &files)?;
    assert_eq!(rt; ended.status, Status::Done);
    let text = b"impact command 1 field C.secret right read kind C too large terms 445 nodes 126
impacts 1
";
    assert!(rt; ended.output.as_slice() == text.as_slice());
    Ok(())
}

#[test]
fn faults(rt: HostRuntime) -> Result<(), Fail> {
    let words = ["impact", "u.spec", "same.scm"];
    let rows: [(&[u64], &[u64], Status, u64); 4] = [
        (&[0], &[], Status::ReadFault, 1),
        (&[1], &[], Status::ReadFault, 2),
        (&[], &[0], Status::WriteFault, 2),
        (&[], &[2], Status::WriteFault, 2),
    ];
    for (fetches, puts, status, fetched) in rows {
        let ended = run_failing(rt.alloc(), &words, &FILES, fetches, puts)?;
        assert_eq!(rt; ended.status, status);
        assert_eq!(rt; ended.fetches, fetched);
    }
    Ok(())
}
