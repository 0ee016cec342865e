//! Commands over a store in memory, one after another.

use app_files::Status;
use app_trial::{Failing, File, at_last_version, run_over_store};
use std::alloc::{AllocError, Global};
use std::test::Fail;
use store_keeper::{Keeper, MemKeeper, SureKeeper};

/// The files that the commands of these tests name.
pub const STORE_FILES: [File<'static>; 11] = [
    File {
        name: "n.spec",
        text: b"static Visitor
static Robot
model Note {
  create: public,
  delete: none,
  body: Text {read: public, write: n -> [Visitor]},
}
",
    },
    File {
        name: "u.spec",
        text: b"principal model User {
  create: public,
  delete: none,
  email: Text {read: public, write: u -> [u]},
  age: Int {read: none, write: none},
  isAdmin: Bool {read: public, write: none},
  secret: Text {read: u -> User::Find({isAdmin: true}), write: none},
  manager: Id(User) {read: u -> [u.manager], write: none},
}
",
    },
    File {
        name: "d.txt",
        text: b"User @3 {
  @2 {age: 20, email: \"b@x\", isAdmin: false, secret: \"s2\", manager: @1}
  @1 {email: \"a@x\", age: 30, isAdmin: true, secret: \"s1\", manager: @1}
}
",
    },
    File {
        name: "gone.txt",
        text: b"User @2 {@1 {email: \"\", age: 3, isAdmin: true, secret: \"\", manager: @2}}",
    },
    File {
        name: "cut.txt",
        text: b"User @2 {",
    },
    File {
        name: "s.scm",
        text: b"User::UpdateFieldPolicy(email, {read: u -> [u]})",
    },
    File {
        name: "leak.scm",
        text: b"User::UpdateFieldPolicy(email, {write: public})",
    },
    File {
        name: "weak.scm",
        text: b"User::WeakenFieldPolicy(email, {write: public}, \"open house\")",
    },
    File {
        name: "level.scm",
        text: b"User::AddField(level: Int {read: public, write: none}, u -> if u.isAdmin then 2 else 0)
User::RemoveField(secret)
User::RemoveField(isAdmin)
CreateModel(model Grant {create: none, delete: none, to: Id(User) {read: public, write: none}})
",
    },
    File {
        name: "used.scm",
        text: b"User::RemoveField(isAdmin)",
    },
    File {
        name: "ages.scm",
        text: b"User::WeakenFieldPolicy(age, {read: u -> User::Find({}).flat_map(x ->
    if x.manager.age <= x.age then public else none)}, \"r\")
User::UpdateFieldPolicy(age, {read: public})",
    },
];

/// Words, and what they come to over what the store then holds: the status and the report, or the
/// front of the report of a leak or of one that is cut.
pub type Step = (&'static [&'static str], Status, &'static [u8]);

/// Whether the words come to this over the store, where the fetches and puts of these numbers fail.
pub fn comes_to<K: Keeper>(
    alloc: Global,
    store: &mut K,
    step: Step,
    failing: Failing<'_>,
) -> Result<bool, AllocError> {
    let (words, status, report) = step;
    let ended = run_over_store(alloc, words, &STORE_FILES, store, failing)?;
    let output = ended.output.as_slice();
    let is_front = status == Status::Leak || status == Status::WriteFault;
    let is_reported = if is_front {
        output.starts_with(report)
    } else {
        output == report
    };
    Ok(ended.status == status && is_reported)
}

/// No fetch and no put fails.
pub const SURE: Failing<'static> = Failing {
    fetches: &[],
    puts: &[],
};

/// The number of the first step that comes to something else.
fn first_wrong<K: Keeper>(
    alloc: Global,
    store: &mut K,
    steps: &[Step],
) -> Result<Option<usize>, AllocError> {
    for (number, step) in steps.iter().enumerate() {
        if !comes_to(alloc, store, *step, SURE)? {
            return Ok(Some(number));
        }
    }
    Ok(None)
}

/// The same over a store that holds nothing at first.
fn first_wrong_of(alloc: Global, steps: &[Step]) -> Result<Option<usize>, AllocError> {
    let mut store = SureKeeper::new(alloc, None);
    first_wrong(alloc, &mut store, steps)
}

/// A session of commands, from a store that holds nothing on.
pub const SESSION: [Step; 21] = [
    (&["show"], Status::StoreState, b"store is empty\n"),
    (&["check", "s.scm"], Status::StoreState, b"store is empty\n"),
    (
        &["apply", "nowhere"],
        Status::StoreState,
        b"store is empty\n",
    ),
    (&["init", "nowhere"], Status::Missing, b"missing nowhere\n"),
    (
        &["init", "s.scm"],
        Status::TextRefused,
        b"s.scm: not grammar at token 0\n",
    ),
    (
        &["init", "u.spec", "cut.txt"],
        Status::TextRefused,
        b"cut.txt: not grammar at token 4\n",
    ),
    (
        &["init", "u.spec", "gone.txt"],
        Status::TypesRefused,
        b"gone.txt: dangling at 69\n",
    ),
    (&["show"], Status::StoreState, b"store is empty\n"),
    (
        &["init", "u.spec", "d.txt"],
        Status::Done,
        b"ok version 1\n",
    ),
    (&["init", "u.spec"], Status::StoreState, b"store is set\n"),
    (&["init", "nowhere"], Status::StoreState, b"store is set\n"),
    (
        &["check", "s.scm"],
        Status::Done,
        b"accepted obligations 1\n",
    ),
    (
        &["check", "leak.scm"],
        Status::Leak,
        b"leak command 1 field User.email right write\n",
    ),
    (
        &["apply", "leak.scm"],
        Status::Leak,
        b"leak command 1 field User.email right write\n",
    ),
    (
        &["apply", "used.scm"],
        Status::TypesRefused,
        b"used.scm: command 1: still used at 18 by User.secret read\n",
    ),
    (
        &["apply", "ages.scm"],
        Status::Undecided,
        b"undecided command 2 field User.age right read kind User cycle User -> User\n",
    ),
    (
        &["apply", "s.scm"],
        Status::Done,
        b"applied obligations 1 version 2\n",
    ),
    (
        &["apply", "weak.scm"],
        Status::Done,
        b"applied obligations 0 version 3\n",
    ),
    (
        &["apply", "level.scm"],
        Status::Done,
        b"applied obligations 1 version 4\n",
    ),
    (
        &["show"],
        Status::Done,
        b"version 4
principal model User {
  create: public,
  delete: none,
  email: Text {read: u -> [u], write: public},
  age: Int {read: none, write: none},
  manager: Id(User) {read: u -> [u.manager], write: none},
  level: Int {read: public, write: none},
}
model Grant {
  create: none,
  delete: none,
  to: Id(User) {read: public, write: none},
}
User @3 {
  @1 {email: \"a@x\", age: 30, manager: @1, level: 2}
  @2 {email: \"b@x\", age: 20, manager: @1, level: 0}
}
Grant @1 {
}
note 3 command 1 User.email write \"open house\"
",
    ),
    (
        &["check", "level.scm"],
        Status::TypesRefused,
        b"level.scm: command 1: twice at 15\n",
    ),
];

#[test]
fn commands_one_after_another(rt: HostRuntime) -> Result<(), Fail> {
    let wrong = first_wrong_of(rt.alloc(), &SESSION)?;
    assert!(rt; wrong.is_none(), "step {wrong:?}");
    Ok(())
}

const SHOWN_NOTES: [Step; 3] = [
    (&["init", "n.spec"], Status::Done, b"ok version 1\n"),
    (
        &["show"],
        Status::Done,
        b"version 1
static Visitor
static Robot
model Note {
  create: public,
  delete: none,
  body: Text {read: public, write: n -> [Visitor]},
}
Note @1 {
}
",
    ),
    (&["init", "n.spec"], Status::StoreState, b"store is set\n"),
];

#[test]
fn what_is_stored_is_shown(rt: HostRuntime) -> Result<(), Fail> {
    let wrong = first_wrong_of(rt.alloc(), &SHOWN_NOTES)?;
    assert!(rt; wrong.is_none(), "step {wrong:?}");
    Ok(())
}

/// The version that is stored.
fn version(store: &MemKeeper) -> Option<u64> {
    match store.stored() {
        Some(held) => Some(held.version),
        None => None,
    }
}

/// The number of the first step that comes to something else, or leaves another version.
fn first_other(
    alloc: Global,
    store: &mut MemKeeper,
    steps: &[(Step, u64)],
) -> Result<Option<usize>, AllocError> {
    for (number, step) in steps.iter().enumerate() {
        let (step, left) = *step;
        if !comes_to(alloc, store, step, SURE)? || version(store) != Some(left) {
            return Ok(Some(number));
        }
    }
    Ok(None)
}

/// The first command of a session.
pub const INIT: Step = (&["init", "u.spec"], Status::Done, b"ok version 1\n");

/// The calls: `init` loads and writes, `apply` loads and writes.
const STORE_FAULTS: [(Step, u64); 4] = [
    (INIT, 1),
    ((&["apply", "s.scm"], Status::StoreFault, b""), 1),
    ((&["apply", "s.scm"], Status::StoreFault, b""), 1),
    (
        (
            &["apply", "s.scm"],
            Status::Done,
            b"applied obligations 1 version 2\n",
        ),
        2,
    ),
];

#[test]
fn a_store_that_fails_holds_what_it_held(rt: HostRuntime) -> Result<(), Fail> {
    let alloc = rt.alloc();
    let mut store = MemKeeper::new(alloc, None, vec![in alloc; 2, 4]?);
    let other = first_other(alloc, &mut store, &STORE_FAULTS)?;
    assert!(rt; other.is_none(), "step {other:?}");
    Ok(())
}

/// The version that is stored after the script is applied, where the numbered calls fail and it
/// ends so.
fn version_after(
    alloc: Global,
    script: &'static [&'static str],
    status: Status,
    failing: Failing<'_>,
) -> Result<Option<u64>, AllocError> {
    let mut store = MemKeeper::new(alloc, None, Vec::new(alloc));
    let begun = comes_to(alloc, &mut store, INIT, SURE)?;
    let ended = comes_to(alloc, &mut store, (script, status, b""), failing)?;
    if begun && ended {
        Ok(version(&store))
    } else {
        Ok(None)
    }
}

#[test]
fn a_file_that_is_not_read_changes_nothing(rt: HostRuntime) -> Result<(), Fail> {
    let unread = Failing {
        fetches: &[0],
        puts: &[],
    };
    let after = version_after(rt.alloc(), &["apply", "s.scm"], Status::ReadFault, unread)?;
    assert!(rt; after == Some(1));
    Ok(())
}

#[test]
fn what_was_accepted_is_stored_before_its_report(rt: HostRuntime) -> Result<(), Fail> {
    let unwritten = Failing {
        fetches: &[],
        puts: &[1],
    };
    for (script, version) in [
        (["apply", "s.scm"].as_slice(), 2),
        (["apply", "leak.scm"].as_slice(), 1),
    ] {
        let after = version_after(rt.alloc(), script, Status::WriteFault, unwritten)?;
        assert!(rt; after == Some(version));
    }
    Ok(())
}

/// What the last version comes to.
const LAST: [Step; 2] = [
    (
        &["apply", "s.scm"],
        Status::StoreState,
        b"version is spent\n",
    ),
    (
        &["check", "s.scm"],
        Status::Done,
        b"accepted obligations 1\n",
    ),
];

#[test]
fn the_last_version_is_spent(rt: HostRuntime) -> Result<(), Fail> {
    let alloc = rt.alloc();
    let mut first = SureKeeper::new(alloc, None);
    assert!(rt; comes_to(alloc, &mut first, INIT, SURE)?);
    let Ok(mut store) = at_last_version(alloc, &mut first, Vec::new(alloc)) else {
        return Err(Fail::from(AllocError));
    };
    let wrong = first_wrong(alloc, &mut store, &LAST)?;
    assert!(rt; wrong.is_none(), "step {wrong:?}");
    Ok(())
}
