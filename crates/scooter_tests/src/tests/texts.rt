//! Texts of the whole language that spell a tree, and that are refused for a cause at a place.

use app_files::Status;
use app_trial::check_texts;
use std::alloc::{AllocError, Global};
use std::test::Fail;

#[test]
fn one_cause_and_its_place(rt: HostRuntime) -> Result<(), Fail> {
    let rows = [
        (b"\xff".as_slice(), b"s.scm: not text at 0\n".as_slice()),
        // The whole text is UTF-8 before any of its tokens is looked at.
        (b"AddStatic(A) = # \x80", b"s.scm: not text at 17\n"),
        (b"AddStatic(A) =", b"s.scm: bad byte at 13\n"),
        (
            b"User::AddField(big: Int {read: none, write: none}, u -> 9223372036854775809)",
            b"s.scm: bad number at 56\n",
        ),
        (
            b"User::WeakenFieldPolicy(email, {write: public}, \"because",
            b"s.scm: unfinished at 48\n",
        ),
        (
            b"User::AddField(big: Int {read: none, write: none}, u -> 9223372036854775808)",
            b"s.scm: not grammar at token 19\n",
        ),
        // Where the tokens end too early, it is their number.
        (b"DeleteModel(User", b"s.scm: not grammar at token 3\n"),
        (
            b"User::UpdatePolicy({})",
            b"s.scm: not grammar at token 5\n",
        ),
        (b"AddStatic(Set)", b"s.scm: not grammar at token 2\n"),
        // A fault of types in an earlier command comes behind it.
        (
            b"DeleteModel(Nothing) AddStatic(A",
            b"s.scm: not grammar at token 7\n",
        ),
    ];
    for (script, output) in rows {
        let ended = check_texts(rt.alloc(), b"", script)?;
        assert_eq!(rt; ended.status, Status::TextRefused);
        assert!(rt; ended.output.as_slice() == output);
    }
    let ended = check_texts(rt.alloc(), b"model User {}", b"=")?;
    assert_eq!(rt; ended.status, Status::TextRefused);
    assert!(rt; ended.output.as_slice() == b"n.spec: not grammar at token 3\n".as_slice());
    assert_eq!(rt; ended.fetches, 1);
    Ok(())
}

const USERS_WITH_FRIENDS: &[u8] = b"principal model User {
  create: public,
  delete: none,
  email: Text {read: public, write: u -> [u]},
  isAdmin: Bool {read: public, write: none},
  age: Int {read: public, write: none},
  open: Bool {read: public, write: none},
  manager: Id(User) {read: public, write: none},
  boss: Option(Id(User)) {read: public, write: none},
  secret: Text {read: u -> User::Find({isAdmin: true}) - [u.manager], write: none},
  friends: Set(Id(User)) {read: u -> (if u.open then public else [u]), write: none},
}
model Team {create: none, delete: none}
";

/// Each is read, and decided.
#[test]
fn texts_that_are_read(rt: HostRuntime) -> Result<(), Fail> {
    let scripts = [
        (
            b"User::AddField(big: Int {read: none, write: none}, u -> -9223372036854775808)".as_slice(),
            b"accepted obligations 0\n".as_slice(),
        ),
        (
            b"User::AddField(big: Int {read: none, write: none}, u -> 9223372036854775807)",
            b"accepted obligations 0\n",
        ),
        (
            b"AddStatic(A) RemoveStatic(A) AddPrincipal(Team) DeleteModel(Team)",
            b"accepted obligations 0\n",
        ),
        (
            b"CreateModel(model Grant {create: none, delete: g -> [g.user],
            user: Id(User) {read: none, write: none},})",
            b"accepted obligations 0\n",
        ),
        (
            b"User::WeakenFieldPolicy(email, {write: public}, \"open \\x07 house\")",
            b"accepted obligations 0\n",
        ),
        (
            b"User::WeakenPolicy({delete: u -> u.friends.map(x -> x.manager)}, \"friends\")
            User::UpdatePolicy({create: none, delete: u -> u.friends.map(x -> x.manager)})",
            b"accepted obligations 2\n",
        ),
        (
            b"User::AddField(of: Set(Id(User)) {read: none, write: none},
            u -> match u.boss with none -> [] | some b -> b.friends)",
            b"accepted obligations 2\n",
        ),
        (
            b"User::AddField(same: Bool {read: none, write: none}, u -> !(u.age < -1)
            && u in {u.friends} || u in u.friends)",
            b"accepted obligations 3\n",
        ),
        (b"User::RemoveField(email)", b"accepted obligations 0\n"),
    ];
    for (script, output) in scripts {
        let ended = check_texts(rt.alloc(), USERS_WITH_FRIENDS, script)?;
        assert_eq!(rt; ended.status, Status::Done);
        assert!(rt; ended.output.as_slice() == output);
    }
    Ok(())
}

/// A text in which `open` and `close` stand so often round `middle`, and the report where they
/// stand once more than they may.
struct Limit {
    front: &'static [u8],
    open: &'static [u8],
    most: usize,
    middle: &'static [u8],
    close: &'static [u8],
    back: &'static [u8],
    /// The status of so many: a name that stands twice is no fault of the text.
    within: Status,
    over: &'static [u8],
}

fn push_times(text: &mut Vec<u8>, part: &[u8], times: usize) -> Result<(), AllocError> {
    for _ in 0..times {
        text.extend_from_slice(part)?;
    }
    Ok(())
}

impl Limit {
    fn text(&self, alloc: Global, times: usize) -> Result<Vec<u8>, AllocError> {
        let mut text = Vec::from_slice(alloc, self.front)?;
        push_times(&mut text, self.open, times)?;
        text.extend_from_slice(self.middle)?;
        push_times(&mut text, self.close, times)?;
        text.extend_from_slice(self.back)?;
        Ok(text)
    }
}

const OF_SPECIFICATIONS: [Limit; 5] = [
    Limit {
        front: b"",
        open: b"static A ",
        most: 64,
        middle: b"",
        close: b"",
        back: b"",
        within: Status::TypesRefused,
        over: b"n.spec: too many statics at 576\n",
    },
    Limit {
        front: b"",
        open: b"model M{create:none,delete:none}",
        most: 64,
        middle: b"",
        close: b"",
        back: b"",
        within: Status::TypesRefused,
        over: b"n.spec: too many models at 2048\n",
    },
    Limit {
        front: b"model M{create:none,delete:none",
        open: b",f:Int{read:none,write:none}",
        most: 64,
        middle: b"",
        close: b"",
        back: b",}",
        within: Status::TypesRefused,
        over: b"n.spec: too many fields at 1824\n",
    },
    // The set inside 64 pairs of parentheses is at the level 65.
    Limit {
        front: b"principal model M{create:none,delete:x->",
        open: b"(",
        most: 63,
        middle: b"[]",
        close: b")",
        back: b"}",
        within: Status::Done,
        over: b"n.spec: too deep at 104\n",
    },
    // The condition of the choice at the level 64 is at the level 65.
    Limit {
        front: b"model M{create:none,delete:x->",
        open: b"if x then [] else ",
        most: 63,
        middle: b"[]",
        close: b"",
        back: b"}",
        within: Status::TypesRefused,
        over: b"n.spec: too deep at 1167\n",
    },
];

const OF_SCRIPTS: [Limit; 4] = [
    Limit {
        front: b"",
        open: b"AddStatic(A)",
        most: 256,
        middle: b"",
        close: b"",
        back: b"",
        within: Status::TypesRefused,
        over: b"s.scm: too many commands at 3072\n",
    },
    // One and two tokens each time are 1,023 and 1,025 tokens.
    Limit {
        front: b"M::AddField(f:Bool{read:none,write:none},x->x",
        open: b"&&x",
        most: 511,
        middle: b"",
        close: b"",
        back: b")",
        within: Status::TypesRefused,
        over: b"s.scm: too many tokens at 1580\n",
    },
    Limit {
        front: b"M::WeakenPolicy({create:none},\"",
        open: b"a",
        most: 4096,
        middle: b"",
        close: b"",
        back: b"\")",
        within: Status::TypesRefused,
        over: b"s.scm: too many text bytes at 30\n",
    },
    Limit {
        front: b"AddStatic(A",
        open: b"a",
        most: 63,
        middle: b"",
        close: b"",
        back: b")",
        within: Status::Done,
        over: b"s.scm: too many name bytes at 10\n",
    },
];

#[test]
fn limits_of_specifications(rt: HostRuntime) -> Result<(), Fail> {
    for limit in &OF_SPECIFICATIONS {
        let at_most = limit.text(rt.alloc(), limit.most)?;
        let ended = check_texts(rt.alloc(), at_most.as_slice(), b"")?;
        assert_eq!(rt; ended.status, limit.within);
        let one_more = limit.text(rt.alloc(), limit.most + 1)?;
        let ended = check_texts(rt.alloc(), one_more.as_slice(), b"")?;
        assert_eq!(rt; ended.status, Status::TextRefused);
        assert!(rt; ended.output.as_slice() == limit.over);
    }
    Ok(())
}

#[test]
fn limits_of_scripts(rt: HostRuntime) -> Result<(), Fail> {
    for limit in &OF_SCRIPTS {
        let at_most = limit.text(rt.alloc(), limit.most)?;
        let ended = check_texts(rt.alloc(), b"", at_most.as_slice())?;
        assert_eq!(rt; ended.status, limit.within);
        let one_more = limit.text(rt.alloc(), limit.most + 1)?;
        let ended = check_texts(rt.alloc(), b"", one_more.as_slice())?;
        assert_eq!(rt; ended.status, Status::TextRefused);
        assert!(rt; ended.output.as_slice() == limit.over);
    }
    Ok(())
}
