//! Lines whose requests, or whose refusals, are known.

use crate::parse_request;
use std::alloc::Global;
use std::test::Fail;
use text_parse::SyntaxErr;

/// How long a line of these tests may be.
const MOST_BYTES: usize = 1000;

/// Whether a line of these tests is read as a request.
fn is_request(alloc: Global, line: &[u8]) -> Result<bool, SyntaxErr> {
    if line.len() > MOST_BYTES {
        return Err(SyntaxErr::OutOfMemory);
    }
    Ok(parse_request(alloc, line)?.is_some())
}

#[test]
fn requests_are_read(rt: HostRuntime) {
    let table = [
        "open a as User @2",
        "open open as Visitor\r",
        "renew as",
        "\tclose switch # bye",
        "read a User @1 email",
        "find a User {}",
        "find a User {isAdmin: true, age >= -3, friends has @1, team != none}",
        "write a User @1 email \"c@x\"",
        "write a User @9223372036854775808 team some(@0)",
        "create a User {}",
        "create a User {manager: self, friends: [self, @1], team: some(self)}",
        "delete a User @1",
        "migrate \"\"",
    ];
    for line in table {
        assert_eq!(rt;
            is_request(rt.alloc(), line.as_bytes()),
            Ok(true),
            "in {line}"
        );
    }
    for line in ["", " \t# read a"] {
        assert_eq!(rt; is_request(rt.alloc(), line.as_bytes()), Ok(false));
    }
}

#[test]
fn lines_outside_the_grammar_are_refused(rt: HostRuntime) {
    let table = [
        ("read a", 2),
        ("read read User @1 email", 1),
        ("open a as User @", 5),
        ("open a as user", 3),
        ("close a b", 2),
        ("find a User {age: 1,}", 8),
        ("find a User {manager: self}", 6),
        ("write a User @1 manager self", 6),
        ("write a User @1 friends [self]", 7),
        ("migrate t", 1),
        ("OPEN a as Visitor", 0),
    ];
    for (line, token) in table {
        let answer = is_request(rt.alloc(), line.as_bytes());
        assert_eq!(rt; answer, Err(SyntaxErr::NotGrammar { token }), "in {line}");
    }
}

#[test]
fn other_refusals(rt: HostRuntime) {
    let table: [(&[u8], SyntaxErr); 4] = [
        (b"read a User @01 email", SyntaxErr::BadNumber { at: 13 }),
        (b"migrate \"t", SyntaxErr::Unfinished { at: 8 }),
        (b"close a $", SyntaxErr::BadByte { at: 8 }),
        (b"# \xff", SyntaxErr::NotText { at: 2 }),
    ];
    for (line, wanted) in table {
        assert_eq!(rt; is_request(rt.alloc(), line), Err(wanted));
    }
}

/// A line with a number below so many lists.
fn nested(alloc: Global, count: usize) -> Result<Vec<u8>, Fail> {
    let mut line = Vec::from_slice(alloc, b"write a U @1 f ")?;
    for _ in 0..count {
        line.push(b'[')?;
    }
    line.push(b'1')?;
    for _ in 0..count {
        line.push(b']')?;
    }
    Ok(line)
}

#[test]
fn values_nest_64_levels_deep(rt: HostRuntime) -> Result<(), Fail> {
    let deepest = nested(rt.alloc(), 63)?;
    assert_eq!(rt; is_request(rt.alloc(), deepest.as_slice()), Ok(true));
    let deeper = nested(rt.alloc(), 64)?;
    assert_eq!(rt;
        is_request(rt.alloc(), deeper.as_slice()),
        Err(SyntaxErr::TooDeep { at: 79 })
    );
    Ok(())
}
