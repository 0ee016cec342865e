//! Texts whose database, or whose first fault, is known.

ghost use Rattle.std.specs.Prelude.{IfOk};
ghost use Rattle.type_schema.specs.Proper.{IsProper};
ghost use Rattle.type_schema.specs.SchemaViews.{schema_of};

use data_print::print_database;
use data_read::{ReadErr, read_database, reload_database};
use data_records::{Database, Limit};
use std::alloc::Global;
use std::test::Fail;
use text_parse::{SyntaxErr, parse_spec};
use type_schema::Schema;
use type_scripts::type_spec;

mod places;
mod rows;
mod weights;

/// How long a text of these tests may be.
const MOST_BYTES: usize = 1_048_576;

/// Users with a manager, and teams of them.
const USERS_AND_TEAMS: &[u8] = b"principal model User {
  create: public,
  delete: none,
  email: Text {read: public, write: none},
  age: Int {read: public, write: none},
  isAdmin: Bool {read: public, write: none},
  secret: Text {read: public, write: none},
  manager: Id(User) {read: public, write: none},
}
model Team {
  create: public,
  delete: none,
  members: Set(Id(User)) {read: public, write: none},
  lead: Option(Id(User)) {read: public, write: none},
}";

const USER_ROWS: &[u8] = b"User @3 {
  @1 {email: \"a@x\", age: 30, isAdmin: true, secret: \"s1\", manager: @1}
  @2 {email: \"b@x\", age: 20, isAdmin: false, secret: \"s2\", manager: @1}
}
Team @1 {
}
";

/// The same users, in another order and with other blanks.
const OTHER_ORDER: &[u8] = b"# the users
User@3{@2{age:20,email:\"b@x\",secret:\"s2\",isAdmin:false,manager:@ 1}
  @1 {manager: @1, email: \"\\x61@x\", age: 30, isAdmin: true, secret: \"s1\"}}";

const TEAM_ROWS: &[u8] = b"User @2 {
  @1 {email: \"\", age: -1, isAdmin: true, secret: \"\", manager: @1}
}
Team @9 {
  @4 {members: [], lead: none}
  @8 {members: [@1], lead: some(@1)}
}
";

fn company(alloc: Global) -> Result<Schema, Fail>
    ensures { IfOk result (λ s. IsProper (schema_of s)) }
{
    let spec = parse_spec(alloc, USERS_AND_TEAMS)?;
    Ok(type_spec(alloc, &spec)?)
}

/// What is read of a text.
fn read(alloc: Global, s: &Schema, text: &[u8]) -> Result<Result<Database, ReadErr>, Fail>
    requires { IsProper (schema_of s.now) }
{
    if text.len() > MOST_BYTES {
        return Err(Fail::new("too long"));
    }
    Ok(read_database(alloc, text, s))
}

/// What is read of the text of a database that was kept.
fn reload(alloc: Global, s: &Schema, text: &[u8]) -> Result<Result<Database, ReadErr>, Fail>
    requires { IsProper (schema_of s.now) }
{
    if text.len() > MOST_BYTES {
        return Err(Fail::new("too long"));
    }
    Ok(reload_database(alloc, text, s))
}

/// Whether it is read, and the database of it is printed so.
fn is_reloaded(alloc: Global, s: &Schema, text: &[u8], printed: &[u8]) -> Result<bool, Fail>
    requires { IsProper (schema_of s.now) }
{
    match reload(alloc, s, text)? {
        Ok(database) => Ok(print_database(alloc, &database, s)?.as_slice() == printed),
        Err(_) => Ok(false),
    }
}

/// Whether the text is read, and the database of it is printed so.
fn is_printed(alloc: Global, s: &Schema, text: &[u8], printed: &[u8]) -> Result<bool, Fail>
    requires { IsProper (schema_of s.now) }
{
    match read(alloc, s, text)? {
        Ok(database) => Ok(print_database(alloc, &database, s)?.as_slice() == printed),
        Err(_) => Ok(false),
    }
}

/// Whether the text is refused so.
fn is_refused(alloc: Global, s: &Schema, text: &[u8], err: ReadErr) -> Result<bool, Fail>
    requires { IsProper (schema_of s.now) }
{
    match read(alloc, s, text)? {
        Ok(_) => Ok(false),
        Err(found) => Ok(found == err),
    }
}

/// How many of the texts are read, kept or not, and their databases are printed so.
fn printed(alloc: Global, s: &Schema, cases: &[(&[u8], &[u8])]) -> Result<usize, Fail>
    requires { IsProper (schema_of s.now) }
{
    let mut count: usize = 0;
    for (text, as_printed) in cases {
        if !is_printed(alloc, s, text, as_printed)? || !is_reloaded(alloc, s, text, as_printed)? {
            return Ok(count);
        }
        count = count.saturating_add(1);
    }
    Ok(count)
}

#[test]
fn texts_are_read(rt: HostRuntime) -> Result<(), Fail> {
    let alloc = rt.alloc();
    let s = company(alloc)?;
    let cases: [(&[u8], &[u8]); 4] = [
        (USER_ROWS, USER_ROWS),
        (OTHER_ORDER, USER_ROWS),
        (TEAM_ROWS, TEAM_ROWS),
        (b"", b"User @1 {\n}\nTeam @1 {\n}\n"),
    ];
    assert_eq!(rt; printed(alloc, &s, &cases)?, 4);
    Ok(())
}

/// The worked users with a next that the second is not below.
const BAD_NEXT: &[u8] = b"User @2 {
  @1 {email: \"a@x\", age: 30, isAdmin: true, secret: \"s1\", manager: @1}
  @2 {email: \"b@x\", age: 20, isAdmin: false, secret: \"s2\", manager: @1}
}
";

#[test]
fn a_printed_text_with_another_next(rt: HostRuntime) -> Result<(), Fail> {
    let s = company(rt.alloc())?;
    let bad_id = ReadErr::BadId { at: 84 };
    assert!(rt; is_refused(rt.alloc(), &s, BAD_NEXT, bad_id)?);
    Ok(())
}

/// So many teams, as a database of them is printed.
fn teams(alloc: Global, count: u64) -> Result<Vec<u8>, Fail> {
    let mut text = Vec::new(alloc);
    text.extend_from_slice(b"User @1 {\n}\nTeam @30000 {\n")?;
    for id in 0..count {
        text.extend_from_slice(b"  @")?;
        text.extend_from_slice((id + 1).to_string(alloc)?.as_bytes())?;
        text.extend_from_slice(b" {members: [], lead: none}\n")?;
    }
    text.extend_from_slice(b"}\n")?;
    Ok(text)
}

#[test]
fn twenty_thousand_records(rt: HostRuntime) -> Result<(), Fail> {
    let alloc = rt.alloc();
    let s = company(alloc)?;
    let full = ReadErr::Full {
        what: Limit::Records,
    };
    let most = teams(alloc, 20_000)?;
    assert!(rt; read(alloc, &s, most.as_slice())?.is_ok());
    let more = teams(alloc, 20_001)?;
    assert!(rt; is_refused(alloc, &s, more.as_slice(), full)?);
    assert!(rt; is_reloaded(alloc, &s, more.as_slice(), more.as_slice())?);
    Ok(())
}

/// A value in which lists nest so deep.
fn nested(alloc: Global, levels: u64) -> Result<Vec<u8>, Fail> {
    let mut text = Vec::new(alloc);
    text.extend_from_slice(b"Team @2 {@1 {members: ")?;
    for _level in 0..levels {
        text.extend_from_slice(b"[")?;
    }
    for _level in 0..levels {
        text.extend_from_slice(b"]")?;
    }
    text.extend_from_slice(b"}}")?;
    Ok(text)
}

#[test]
fn values_nest(rt: HostRuntime) -> Result<(), Fail> {
    let alloc = rt.alloc();
    let s = company(alloc)?;
    let shape = ReadErr::WrongShape { at: 23 };
    let deepest = nested(alloc, 64)?;
    assert!(rt; is_refused(alloc, &s, deepest.as_slice(), shape)?);
    let too_deep = ReadErr::Syntax(SyntaxErr::TooDeep { at: 86 });
    let deeper = nested(alloc, 65)?;
    assert!(rt; is_refused(alloc, &s, deeper.as_slice(), too_deep)?);
    Ok(())
}
