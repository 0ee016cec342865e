//! A specification and scripts that grow. Their texts are written here by hand, too.

use app_files::Status;
use app_trial::{check_texts, run_over};
use std::alloc::Global;
use std::test::Fail;

/// How many commands the scripts have.
const GROWN_COMMANDS: u32 = 40;

const GROWN_HEAD: &[u8] = b"static Visitor
principal model User { create: none, delete: none }
principal model Robot { create: none, delete: none }
model Group { create: none, delete: none }
model Membership {
  create: none, delete: none,
  user: Id(User) {read: public, write: none},
  group: Id(Group) {read: public, write: none},
  level: Int {read: public, write: none}
}
model Note {
  create: none, delete: none,
  owner: Id(User) {read: public, write: none},
  group: Id(Group) {read: public, write: none}";

/// What stands before the last filters of a policy.
const BEFORE_FILTERS: &[u8] = b"n -> Membership::Find({group: n.group}).flat_map(m ->
  Membership::Find({user: m.user}).flat_map(k -> Membership::Find({";

/// What stands behind them.
const BEHIND_FILTERS: &[u8] = b"}).map(j -> j.user))) + [n.owner]";

fn put_number(alloc: Global, number: u32, text: &mut Vec<u8>) -> Result<(), Fail> {
    text.extend_from_slice(number.to_string(alloc)?.as_bytes())?;
    Ok(())
}

fn put_policy(filters: &[u8], text: &mut Vec<u8>) -> Result<(), Fail> {
    text.extend_from_slice(BEFORE_FILTERS)?;
    text.extend_from_slice(filters)?;
    text.extend_from_slice(BEHIND_FILTERS)?;
    Ok(())
}

/// A policy that asks for this level.
fn put_level(alloc: Global, level: u32, text: &mut Vec<u8>) -> Result<(), Fail> {
    let mut filters = Vec::from_slice(alloc, b"group: k.group, level >= ")?;
    put_number(alloc, level, &mut filters)?;
    put_policy(filters.as_slice(), text)
}

fn put_field(alloc: Global, number: u32, text: &mut Vec<u8>) -> Result<(), Fail> {
    text.extend_from_slice(b",\n  t")?;
    put_number(alloc, number, text)?;
    text.extend_from_slice(b": Text {read: ")?;
    put_policy(b"group: k.group", text)?;
    text.extend_from_slice(b", write: ")?;
    put_policy(b"group: k.group", text)?;
    text.extend_from_slice(b"}")?;
    Ok(())
}

/// The specification.
fn spec(alloc: Global) -> Result<Vec<u8>, Fail> {
    let mut text = Vec::from_slice(alloc, GROWN_HEAD)?;
    for place in 0..GROWN_COMMANDS {
        put_field(alloc, place + 1, &mut text)?;
    }
    text.extend_from_slice(b"\n}\n")?;
    Ok(text)
}

/// The command on a field; where it loosens, it leaves reading no last filter.
fn put_command(alloc: Global, number: u32, loosens: bool, text: &mut Vec<u8>) -> Result<(), Fail> {
    text.extend_from_slice(b"Note::UpdateFieldPolicy(t")?;
    put_number(alloc, number, text)?;
    text.extend_from_slice(b", {read: ")?;
    if loosens {
        put_policy(b"", text)?;
    } else {
        put_level(alloc, number, text)?;
    }
    text.extend_from_slice(b", write: ")?;
    put_level(alloc, number, text)?;
    text.extend_from_slice(b"})\n")?;
    Ok(())
}

/// The script, or the one whose last command loosens.
fn script(alloc: Global, loosens: bool) -> Result<Vec<u8>, Fail> {
    let mut text = Vec::new(alloc);
    for place in 0..GROWN_COMMANDS {
        let number = place + 1;
        put_command(
            alloc,
            number,
            loosens && number == GROWN_COMMANDS,
            &mut text,
        )?;
    }
    Ok(text)
}

#[test]
fn forty_commands_are_accepted(rt: HostRuntime) -> Result<(), Fail> {
    let script = script(rt.alloc(), false)?;
    let ended = check_texts(rt.alloc(), spec(rt.alloc())?.as_slice(), script.as_slice())?;
    assert_eq!(rt; ended.status, Status::Done);
    assert!(rt; ended.output.as_slice() == b"accepted obligations 240\n".as_slice());
    Ok(())
}

#[test]
fn the_last_of_forty_leaks(rt: HostRuntime) -> Result<(), Fail> {
    let script = script(rt.alloc(), true)?;
    let ended = check_texts(rt.alloc(), spec(rt.alloc())?.as_slice(), script.as_slice())?;
    assert_eq!(rt; ended.status, Status::Leak);
    let front = b"leak command 40 field Note.t40 right read\n";
    assert!(rt; ended.output.as_slice().starts_with(front));
    Ok(())
}

#[test]
fn scripts_are_made_and_checked(rt: HostRuntime) -> Result<(), Fail> {
    let rows = [
        (
            "1",
            b"gen 1 commands 1 obligations 6 accepted
loosened leak command 1 field Note.t1 right read\n"
                .as_slice(),
        ),
        (
            "40",
            b"gen 40 commands 40 obligations 240 accepted
loosened leak command 40 field Note.t40 right read\n",
        ),
        (
            "60",
            b"gen 60 commands 60 obligations 360 accepted
loosened leak command 60 field Note.t60 right read\n",
        ),
    ];
    for (count, report) in rows {
        let ended = run_over(rt.alloc(), &["gen", count], &[])?;
        assert_eq!(rt; ended.status, Status::Done);
        assert!(rt; ended.output.as_slice() == report);
        assert_eq!(rt; ended.fetches, 0);
    }
    Ok(())
}
