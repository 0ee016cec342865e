//! Schemas as texts again, and numbered anew.

use crate::tests::{schema_of_text, typed};
use std::alloc::Global;
use std::test::Fail;
use text_print::print_spec;
use type_anew::{renumber, spec_of};
use type_schema::{ModelInfo, Schema, TScript};

/// A specification in its canonical spelling.
const SIGNS: &[u8] = b"static Visitor
static Robot
model Note {
  create: public,
  delete: none,
  level: Int {read: n -> if n.level <= 2 && !(n.level >= 1) || n.level > 0 then [Visitor] else none, write: n -> if n.level < 3 && n.level != 4 then [Robot, n.owner] else public},
  owner: Id(User) {read: n -> if !(n.owner == n.owner) || n.owner != n.owner then n.readers - [n.owner] else n.readers + [], write: n -> [if n.done == (n.level > 1) then n.owner else n.owner.boss]},
  done: Bool {read: n -> if !n.done && n.owner in n.readers then none else [], write: none},
  readers: Set(Id(User)) {read: n -> Note::Find({level <= n.level, done: !n.done, readers has n.owner}).map(m -> m.owner), write: none},
}
principal model User {
  create: u -> [u],
  delete: u -> match u.nick with none -> none | some t -> if t == \"a\\n\" then [u.boss] else [],
  boss: Id(User) {read: u -> User::Find({boss != u}).flat_map(v -> [v, u] + Note::Find({}).map(n -> n.owner)), write: none},
  nick: Option(Text) {read: public, write: u -> if u in {User::Find({}) - [u.boss]} then public else none},
}
";

/// The canonical text of a schema.
fn text_of(alloc: Global, s: &Schema) -> Result<Vec<u8>, Fail> {
    let spec = spec_of(alloc, s)?;
    Ok(print_spec(alloc, &spec)?)
}

#[test]
fn a_canonical_specification_comes_back(rt: HostRuntime) -> Result<(), Fail> {
    let schema = schema_of_text(rt.alloc(), SIGNS)?;
    let text = text_of(rt.alloc(), &schema)?;
    assert_eq!(rt; text.as_slice(), SIGNS);
    Ok(())
}

/// Commands that change each part of a specification.
pub const SCRIPT: &[u8] =
    b"User::AddField(level: Int {read: public, write: none}, u -> if u.isAdmin then 2 else 0)
    User::UpdateFieldPolicy(secret, {read: u -> User::Find({level >= 2})})
    User::RemoveField(isAdmin)
    AddStatic(Visitor)
    AddStatic(Robot)
    RemoveStatic(Visitor)
    CreateModel(model Draft {create: none, delete: none, title: Text {read: none, write: none}})
    DeleteModel(Draft)
    CreateModel(model Note {create: public, delete: n -> [n.owner], owner: Id(User) {read: public, write: none}})
    AddPrincipal(Note)
    User::UpdatePolicy({delete: u -> [Robot, u]})";

/// The users after these commands.
const CHANGED: &[u8] = b"static Robot
principal model User {
  create: public,
  delete: u -> [Robot, u],
  email: Text {read: public, write: u -> [u]},
  age: Int {read: none, write: none},
  secret: Text {read: u -> User::Find({level >= 2}), write: none},
  manager: Id(User) {read: u -> [u.manager], write: none},
  level: Int {read: public, write: none},
}
principal model Note {
  create: public,
  delete: n -> [n.owner],
  owner: Id(User) {read: public, write: none},
}
";

/// The schema after the last command.
pub fn last_schema(t: &TScript) -> &Schema {
    match t.schemas.as_slice().last() {
        Some(schema) => schema,
        None => &t.start,
    }
}

#[test]
fn a_changed_specification_is_written_with_its_changes(rt: HostRuntime) -> Result<(), Fail> {
    let t = typed(rt.alloc(), SCRIPT)?;
    let text = text_of(rt.alloc(), last_schema(&t))?;
    assert_eq!(rt; text.as_slice(), CHANGED);
    Ok(())
}

/// The numbers of the statics, models and fields of a schema, in its order.
fn numbers(alloc: Global, s: &Schema) -> Result<Vec<u32>, Fail> {
    let mut numbers = Vec::new(alloc);
    for known in s.statics.as_slice() {
        numbers.push(known.number)?;
    }
    for info in s.models.as_slice() {
        numbers.push(info.number)?;
        add_fields(info, &mut numbers)?;
    }
    Ok(numbers)
}

/// Puts the numbers of the fields of the model last.
fn add_fields(info: &ModelInfo, numbers: &mut Vec<u32>) -> Result<(), Fail> {
    for field in info.fields.as_slice() {
        numbers.push(field.number)?;
    }
    Ok(())
}

#[test]
fn a_schema_is_numbered_anew(rt: HostRuntime) -> Result<(), Fail> {
    let alloc = rt.alloc();
    let t = typed(alloc, SCRIPT)?;
    let before = numbers(alloc, last_schema(&t))?;
    let gaps: &[u32] = &[1, 0, 0, 1, 3, 4, 5, 2, 7];
    assert_eq!(rt; before.as_slice(), gaps);
    let anew = renumber(alloc, last_schema(&t))?;
    let after = numbers(alloc, &anew)?;
    let wanted: &[u32] = &[0, 0, 0, 1, 2, 3, 4, 1, 5];
    assert_eq!(rt; after.as_slice(), wanted);
    assert_eq!(rt;
        (anew.next_static, anew.next_model, anew.next_field),
        (1, 2, 6)
    );
    assert!(rt; anew.added.as_slice().is_empty());
    let text = text_of(alloc, &anew)?;
    assert_eq!(rt; text.as_slice(), CHANGED);
    Ok(())
}
