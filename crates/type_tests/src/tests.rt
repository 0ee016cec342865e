//! Texts and trees whose types, or whose faults, are known.

use std::alloc::Global;
use std::test::Fail;
use text_ast::Name;
use text_tree::Named;

mod commands;
mod expressions;
mod fields;
mod schemas;
mod scripts;
mod sets;
mod specs;
mod texts;
mod trees;

/// A static; users, of whom each has a field of each type; and notes.
const APP: &str = "static Visitor
principal model User {
  create: public,
  delete: none,
  age: Int {read: public, write: none},
  email: Text {read: public, write: none},
  open: Bool {read: public, write: none},
  boss: Id(User) {read: public, write: none},
  deputy: Option(Id(User)) {read: public, write: none},
  friends: Set(Id(User)) {read: public, write: none},
  notes: Set(Id(Note)) {read: public, write: none},
  note: Id(Note) {read: public, write: none},
}
model Note {
  create: public,
  delete: none,
  owner: Id(User) {read: public, write: none},
  level: Int {read: public, write: none},
}";

fn name(alloc: Global, bytes: &[u8]) -> Result<Name, Fail> {
    Ok(Name::make(alloc, bytes)?.ok_or("no name")?)
}

fn named(alloc: Global, bytes: &[u8], at: u32) -> Result<Named, Fail> {
    let name = name(alloc, bytes)?;
    Ok(Named { name, at })
}
