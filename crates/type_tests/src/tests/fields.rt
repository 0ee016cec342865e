//! Each place of typing that refuses the type, a policy or the initialiser of a new field.

use crate::tests::APP;
use crate::tests::texts::of_script;
use std::test::Fail;

/// Commands that add fields to users.
const FIELDS: &[(&str, &str, &str)] = &[
    (
        "typed_model, an id",
        "unknown",
        "f: Id(^Nothing) {read: none, write: none}, u -> u",
    ),
    (
        "typed_model, a set",
        "unknown",
        "f: Set(Id(^Nothing)) {read: none, write: none}, u -> none",
    ),
    (
        "typed_model, an option",
        "unknown",
        "f: Option(Id(^Visitor)) {read: none, write: none}, u -> none",
    ),
    (
        "typed_field, read",
        "unknown",
        "f: Int {read: u -> [^x], write: u -> [y]}, u -> z",
    ),
    (
        "typed_field, write",
        "unknown",
        "f: Int {read: none, write: u -> [^y]}, u -> z",
    ),
    (
        "plain_init, a base type",
        "wrong type",
        "f: Int {read: none, write: none}, u -> ^u.email",
    ),
    (
        "plain_init, a variable",
        "unknown",
        "f: Int {read: none, write: none}, u -> ^z",
    ),
    (
        "plain_init, a truth value",
        "wrong type",
        "f: Bool {read: none, write: none}, u -> ^1",
    ),
    (
        "plain_init, a text",
        "wrong type",
        "f: Text {read: none, write: none}, u -> ^1",
    ),
    (
        "plain_init, an id",
        "wrong type",
        "f: Id(Note) {read: none, write: none}, u -> ^u",
    ),
    (
        "plain_init, none",
        "wrong type",
        "f: Text {read: none, write: none}, u -> ^none",
    ),
    (
        "plain_init, an option",
        "wrong type",
        "f: Option(Int) {read: none, write: none}, u -> ^1",
    ),
    (
        "plain_init, what is in an option",
        "wrong type",
        "f: Option(Int) {read: none, write: none}, u -> some(^u.email)",
    ),
    (
        "plain_init, an option of another type",
        "wrong type",
        "f: Option(Int) {read: none, write: none}, u -> ^u.deputy",
    ),
    (
        "plain_init, does not see the field",
        "unknown",
        "f: Int {read: none, write: none}, u -> u.^f",
    ),
    (
        "set_init, public",
        "wrong type",
        "f: Set(Id(User)) {read: none, write: none}, u -> ^public",
    ),
    (
        "set_init, a static",
        "wrong type",
        "f: Set(Id(User)) {read: none, write: none}, u -> [^Visitor]",
    ),
    (
        "set_init, an item of another model",
        "wrong type",
        "f: Set(Id(User)) {read: none, write: none}, u -> [^u.note]",
    ),
    (
        "set_init, a path of another model",
        "wrong type",
        "f: Set(Id(User)) {read: none, write: none}, u -> ^u.notes",
    ),
    (
        "set_init, a Find of another model",
        "wrong type",
        "f: Set(Id(User)) {read: none, write: none}, u -> [u] + ^Note::Find({})",
    ),
    (
        "set_init, a map to another model",
        "wrong type",
        "f: Set(Id(User)) {read: none, write: none}, u -> ^u.friends.map(x -> x.note)",
    ),
    (
        "set_init, hides the record",
        "twice",
        "f: Set(Id(User)) {read: none, write: none}, u -> u.friends.map(^u -> u)",
    ),
    (
        "typed, policies see the field",
        "",
        "f: Id(User) {read: u -> [u.f], write: u -> [u.f.f]}, u -> u.boss",
    ),
    (
        "typed, a record that is no principal",
        "",
        "f: Set(Id(Note)) {read: none, write: none}, u -> u.notes + [u.note] + Note::Find({owner: u})",
    ),
    (
        "typed, none",
        "",
        "f: Option(Text) {read: none, write: none}, u -> none",
    ),
    (
        "typed, some",
        "",
        "f: Option(Id(User)) {read: none, write: none}, u -> if u.open then some(u.boss) else u.deputy",
    ),
    (
        "typed, nobody",
        "",
        "f: Set(Id(Note)) {read: none, write: none}, u -> if u.open then none else []",
    ),
];

#[test]
fn each_place_of_fields_refuses(rt: HostRuntime) -> Result<(), Fail> {
    for (place, cause, text) in FIELDS {
        let script = format!(in rt.alloc(); "User::AddField({text})")?;
        let (told, wanted) = of_script(rt.alloc(), APP, cause, "", script.as_str())?;
        assert_eq!(rt; told.as_str(), wanted.as_str(), "of {place}");
    }
    Ok(())
}
