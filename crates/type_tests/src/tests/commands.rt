//! Each place of commands that refuses, by a script that it refuses there.

use crate::tests::APP;
use crate::tests::texts::of_script;
use std::alloc::Global;
use std::test::Fail;

/// Names and parts of commands, by what refuses them.
const COMMAND_PARTS: &[(&str, &str, &str)] = &[
    (
        "known_model, DeleteModel",
        "unknown",
        "DeleteModel(^Nothing)",
    ),
    (
        "known_model, DeleteModel of a static",
        "unknown",
        "DeleteModel(^Visitor)",
    ),
    (
        "known_static, RemoveStatic",
        "unknown",
        "RemoveStatic(^Nobody)",
    ),
    (
        "known_static, RemoveStatic of a model",
        "unknown",
        "RemoveStatic(^User)",
    ),
    (
        "known_model, AddPrincipal",
        "unknown",
        "AddPrincipal(^Nothing)",
    ),
    ("new_principal", "twice", "AddPrincipal(^User)"),
    (
        "new_principal, once and again",
        "twice",
        "AddPrincipal(Note) AddPrincipal(^Note)",
    ),
    (
        "known_model, AddField",
        "unknown",
        "^Nothing::AddField(f: Int {read: none, write: none}, x -> 1)",
    ),
    (
        "known_model, RemoveField",
        "unknown",
        "^Nothing::RemoveField(title)",
    ),
    (
        "known_field, RemoveField",
        "unknown",
        "User::RemoveField(^title)",
    ),
    (
        "known_field, a field that is removed",
        "unknown",
        "User::RemoveField(age) User::RemoveField(^age)",
    ),
    (
        "known_model, UpdateFieldPolicy",
        "unknown",
        "^Nothing::UpdateFieldPolicy(title, {read: x -> [y]})",
    ),
    (
        "known_field, UpdateFieldPolicy",
        "unknown",
        "User::UpdateFieldPolicy(^title, {read: x -> [y]})",
    ),
    (
        "known_model, WeakenFieldPolicy",
        "unknown",
        "^Nothing::WeakenFieldPolicy(title, {read: none}, \"\")",
    ),
    (
        "known_field, WeakenFieldPolicy",
        "unknown",
        "User::WeakenFieldPolicy(^title, {read: none}, \"\")",
    ),
    (
        "known_model, UpdatePolicy",
        "unknown",
        "^Nothing::UpdatePolicy({create: x -> [y]})",
    ),
    (
        "known_model, WeakenPolicy",
        "unknown",
        "^Nothing::WeakenPolicy({create: none}, \"\")",
    ),
    // Policies that are given.
    (
        "given, UpdateFieldPolicy, read",
        "unknown",
        "User::UpdateFieldPolicy(age, {read: x -> [^y], write: x -> [z]})",
    ),
    (
        "given, UpdateFieldPolicy, write",
        "unknown",
        "User::UpdateFieldPolicy(age, {read: none, write: x -> [^z]})",
    ),
    (
        "given, WeakenFieldPolicy, read",
        "unknown",
        "User::WeakenFieldPolicy(age, {read: x -> [^y], write: x -> [z]}, \"\")",
    ),
    (
        "given, WeakenFieldPolicy, write",
        "unknown",
        "User::WeakenFieldPolicy(age, {write: x -> [^z]}, \"\")",
    ),
    (
        "given, UpdatePolicy, create",
        "unknown",
        "User::UpdatePolicy({create: x -> [^y], delete: x -> [z]})",
    ),
    (
        "given, UpdatePolicy, delete",
        "unknown",
        "User::UpdatePolicy({create: none, delete: x -> [^z]})",
    ),
    (
        "given, WeakenPolicy, create",
        "unknown",
        "User::WeakenPolicy({create: x -> [^y], delete: x -> [z]}, \"\")",
    ),
    (
        "given, WeakenPolicy, delete",
        "unknown",
        "User::WeakenPolicy({delete: x -> [^z]}, \"\")",
    ),
    (
        "reason_given, WeakenFieldPolicy",
        "empty reason",
        "User::WeakenFieldPolicy(age, {read: none}, ^\"\")",
    ),
    (
        "reason_given, WeakenPolicy",
        "empty reason",
        "User::WeakenPolicy({delete: none}, ^\"\")",
    ),
    (
        "typed, a blank is a reason",
        "",
        "User::WeakenPolicy({delete: none}, \" \")",
    ),
    // New names.
    (
        "new_static, the name of a static",
        "twice",
        "AddStatic(^Visitor)",
    ),
    (
        "new_static, the name of a model",
        "twice",
        "AddStatic(^Note)",
    ),
    (
        "new_model, the name of a model",
        "twice",
        "CreateModel(model ^Note {create: none, delete: none})",
    ),
    (
        "new_model, the name of a static",
        "twice",
        "CreateModel(model ^Visitor {create: none, delete: none})",
    ),
    (
        "new_field_in",
        "twice",
        "User::AddField(^age: Id(Nothing) {read: none, write: none}, x -> 1)",
    ),
    (
        "fields_differ",
        "twice",
        "CreateModel(model M {create: x -> [y], delete: none, a: Id(Nothing) {read: none, write: none}, ^a: Int {read: none, write: none}})",
    ),
    (
        "typed, a name that was removed",
        "",
        "RemoveStatic(Visitor) AddStatic(Visitor) User::RemoveField(age) User::AddField(age: Text {read: none, write: none}, u -> \"\")",
    ),
    // Parts of a model: names, then types, then policies.
    (
        "typed_field, a type before policies",
        "unknown",
        "CreateModel(model M {create: x -> [y], delete: none, a: Int {read: x -> [y], write: none}, b: Set(Id(^Nothing)) {read: none, write: none}})",
    ),
    (
        "typed_model, create",
        "unknown",
        "CreateModel(model M {create: x -> [^y], delete: x -> [z], a: Int {read: x -> [y], write: none}})",
    ),
    (
        "typed_model, delete",
        "unknown",
        "CreateModel(model M {create: none, delete: x -> [^z], a: Int {read: x -> [y], write: none}})",
    ),
    (
        "typed_field, read",
        "unknown",
        "CreateModel(model M {create: none, delete: none, a: Int {read: x -> [^y], write: x -> [z]}})",
    ),
    (
        "typed_field, write",
        "unknown",
        "CreateModel(model M {create: none, delete: none, a: Int {read: none, write: x -> [^z]}})",
    ),
    (
        "typed, a model that sees itself",
        "",
        "CreateModel(principal model M {create: x -> [x] + M::Find({a: x}), delete: none, a: Id(M) {read: x -> [x.a], write: none}})",
    ),
    // Sizes come last.
    (
        "is_small, UpdateFieldPolicy, read",
        "expanded 24571",
        "User::UpdateFieldPolicy(age, {read: x -> ^~, write: none})",
    ),
    (
        "is_small, UpdateFieldPolicy, write",
        "expanded 24571",
        "User::UpdateFieldPolicy(age, {read: none, write: x -> ^~})",
    ),
    (
        "is_small, WeakenFieldPolicy, read",
        "expanded 24571",
        "User::WeakenFieldPolicy(age, {read: x -> ^~}, \"why\")",
    ),
    (
        "is_small, WeakenFieldPolicy, write",
        "expanded 24571",
        "User::WeakenFieldPolicy(age, {write: x -> ^~}, \"why\")",
    ),
    (
        "is_small, UpdatePolicy, create",
        "expanded 24571",
        "User::UpdatePolicy({create: x -> ^~, delete: none})",
    ),
    (
        "is_small, a size that stays at a million",
        "expanded 1000000",
        "User::UpdatePolicy({create: x -> ^$, delete: none})",
    ),
    (
        "is_small, behind an unknown name",
        "unknown",
        "User::UpdatePolicy({create: x -> ~, delete: x -> [^y]})",
    ),
    (
        "is_small, behind an empty reason",
        "empty reason",
        "User::WeakenPolicy({create: x -> ~}, ^\"\")",
    ),
    (
        "is_small, UpdatePolicy, delete",
        "expanded 24571",
        "User::UpdatePolicy({create: none, delete: x -> ^~})",
    ),
    (
        "is_small, WeakenPolicy, create",
        "expanded 24571",
        "User::WeakenPolicy({create: x -> ^~}, \"why\")",
    ),
    (
        "is_small, WeakenPolicy, delete",
        "expanded 24571",
        "User::WeakenPolicy({delete: x -> ^~}, \"why\")",
    ),
    (
        "is_small, CreateModel, create",
        "expanded 24571",
        "CreateModel(model M {create: x -> ^~, delete: none})",
    ),
    (
        "is_small, CreateModel, delete",
        "expanded 24571",
        "CreateModel(model M {create: none, delete: x -> ^~})",
    ),
    (
        "is_small, CreateModel, read",
        "expanded 24571",
        "CreateModel(model M {create: none, delete: none, a: Int {read: x -> ^~, write: none}})",
    ),
    (
        "is_small, CreateModel, write",
        "expanded 24571",
        "CreateModel(model M {create: none, delete: none, a: Int {read: none, write: x -> ^~}})",
    ),
    (
        "is_small, AddField, read",
        "expanded 24571",
        "User::AddField(f: Bool {read: x -> ^~, write: none}, x -> true)",
    ),
    (
        "is_small, AddField, write",
        "expanded 24571",
        "User::AddField(f: Bool {read: none, write: x -> ^~}, x -> true)",
    ),
    (
        "is_small, AddField, the initialiser",
        "expanded 24571",
        "User::AddField(f: Bool {read: none, write: none}, x -> ^%)",
    ),
    (
        "is_small, AddField, a set as the initialiser",
        "expanded 24571",
        "User::AddField(f: Set(Id(User)) {read: none, write: none}, x -> ^~)",
    ),
];

/// Removals, by the user that holds what they remove.
const HELD: &[(&str, &str, &str)] = &[
    (
        "user_in_rights, create",
        " by 1 create",
        "Note::WeakenPolicy({create: n -> [n.owner], delete: n -> [n.owner]}, \"why\") Note::RemoveField(^owner)",
    ),
    (
        "user_in_rights, delete",
        " by 1 delete",
        "Note::WeakenPolicy({delete: n -> [n.owner]}, \"why\") Note::RemoveField(^owner)",
    ),
    (
        "user_in_field, read",
        " by 1.9 read",
        "Note::WeakenFieldPolicy(level, {read: n -> [n.owner], write: n -> [n.owner]}, \"why\") Note::RemoveField(^owner)",
    ),
    (
        "user_in_field, write",
        " by 1.9 write",
        "Note::WeakenFieldPolicy(level, {write: n -> [n.owner]}, \"why\") Note::RemoveField(^owner)",
    ),
    (
        "user_in_field, of another model",
        " by 0.0 read",
        "User::WeakenFieldPolicy(age, {read: u -> Note::Find({level: 1}).map(n -> n.owner)}, \"why\") Note::RemoveField(^level)",
    ),
    (
        "user_in_field, the type of a set",
        " by 0.6 type",
        "DeleteModel(^Note)",
    ),
    (
        "user_in_field, the type of an id",
        " by 0.7 type",
        "User::RemoveField(notes) DeleteModel(^Note)",
    ),
    (
        "user_in_field, the type of an option",
        " by 0.10 type",
        "User::RemoveField(notes) User::RemoveField(note) User::AddField(last: Option(Id(Note)) {read: none, write: none}, u -> none) DeleteModel(^Note)",
    ),
    (
        "user_in_rights, of a model",
        " by 0 create",
        "User::RemoveField(notes) User::RemoveField(note) User::WeakenPolicy({create: u -> Note::Find({}).map(n -> n.owner)}, \"why\") DeleteModel(^Note)",
    ),
    (
        "user_in_field, of a model",
        " by 0.0 write",
        "User::RemoveField(notes) User::RemoveField(note) User::WeakenFieldPolicy(age, {write: u -> Note::Find({}).map(n -> n.owner)}, \"why\") DeleteModel(^Note)",
    ),
    (
        "user_in_rights, of a static",
        " by 0 delete",
        "User::WeakenPolicy({delete: u -> [Visitor]}, \"why\") RemoveStatic(^Visitor)",
    ),
    (
        "user_in_field, of a static",
        " by 1.8 read",
        "Note::WeakenFieldPolicy(owner, {read: n -> [Visitor]}, \"why\") RemoveStatic(^Visitor)",
    ),
];

/// Removals of what is used only by what goes with it, or not at all.
const FREE: &[(&str, &str)] = &[
    (
        "a field, by its own policies",
        "Note::WeakenFieldPolicy(owner, {read: n -> [n.owner], write: n -> [n.owner]}, \"why\") Note::RemoveField(owner)",
    ),
    (
        "a model, by its own fields and policies",
        "CreateModel(principal model M {create: x -> M::Find({}), delete: none, a: Id(M) {read: x -> [x.a], write: none}}) DeleteModel(M)",
    ),
    (
        "a field, by an initialiser",
        "User::AddField(f: Int {read: none, write: none}, u -> u.age) User::RemoveField(age)",
    ),
    ("a static", "RemoveStatic(Visitor)"),
];

#[test]
fn each_place_of_commands_refuses(rt: HostRuntime) -> Result<(), Fail> {
    for (place, cause, script) in COMMAND_PARTS {
        let (told, wanted) = of_script(rt.alloc(), APP, cause, "", script)?;
        assert_eq!(rt; told.as_str(), wanted.as_str(), "of {place}");
    }
    for (place, by, script) in HELD {
        let (told, wanted) = of_script(rt.alloc(), APP, "still used", by, script)?;
        assert_eq!(rt; told.as_str(), wanted.as_str(), "of {place}");
    }
    for (place, script) in FREE {
        let (told, wanted) = of_script(rt.alloc(), APP, "", "", script)?;
        assert_eq!(rt; told.as_str(), wanted.as_str(), "of {place}");
    }
    Ok(())
}

/// One part again and again, with a number in it.
fn numbered(
    alloc: Global,
    front: &str,
    (open, close): (&str, &str),
    times: u32,
    back: &str,
) -> Result<String, Fail> {
    let mut text = front.to_string(alloc)?;
    for number in 0..times {
        let part = format!(in alloc; "{open}{number}{close}")?;
        text.push_str(part.as_str())?;
    }
    text.push_str(back)?;
    Ok(text)
}

/// A model of many fields.
const MODEL: &str = "model M {create: none, delete: none";

/// What commands say over a schema that is full: a name that is taken is twice, and no room comes
/// after it.
#[test]
fn what_is_full_is_crowded(rt: HostRuntime) -> Result<(), Fail> {
    let alloc = rt.alloc();
    let statics = numbered(alloc, "", ("static S", " "), 64, "")?;
    let models = numbered(
        alloc,
        "",
        ("model M", " {create: none, delete: none}"),
        64,
        "",
    )?;
    let fields = numbered(
        alloc,
        MODEL,
        (", f", ": Int {read: none, write: none}"),
        64,
        "}",
    )?;
    for (place, spec, cause, script) in [
        ("new_static", &statics, "crowded", "AddStatic(^T)"),
        ("new_static", &statics, "twice", "AddStatic(^S63)"),
        ("new_static", &statics, "", "RemoveStatic(S5) AddStatic(T)"),
        (
            "new_model",
            &models,
            "crowded",
            "CreateModel(model ^M64 {create: x -> [y], delete: none})",
        ),
        (
            "new_model",
            &models,
            "twice",
            "CreateModel(model ^M0 {create: none, delete: none})",
        ),
        (
            "new_model",
            &models,
            "",
            "DeleteModel(M0) CreateModel(model M0 {create: none, delete: none})",
        ),
        (
            "new_field_in",
            &fields,
            "crowded",
            "M::AddField(^f64: Id(N) {read: none, write: none}, x -> 1)",
        ),
        (
            "new_field_in",
            &fields,
            "twice",
            "M::AddField(^f0: Id(N) {read: none, write: none}, x -> 1)",
        ),
        (
            "new_field_in",
            &fields,
            "",
            "M::RemoveField(f1) M::AddField(f1: Int {read: none, write: none}, x -> 1)",
        ),
    ] {
        let (told, wanted) = of_script(alloc, spec.as_str(), cause, "", script)?;
        assert_eq!(rt; told.as_str(), wanted.as_str(), "of {place}, {cause}");
    }
    Ok(())
}
