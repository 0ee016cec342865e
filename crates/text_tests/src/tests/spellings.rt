//! Texts and the trees that they spell, as canonical texts.

use crate::tests::{printed_script, printed_spec, repeated, script_of};
use std::test::Fail;
use text_print::print_policy;
use text_tree::{Command, Policy};

#[test]
fn each_command_is_read(rt: HostRuntime) -> Result<(), Fail> {
    let table = [
        (
            "CreateModel(principal model User{create:none,delete:public,name:Text{read:public,write:none},})",
            "CreateModel(principal model User {create: none, delete: public, name: Text {read: public, write: none}})\n",
        ),
        ("DeleteModel ( User )", "DeleteModel(User)\n"),
        ("AddStatic(Visitor)# a comment", "AddStatic(Visitor)\n"),
        ("RemoveStatic(\nVisitor)", "RemoveStatic(Visitor)\n"),
        ("AddPrincipal(User)", "AddPrincipal(User)\n"),
        (
            "User::AddField(age:Option(Int){read:public,write:u->[u]},u->some(1))",
            "User::AddField(age: Option(Int) {read: public, write: u -> [u]}, u -> some(1))\n",
        ),
        (
            "User::AddField(friends:Set(Id(User)){read:none,write:public},u->([u]+u.known))",
            "User::AddField(friends: Set(Id(User)) {read: none, write: public}, u -> [u] + u.known)\n",
        ),
        ("User :: RemoveField ( age )", "User::RemoveField(age)\n"),
        (
            "User::UpdateFieldPolicy(age,{read:none})",
            "User::UpdateFieldPolicy(age, {read: none})\n",
        ),
        (
            "User::UpdateFieldPolicy(age,{write:none})",
            "User::UpdateFieldPolicy(age, {write: none})\n",
        ),
        (
            "User::UpdateFieldPolicy(age,{read:none,write:public})",
            "User::UpdateFieldPolicy(age, {read: none, write: public})\n",
        ),
        (
            "User::WeakenFieldPolicy(age,{write:public},\"why\")",
            "User::WeakenFieldPolicy(age, {write: public}, \"why\")\n",
        ),
        (
            "User::UpdatePolicy({create:none})",
            "User::UpdatePolicy({create: none})\n",
        ),
        (
            "User::UpdatePolicy({delete:none})",
            "User::UpdatePolicy({delete: none})\n",
        ),
        (
            "User::UpdatePolicy({create:none,delete:public})",
            "User::UpdatePolicy({create: none, delete: public})\n",
        ),
        (
            "User::WeakenPolicy({delete:none},\"\\x22\")",
            "User::WeakenPolicy({delete: none}, \"\\\"\")\n",
        ),
        (
            "AddStatic(A)DeleteModel(B)",
            "AddStatic(A)\nDeleteModel(B)\n",
        ),
        ("# nothing", ""),
    ];
    for (text, want) in table {
        let shown = printed_script(rt.alloc(), text.as_bytes())?;
        assert_eq!(rt; shown.as_slice(), want.as_bytes(), "in {text}");
    }
    Ok(())
}

#[test]
fn a_specification_is_read(rt: HostRuntime) -> Result<(), Fail> {
    let text =
        "static A static B model M{create:public,delete:m->M::Find({a:1}),a:Bool{read:none,write:none},b:Id(M){read:x->[A],write:public},}";
    let want =
        "static A\nstatic B\nmodel M {\n  create: public,\n  delete: m -> M::Find({a: 1}),\n  a: Bool {read: none, write: none},\n  b: Id(M) {read: x -> [A], write: public},\n}\n";
    let shown = printed_spec(rt.alloc(), text.as_bytes())?;
    assert_eq!(rt; shown.as_slice(), want.as_bytes());
    Ok(())
}

#[test]
fn a_tree_keeps_its_places(rt: HostRuntime) -> Result<(), Fail> {
    let text = b" AddStatic ( A )\nM::UpdatePolicy({create: none, delete: x -> [x]})";
    let script = script_of(rt.alloc(), text)?;
    let [
        Command::AddStatic(known, first),
        Command::UpdatePolicy(
            model,
            Some(Policy::Nobody(create)),
            Some(Policy::Fun(record, set)),
            second,
        ),
    ] = script.commands.as_slice()
    else {
        return Ok(assert!(rt; false, "two commands"));
    };
    let places = [
        *first,
        known.at,
        *second,
        model.at,
        *create,
        record.at,
        set.at(),
    ];
    assert_eq!(rt; places, [1, 13, 17, 17, 42, 56, 61]);
    Ok(())
}

#[test]
fn policies_are_printed_by_themselves(rt: HostRuntime) -> Result<(), Fail> {
    let table = [
        ("public", "public"),
        ("none", "none"),
        ("u->([u]+u.known)", "u -> [u] + u.known"),
        ("u->[A]-([B]-[C])", "u -> [A] - ([B] - [C])"),
    ];
    for (policy, want) in table {
        let policy = policy.as_bytes();
        let text = repeated(rt.alloc(), b"M::UpdatePolicy({create:", policy, 1, b"})")?;
        let script = script_of(rt.alloc(), text.as_slice())?;
        let [Command::UpdatePolicy(_, Some(create), None, _)] = script.commands.as_slice() else {
            return Ok(assert!(rt; false, "one command"));
        };
        let shown = print_policy(rt.alloc(), create)?;
        assert_eq!(rt; shown.as_slice(), want.as_bytes());
    }
    Ok(())
}
