//! Copies of trees, as canonical texts.

use crate::tests::{printed_script, printed_spec, script_of, spec_of};
use std::alloc::Global;
use std::test::Fail;
use text_print::{print_script, print_spec};
use text_tree::{Copied, Script, Spec};

/// The canonical text of a copy.
fn spec_copied(alloc: Global, spec: &Spec) -> Result<Vec<u8>, Fail> {
    let copy = spec.copy(alloc)?;
    Ok(print_spec(alloc, &copy)?)
}

/// The canonical text of a copy.
fn script_copied(alloc: Global, script: &Script) -> Result<Vec<u8>, Fail> {
    let copy = script.copy(alloc)?;
    Ok(print_script(alloc, &copy)?)
}

#[test]
fn a_specification_is_copied(rt: HostRuntime) -> Result<(), Fail> {
    let text = b"static A
        principal model M {
          create: public,
          delete: x -> M::Find({c < -1, b has x, a: !x.a || x in x.b}).map(y -> y.d) - [A, x],
          a: Bool {read: public, write: none},
          b: Set(Id(M)) {read: x -> x.b.flat_map(y -> [y.d]) + none, write: public},
          c: Int {read: x -> if x.d.a then x.b else public, write: none},
          d: Id(M) {read: x -> match x.e with none -> [] | some y -> [x], write: public},
          e: Option(Text) {read: x -> M::Find({e: some(\"s\"), e: none}), write: none},
        }";
    let spec = spec_of(rt.alloc(), text)?;
    let copied = spec_copied(rt.alloc(), &spec)?;
    let printed = printed_spec(rt.alloc(), text)?;
    assert_eq!(rt; copied.as_slice(), printed.as_slice());
    Ok(())
}

#[test]
fn a_script_is_copied(rt: HostRuntime) -> Result<(), Fail> {
    let text =
        b"CreateModel(model M {create: none, delete: none, a: Text {read: public, write: none}})
        DeleteModel(M) AddStatic(A) RemoveStatic(A) AddPrincipal(M)
        M::AddField(b: Set(Id(M)) {read: public, write: none}, x -> [x])
        M::AddField(c: Int {read: public, write: none}, x -> if true && 1 == 2 then 1 else 2)
        M::RemoveField(b)
        M::UpdateFieldPolicy(a, {read: none})
        M::WeakenFieldPolicy(a, {read: none, write: public}, \"why\")
        M::UpdatePolicy({create: none, delete: x -> [x]})
        M::WeakenPolicy({delete: public}, \"why\")";
    let script = script_of(rt.alloc(), text)?;
    let copied = script_copied(rt.alloc(), &script)?;
    let printed = printed_script(rt.alloc(), text)?;
    assert_eq!(rt; copied.as_slice(), printed.as_slice());
    Ok(())
}
