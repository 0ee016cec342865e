//! Schemas of specifications.

ghost use Rattle.std.specs.Prelude.{◌<◌};

use crate::tests::named;
use crate::tests::texts::of_spec;
use sqlite_items::Items;
use std::alloc::Global;
use std::test::Fail;
use text_tree::{Base, FieldDef, ModelDef, Policy, Spec, Ty};
use type_specs::resolved_spec;
use type_typing::TypeErr;

/// Parts of specifications, by what refuses them.
const SPEC_PARTS: &[(&str, &str, &str)] = &[
    ("new_static", "twice", "static A static B static ^A"),
    (
        "new_model, the name of a static",
        "twice",
        "static A model B {create: x -> [y], delete: none} model ^A {create: none, delete: none}",
    ),
    (
        "new_model, the name of a model",
        "twice",
        "model B {create: none, delete: none, a: Id(C) {read: none, write: none}} model ^B {create: none, delete: none}",
    ),
    (
        "fields_differ",
        "twice",
        "model B {create: none, delete: none, a: Int {read: none, write: none}, b: Int {read: none, write: none}, ^a: Int {read: none, write: none}} model B {create: none, delete: none}",
    ),
    (
        "typed_model, the type of a field",
        "unknown",
        "model A {create: x -> [y], delete: none} model B {create: none, delete: none, a: Id(^C) {read: none, write: none}}",
    ),
    (
        "typed_model, the type of a set",
        "unknown",
        "static C model B {create: none, delete: none, a: Set(Id(^C)) {read: none, write: none}}",
    ),
    (
        "typed_model, the type in an option",
        "unknown",
        "model B {create: none, delete: none, a: Option(Id(^C)) {read: none, write: none}}",
    ),
    (
        "policy_at, create",
        "unknown",
        "model B {create: x -> [^y], delete: x -> [z], a: Int {read: x -> [y], write: none}}",
    ),
    (
        "policy_at, delete",
        "unknown",
        "model B {create: none, delete: x -> [^y], a: Int {read: x -> [z], write: none}}",
    ),
    (
        "policy_at, read",
        "unknown",
        "model B {create: none, delete: none, a: Int {read: x -> [^y], write: x -> [z]}}",
    ),
    (
        "policy_at, write",
        "unknown",
        "model B {create: none, delete: none, a: Int {read: none, write: x -> [^y]}}",
    ),
    (
        "policies before sizes",
        "unknown",
        "model A {create: x -> ~, delete: none} model B {create: x -> [^y], delete: none}",
    ),
    (
        "is_small, create",
        "expanded 24571",
        "model B {create: x -> ^~, delete: none}",
    ),
    (
        "is_small, delete",
        "expanded 24571",
        "model B {create: none, delete: x -> ^~}",
    ),
    (
        "is_small, read",
        "expanded 24571",
        "model B {create: none, delete: none, a: Int {read: x -> ^~, write: none}}",
    ),
    (
        "is_small, write",
        "expanded 24571",
        "model A {create: none, delete: none} model B {create: none, delete: none, a: Int {read: none, write: x -> ^~}}",
    ),
    (
        "typed, what stands further down",
        "",
        "model A {create: x -> B::Find({}) + [x.a], delete: none, a: Id(B) {read: none, write: none}} principal model B {create: none, delete: none}",
    ),
];

#[test]
fn each_place_of_specifications_refuses(rt: HostRuntime) -> Result<(), Fail> {
    for (place, cause, text) in SPEC_PARTS {
        let (told, wanted) = of_spec(rt.alloc(), cause, text)?;
        assert_eq!(rt; told.as_str(), wanted.as_str(), "of {place}");
    }
    Ok(())
}

/// A model with so many fields, which no text spells where they are more than 64.
fn model(alloc: Global, count: u32) -> Result<ModelDef, Fail>
    requires { count < 1000 }
{
    let mut fields = Items::new(alloc);
    for number in 0..count {
        let name = format!(in alloc; "f{number}")?;
        fields.push(FieldDef {
            name: named(alloc, name.as_bytes(), 100 + number)?,
            ty: Ty::Plain(Base::Int(0)),
            read: Policy::Everyone(0),
            write: Policy::Nobody(0),
        })?;
    }
    Ok(ModelDef {
        principal: true,
        name: named(alloc, b"Note", 20)?,
        create: Policy::Everyone(22),
        delete: Policy::Nobody(25),
        fields,
        at: 0,
    })
}

/// The schema of a static and a model of so many fields: the next numbers of statics, models and
/// fields.
fn numbers(alloc: Global, count: u32) -> Result<Result<(u32, u32, u32), TypeErr>, Fail>
    requires { count < 1000 }
{
    let mut statics = Items::new(alloc);
    statics.push(named(alloc, b"Robot", 7)?)?;
    let mut models = Items::new(alloc);
    models.push(model(alloc, count)?)?;
    match resolved_spec(alloc, &Spec { statics, models }) {
        Ok(schema) => Ok(Ok((schema.next_static, schema.next_model, schema.next_field))),
        Err(fault) => Ok(Err(fault)),
    }
}

#[test]
fn a_specification_is_numbered(rt: HostRuntime) -> Result<(), Fail> {
    assert_eq!(rt; numbers(rt.alloc(), 64)?, Ok((1, 1, 64)));
    let crowded = TypeErr::Crowded { at: 164 };
    assert_eq!(rt; numbers(rt.alloc(), 65)?, Err(crowded));
    Ok(())
}
