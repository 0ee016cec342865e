//! Policies, types, fields and models.

ghost use Rattle.std.specs.Prelude.{◌≡◌, IfOk, map};
ghost use Rattle.type_schema.specs.SchemaViews.{field_info_of, model_info_of, schema_of};
ghost use Rattle.type_schema.specs.Views as view;
ghost use Rattle.type_anew.specs.Names.{names_in};
ghost use Rattle.type_anew.specs.Specs as spec;
ghost use Rattle.type_anew.specs.Trees as rule;

use crate::exprs::written_set;
use crate::names::{model_name, named};
use sqlite_items::Items;
use std::alloc::{AllocError, Global};
use text_tree::{Base, FieldDef, ModelDef, Policy, Ty};
use type_schema::{FieldInfo, ModelInfo, Schema, TBase, TPolicy, TTy};

/// A policy as a tree.
fn written_policy(alloc: Global, s: &Schema, policy: &TPolicy) -> Result<Policy, AllocError>
    ensures { IfOk result (λ x. x
        ≡ rule.written_policy (names_in (schema_of s.now)) (view.policy_of policy.now)) }
{
    match policy {
        TPolicy::Everyone => Ok(Policy::Everyone(0)),
        TPolicy::Nobody => Ok(Policy::Nobody(0)),
        TPolicy::Fun(name, set) => {
            let name = named(alloc, name)?;
            let set = written_set(alloc, s, set)?;
            Ok(Policy::Fun(name, set))
        }
    }
}

/// Two policies.
fn written_policies(
    alloc: Global,
    s: &Schema,
    one: &TPolicy,
    other: &TPolicy,
) -> Result<(Policy, Policy), AllocError>
    ensures one { IfOk result (λ both. both.0
        ≡ rule.written_policy (names_in (schema_of s.now)) (view.policy_of one.now)) }
    ensures other { IfOk result (λ both. both.1
        ≡ rule.written_policy (names_in (schema_of s.now)) (view.policy_of other.now)) }
{
    let one = written_policy(alloc, s, one)?;
    let other = written_policy(alloc, s, other)?;
    Ok((one, other))
}

/// A base type as a tree.
fn written_base(alloc: Global, s: &Schema, t: TBase) -> Result<Base, AllocError>
    ensures { IfOk result (λ x. x ≡ spec.written_base (names_in (schema_of s.now)) t) }
{
    match t {
        TBase::Bool => Ok(Base::Bool(0)),
        TBase::Int => Ok(Base::Int(0)),
        TBase::Text => Ok(Base::Text(0)),
        TBase::Id(m) => {
            let model = model_name(alloc, s, m)?;
            Ok(Base::Id(model, 0))
        }
    }
}

/// A type as a tree.
fn written_type(alloc: Global, s: &Schema, t: TTy) -> Result<Ty, AllocError>
    ensures { IfOk result (λ x. x ≡ spec.written_type (names_in (schema_of s.now)) t) }
{
    match t {
        TTy::Plain(t) => {
            let base = written_base(alloc, s, t)?;
            Ok(Ty::Plain(base))
        }
        TTy::Set(m) => {
            let model = model_name(alloc, s, m)?;
            Ok(Ty::Set(model, 0))
        }
        TTy::Opt(t) => {
            let base = written_base(alloc, s, t)?;
            Ok(Ty::Opt(base, 0))
        }
    }
}

/// A field as a tree.
fn written_field(alloc: Global, s: &Schema, info: &FieldInfo) -> Result<FieldDef, AllocError>
    ensures { IfOk result (λ x. x
        ≡ spec.written_field (names_in (schema_of s.now)) (field_info_of info.now)) }
{
    let name = named(alloc, &info.name)?;
    let ty = written_type(alloc, s, info.ty)?;
    let (read, write) = written_policies(alloc, s, &info.read, &info.write)?;
    Ok(FieldDef {
        name,
        ty,
        read,
        write,
    })
}

/// Fields as trees.
fn written_fields(
    alloc: Global,
    s: &Schema,
    fields: &[FieldInfo],
) -> Result<Items<FieldDef>, AllocError>
    ensures { IfOk result (λ xs. xs
        ≡ map (spec.written_field (names_in (schema_of s.now))) (map field_info_of fields.now)) }
{
    let mut all = Vec::new(alloc);
    for info in fields {
        let field = written_field(alloc, s, info)?;
        all.push(field)?;
    }
    Ok(Items::from_vec(all))
}

/// The model.
pub fn written_model(alloc: Global, s: &Schema, info: &ModelInfo) -> Result<ModelDef, AllocError>
    ensures { IfOk result (λ x. x
        ≡ spec.written_model (names_in (schema_of s.now)) (model_info_of info.now)) }
{
    let fields = written_fields(alloc, s, info.fields.as_slice())?;
    let name = named(alloc, &info.name)?;
    let (create, delete) = written_policies(alloc, s, &info.create, &info.delete)?;
    Ok(ModelDef {
        principal: info.principal,
        name,
        create,
        delete,
        fields,
        at: 0,
    })
}
