//! The conditions of `find`, and the tests that they are.

ghost use Rattle.std.specs.Prelude.{◌≡◌, None, IfOk, map};
ghost use Rattle.std.specs.Option.{option_map};
ghost use Rattle.data_judge.specs.Named.{id_named, typed_named};
ghost use Rattle.data_records.specs.Views.{value_data};
ghost use Rattle.data_tree.specs.declared.literals.Lit.{out-Lit};
ghost use Rattle.door_meaning.specs.Conditions as spec;
ghost use Rattle.door_judge.specs.Coming.{Comes};
ghost use Rattle.door_judge.specs.Tests.{test_data, test_named};
ghost use Rattle.type_schema.specs.SchemaViews.{field_info_of, model_info_of};

use crate::cell::field_of_name;
use crate::halt::Halt;
use data_judge::{LitErr, value_from};
use data_records::Value;
use data_tree::Lit;
use door_meaning::Reply;
use door_requests::Condition;
use std::alloc::{AllocError, Global};
use text_tree::{CmpOp, FilterOp};
use type_schema::{FieldInfo, ModelInfo, TBase, TTy};

/// What a record must hold in a field.
#[derive(Drop)]
pub(crate) struct Test<'s> {
    pub(crate) field: &'s FieldInfo,
    pub(crate) op: FilterOp,
    pub(crate) value: Value,
}

/// The fields of the model that the conditions name.
pub(crate) fn fields_named<'m>(
    alloc: Global,
    info: &'m ModelInfo,
    conditions: &[Condition],
) -> Result<Vec<&'m FieldInfo>, Halt>
    ensures { Comes (spec.fields_named (model_info_of info.now) conditions.now)
        (λ fields. map (λ f. field_info_of f.now) fields.items) result }
{
    let mut fields = Vec::new(alloc);
    for c in conditions {
        let field = field_of_name(info, &c.field)?;
        fields.push(field)?;
    }
    Ok(fields)
}

/// The value of the field's type that the literal names, if it names one.
fn value_named(
    alloc: Global,
    info: &ModelInfo,
    field: &FieldInfo,
    l: &Lit,
) -> Result<Option<Value>, AllocError>
    ensures { IfOk result (λ v. option_map value_data v
        ≡ typed_named None field.now.ty (out-Lit l.now)) }
{
    match value_from(alloc, info, field, l, None) {
        Ok(v) => Ok(Some(v)),
        Err(LitErr::OutOfMemory) => Err(AllocError),
        Err(LitErr::WrongShape { .. }) | Err(LitErr::Unknown { .. }) => Ok(None),
    }
}

/// The value that what the field holds may be compared with for equality.
fn equality_value(
    alloc: Global,
    info: &ModelInfo,
    field: &FieldInfo,
    l: &Lit,
) -> Result<Option<Value>, AllocError>
    ensures { IfOk result (λ v. option_map value_data v
        ≡ spec.equality_value field.now.ty l.now) }
{
    match field.ty {
        TTy::Plain(_) | TTy::Opt(_) => value_named(alloc, info, field, l),
        TTy::Set(_) => Ok(None),
    }
}

/// The value that what the field holds may be compared with by order.
fn order_value(
    alloc: Global,
    info: &ModelInfo,
    field: &FieldInfo,
    l: &Lit,
) -> Result<Option<Value>, AllocError>
    ensures { IfOk result (λ v. option_map value_data v ≡ spec.order_value field.now.ty l.now) }
{
    match field.ty {
        TTy::Plain(TBase::Int) => value_named(alloc, info, field, l),
        TTy::Plain(TBase::Bool | TBase::Text | TBase::Id(_)) | TTy::Set(_) | TTy::Opt(_) => {
            Ok(None)
        }
    }
}

/// The id that the literal names, if it names one without `self`.
fn id_named(l: &Lit) -> Option<u64>
    ensures { result ≡ id_named None (out-Lit l.now) }
{
    match l {
        Lit::Id(id, _) => Some(id.number),
        Lit::Flag(_, _)
        | Lit::Num(_, _)
        | Lit::Str(_, _)
        | Lit::SelfId(_)
        | Lit::NoneLit(_)
        | Lit::SomeLit(_, _)
        | Lit::List(_, _) => None,
    }
}

/// The id that the set in the field may have.
fn item_value(field: &FieldInfo, l: &Lit) -> Option<Value>
    ensures { option_map value_data result ≡ spec.item_value field.now.ty l.now }
{
    match field.ty {
        TTy::Set(_) => match id_named(l) {
            Some(id) => Some(Value::Id(id)),
            None => None,
        },
        TTy::Plain(_) | TTy::Opt(_) => None,
    }
}

/// The value that the condition compares with, if it is one that the field may be compared with so.
fn tested_value(
    alloc: Global,
    info: &ModelInfo,
    field: &FieldInfo,
    c: &Condition,
) -> Result<Option<Value>, AllocError>
    ensures { IfOk result (λ v. option_map value_data v
        ≡ spec.tested_value c.now.op field.now.ty c.now.value) }
{
    match c.op {
        FilterOp::Cmp(CmpOp::Eq | CmpOp::Ne) => equality_value(alloc, info, field, &c.value),
        FilterOp::Cmp(CmpOp::Lt | CmpOp::Le | CmpOp::Gt | CmpOp::Ge) => {
            order_value(alloc, info, field, &c.value)
        }
        FilterOp::Has => Ok(item_value(field, &c.value)),
    }
}

/// The test that a condition on the field is.
fn test_of<'s>(
    alloc: Global,
    info: &ModelInfo,
    field: &'s FieldInfo,
    c: &Condition,
) -> Result<Test<'s>, Halt>
    ensures { Comes (test_named (field_info_of field.now) c.now) test_data result }
{
    match tested_value(alloc, info, field, c)? {
        Some(value) => Ok(Test {
            field,
            op: c.op,
            value,
        }),
        None => Err(Halt::Replied(Reply::WrongShape {
            field: field.name.copy(alloc)?,
        })),
    }
}

/// The tests that the conditions on the fields are.
pub(crate) fn tests_of<'s>(
    alloc: Global,
    info: &ModelInfo,
    fields: &[&'s FieldInfo],
    conditions: &[Condition],
) -> Result<Vec<Test<'s>>, Halt>
    ensures { Comes (spec.tests_of (map (λ f. field_info_of f.now) fields.now) conditions.now)
        (λ tests. map test_data tests.items) result }
{
    let mut tests = Vec::new(alloc);
    for (field, c) in fields.iter().zip(conditions) {
        let test = test_of(alloc, info, *field, c)?;
        tests.push(test)?;
    }
    Ok(tests)
}
