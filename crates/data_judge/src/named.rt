//! Values and rows that literals name.

ghost use Rattle.std.specs.Prelude.{◌≡◌, ℕ, List, [], IfOk, IfSome, OnOk, None, Some, false, is_none, map, not};
ghost use Rattle.std.specs.Prelude.{option_copied, position};
ghost use Rattle.std.specs.List.Sorted.{IsStrictlyIncreasing};
ghost use Rattle.std.specs.Prelude.{if◌then◌else◌};
ghost use Rattle.std.specs.Option.{option_map, option_map_or};
ghost use Rattle.data_judge.specs.Named as spec;
ghost use Rattle.data_judge.specs.Named.{Adds, GivesRow, GivesValue};
ghost use Rattle.data_judge.specs.Faults as faults;
ghost use Rattle.data_judge.specs.Faults.{has, is_flag, is_number, is_text};
ghost use Rattle.data_meaning.specs.Values as plain;
ghost use Rattle.data_records.specs.Rows.{AreShaped};
ghost use Rattle.data_records.specs.Shape.{IsBaseShape, IsShape};
ghost use Rattle.type_schema.specs.declared.types.TBase.TheVariants as base;
ghost use Rattle.type_schema.specs.declared.types.TTy.TheVariants.{Opt};
ghost use Rattle.data_judge.specs.Meaning.{plain_value, with_number};
ghost use Rattle.data_tree.specs.declared.literals.Lit.{out-Lit};
ghost use Rattle.data_records.specs.Views.{value_data};
ghost use Rattle.type_schema.specs.SchemaViews.{field_info_of, model_info_of};

use crate::lit_err::LitErr;
use crate::names::{field_named, has_field, same_name};
use crate::numbers::Numbers;
use crate::references::model_of;
use data_records::Value;
use data_tree::{FieldLit, Lit};
use sqlite_items::{Boxed, Items};
use std::alloc::{AllocError, Global};
use text_ast::Txt;
use type_schema::{FieldInfo, ModelInfo, ModelNo, TBase, TTy};

/// What `self` is in a field of the type, of a record of the model.
fn own_in(m: ModelNo, own: Option<u64>, t: TTy) -> Option<u64>
    ensures { result ≡ spec.own_in m own t }
{
    match model_of(t) {
        Some(n) => { if n == m { own } else { None } }
        None => None,
    }
}

/// The id that is named, if one is.
fn id_named(own: Option<u64>, l: &Lit) -> Option<u64>
    ensures { result ≡ spec.id_named own (out-Lit l.now) }
{
    match l {
        Lit::Id(id, _) => Some(id.number),
        Lit::SelfId(_) => own,
        Lit::Flag(_, _)
        | Lit::Num(_, _)
        | Lit::Str(_, _)
        | Lit::NoneLit(_)
        | Lit::SomeLit(_, _)
        | Lit::List(_, _) => None,
    }
}

/// The truth value that is named, if one is.
fn flag_named(l: &Lit) -> Option<Value>
    ensures named { option_map value_data result
        ≡ (if is_flag (out-Lit l.now) then Some (plain_value (out-Lit l.now)) else None) }
    ensures shaped { IfSome result (λ v. IsBaseShape base.Bool (value_data v)) }
{
    match l {
        Lit::Flag(flag, _) => Some(Value::Flag(*flag)),
        Lit::Num(_, _)
        | Lit::Str(_, _)
        | Lit::Id(_, _)
        | Lit::SelfId(_)
        | Lit::NoneLit(_)
        | Lit::SomeLit(_, _)
        | Lit::List(_, _) => None,
    }
}

/// Each number of 64 bits has the shape of a number.
fn number_of(n: i64) -> Value
    ensures is { value_data result ≡ plain.Num n }
    ensures shaped { IsBaseShape base.Int (value_data result) }
{
    Value::Num(n)
}

/// The number that is named, if one is.
fn number_named(l: &Lit) -> Option<Value>
    ensures named { option_map value_data result
        ≡ (if is_number (out-Lit l.now) then Some (plain_value (out-Lit l.now)) else None) }
    ensures shaped { IfSome result (λ v. IsBaseShape base.Int (value_data v)) }
{
    match l {
        Lit::Num(n, _) => Some(number_of(*n)),
        Lit::Flag(_, _)
        | Lit::Str(_, _)
        | Lit::Id(_, _)
        | Lit::SelfId(_)
        | Lit::NoneLit(_)
        | Lit::SomeLit(_, _)
        | Lit::List(_, _) => None,
    }
}

/// The text as a value, in memory of its own.
fn text_of(alloc: Global, text: &Txt) -> Result<Value, AllocError>
    ensures is { IfOk result (λ v. value_data v ≡ plain.Str text.now) }
    ensures shaped { IfOk result (λ v. IsBaseShape base.Text (value_data v)) }
{
    let _bytes = text.bytes();
    let copy = text.copy(alloc)?;
    Ok(Value::Str(copy))
}

/// The text that is named, if one is.
fn text_named(alloc: Global, l: &Lit) -> Result<Option<Value>, AllocError>
    ensures named { IfOk result (λ v. option_map value_data v
        ≡ (if is_text (out-Lit l.now) then Some (plain_value (out-Lit l.now)) else None)) }
    ensures shaped { IfOk result (λ v. IfSome v (λ v. IsBaseShape base.Text (value_data v))) }
{
    match l {
        Lit::Str(text, _) => Ok(Some(text_of(alloc, text)?)),
        Lit::Flag(_, _)
        | Lit::Num(_, _)
        | Lit::Id(_, _)
        | Lit::SelfId(_)
        | Lit::NoneLit(_)
        | Lit::SomeLit(_, _)
        | Lit::List(_, _) => Ok(None),
    }
}

/// The value of a base type that is named, if one is.
fn base_named(
    alloc: Global,
    own: Option<u64>,
    b: TBase,
    l: &Lit,
) -> Result<Option<Value>, AllocError>
    ensures named { IfOk result (λ v. option_map value_data v
        ≡ spec.base_named own b (out-Lit l.now)) }
    ensures shaped { IfOk result (λ v. IfSome v (λ v. IsBaseShape b (value_data v))) }
{
    match b {
        TBase::Bool => Ok(flag_named(l)),
        TBase::Int => Ok(number_named(l)),
        TBase::Text => text_named(alloc, l),
        TBase::Id(_) => match id_named(own, l) {
            Some(id) => Ok(Some(Value::Id(id))),
            None => Ok(None),
        },
    }
}

/// Puts the id of an item into a set, and says whether it names one that is new.
fn add_named(seen: &mut Numbers, own: Option<u64>, l: &Lit) -> Result<bool, AllocError>
    ensures new { IfOk result (λ new. new
        ≡ option_map_or (λ n. not (has seen.old n)) (spec.id_named own (out-Lit l.now)) false) }
    ensures seen { OnOk result (seen.new
        ≡ option_map_or (with_number seen.old) (spec.id_named own (out-Lit l.now)) seen.old) }
{
    match id_named(own, l) {
        Some(id) => seen.add(id),
        None => Ok(false),
    }
}

/// The set of ids that is named, if one is.
fn ids_named(
    alloc: Global,
    own: Option<u64>,
    items: &[Lit],
) -> Result<Option<Items<u64>>, AllocError>
    ensures named { IfOk result (λ ids. ids ≡ spec.ids_named own [] items.now) }
    ensures rising { IfOk result (λ ids. IfSome ids (λ ids. IsStrictlyIncreasing ids)) }
{
    let mut seen = Numbers::new(alloc);
    for l in items {
        if !add_named(&mut seen, own, l)? {
            return Ok(None);
        }
    }
    Ok(Some(seen.into_items(alloc)?))
}

/// The value of a type that is named, if one is.
fn typed_named(
    alloc: Global,
    own: Option<u64>,
    t: TTy,
    l: &Lit,
) -> Result<Option<Value>, AllocError>
    ensures named { IfOk result (λ v. option_map value_data v
        ≡ spec.typed_named own t (out-Lit l.now)) }
    ensures shaped { IfOk result (λ v. IfSome v (λ v. IsShape t (value_data v))) }
{
    match t {
        TTy::Plain(b) => base_named(alloc, own, b, l),
        TTy::Set(_) => set_named(alloc, own, l),
        TTy::Opt(b) => option_named(alloc, own, b, l),
    }
}

/// The set that is named, if one is.
fn set_named(alloc: Global, own: Option<u64>, l: &Lit) -> Result<Option<Value>, AllocError>
    ensures named { IfOk result (λ v. option_map value_data v
        ≡ spec.set_named own (out-Lit l.now)) }
    ensures shaped { IfOk result (λ v. IfSome v (λ v. (ids : List ℕ) ×
        (value_data v ≡ plain.Ids ids) × IsStrictlyIncreasing ids)) }
{
    match l {
        Lit::List(items, _) => match ids_named(alloc, own, items.as_slice())? {
            Some(ids) => Ok(Some(Value::Ids(ids))),
            None => Ok(None),
        },
        Lit::Flag(_, _)
        | Lit::Num(_, _)
        | Lit::Str(_, _)
        | Lit::Id(_, _)
        | Lit::SelfId(_)
        | Lit::NoneLit(_)
        | Lit::SomeLit(_, _) => Ok(None),
    }
}

/// The option that is named, if one is.
fn option_named(
    alloc: Global,
    own: Option<u64>,
    b: TBase,
    l: &Lit,
) -> Result<Option<Value>, AllocError>
    ensures named { IfOk result (λ v. option_map value_data v
        ≡ spec.option_named own b (out-Lit l.now)) }
    ensures shaped { IfOk result (λ v. IfSome v (λ v. IsShape (Opt b) (value_data v))) }
{
    match l {
        Lit::NoneLit(_) => Ok(Some(Value::Nothing)),
        Lit::SomeLit(inner, _) => match base_named(alloc, own, b, inner.get())? {
            Some(v) => Ok(Some(Value::Just(Boxed::new(alloc, v)?))),
            None => Ok(None),
        },
        Lit::Flag(_, _)
        | Lit::Num(_, _)
        | Lit::Str(_, _)
        | Lit::Id(_, _)
        | Lit::SelfId(_)
        | Lit::List(_, _) => Ok(None),
    }
}

/// The value that a literal names for a field of a record of the model, with `self` as `own`.
pub fn value_from(
    alloc: Global,
    info: &ModelInfo,
    field: &FieldInfo,
    l: &Lit,
    own: Option<u64>,
) -> Result<Value, LitErr>
    ensures given { GivesValue info.now.number own (field_info_of field.now) l.now result }
    ensures shaped { IfOk result (λ v. IsShape field.now.ty (value_data v)) }
{
    match typed_named(alloc, own_in(info.number, own, field.ty), field.ty, l)? {
        Some(v) => Ok(v),
        None => Err(LitErr::WrongShape {
            field: field.number,
        }),
    }
}

/// The one field of the name that is given.
fn one_given<'s>(ws: &'s [FieldLit], name: &[u8]) -> Option<&'s FieldLit>
    ensures { option_copied result ≡ spec.one_given name.now ws.now }
{
    match ws {
        [] => None,
        [w, ws @ ..] => {
            if !same_name(w.name.name.bytes(), name) {
                return one_given(ws, name);
            }
            if has_field(ws, name) { None } else { Some(w) }
        }
    }
}

/// The value that is given for a field of the record, if one is.
fn field_value(
    alloc: Global,
    m: ModelNo,
    own: u64,
    ws: &[FieldLit],
    info: &FieldInfo,
) -> Result<Option<Value>, AllocError>
    ensures named { IfOk result (λ v. option_map value_data v
        ≡ spec.field_value m own ws.now (field_info_of info.now)) }
    ensures shaped { IfOk result (λ v. IfSome v (λ v. IsShape info.now.ty (value_data v))) }
{
    match one_given(ws, info.name.bytes()) {
        Some(w) => typed_named(alloc, own_in(m, Some(own), info.ty), info.ty, &w.value),
        None => Ok(None),
    }
}

/// Adds the values of fields, or says which field has none.
fn push_values(
    alloc: Global,
    m: ModelNo,
    own: u64,
    ws: &[FieldLit],
    fields: &[FieldInfo],
    row: &mut Items<Value>,
) -> Result<(), LitErr>
    ensures adds { Adds (spec.row_named m own ws.now (map field_info_of fields.now))
        (map value_data row.old) result (map value_data row.new) }
    ensures shaped { OnOk result ((values : List plain.Value) →
        spec.row_named m own ws.now (map field_info_of fields.now) ≡ Ok values →
        AreShaped (map field_info_of fields.now) values) }
{
    match fields {
        [] => Ok(()),
        [info, fields @ ..] => match field_value(alloc, m, own, ws, info)? {
            Some(v) => {
                row.push(v)?;
                push_values(alloc, m, own, ws, fields, row)
            }
            None => Err(LitErr::WrongShape { field: info.number }),
        },
    }
}

/// Whether the name is of no field of the model.
fn is_unknown(fields: &[FieldInfo], w: &FieldLit) -> bool
    ensures { result
        ≡ is_none (faults.field_named (map field_info_of fields.now) w.now.name.name) }
{
    field_named(fields, w.name.name.bytes()).is_none()
}

/// The first name that is of no field of the model.
fn unknown_at(fields: &[FieldInfo], ws: &[FieldLit]) -> Option<usize>
    ensures { result ≡ spec.unknown_at (map field_info_of fields.now) ws.now }
{
    ws.iter().position(|w| is_unknown(fields, w))
}

/// The row of a model that literals name for a record with the id `own`: a value for each field.
///
/// Refused, in this order: a name of no field, a field that is not given once with a value of its
/// type.
pub fn row_from(
    alloc: Global,
    info: &ModelInfo,
    ws: &[FieldLit],
    own: u64,
) -> Result<Items<Value>, LitErr>
    ensures given { GivesRow (model_info_of info.now) own ws.now result }
    ensures shaped { IfOk result (λ row. AreShaped (map field_info_of info.now.fields)
        (map value_data row)) }
{
    let fields = info.fields.as_slice();
    if let Some(place) = unknown_at(fields, ws) {
        return Err(LitErr::Unknown { place });
    }
    let mut row = Items::new(alloc);
    push_values(alloc, info.number, own, ws, fields, &mut row)?;
    Ok(row)
}
