//! The first part in reading order that breaks a rule.

ghost use Rattle.std.specs.Prelude.{◌≡◌, [], IfOk, OnOk, map};
ghost use Rattle.data_judge.specs.Faults as spec;
ghost use Rattle.data_judge.specs.First.{first_behind, pushed};
ghost use Rattle.data_judge.specs.InOrder.{AreApart, AreApartEach, first_paired};
ghost use Rattle.data_judge.specs.Meaning.{with_item};
ghost use Rattle.type_schema.specs.SchemaViews.{field_info_of, model_info_of};

use crate::fault::Fault;
use crate::ids::{distinct_ids, ids_rise};
use crate::literals::{id_in, is_base, lit_at};
use crate::names::{are_in_order, field_named, has_field, has_table, model_named};
use crate::numbers::Numbers;
use data_meaning::limits::LAST_ID;
use data_tree::{FieldLit, Lit, RecordLit, TableLit};
use std::alloc::{AllocError, Global};
use type_schema::{FieldInfo, ModelInfo, TBase, TTy};

/// The last id of a record, and one more.
const LAST_NEXT: u64 = LAST_ID + 1;

/// That what is written is not of the base type.
fn base_fault(l: &Lit, b: TBase) -> Option<Fault>
    ensures { result ≡ spec.base_fault b l.now }
{
    if is_base(l, b) {
        None
    } else {
        Some(Fault::WrongShape { at: lit_at(l) })
    }
}

/// What is wrong with an item of a set, behind items with these ids. Its own is put to them.
fn item_fault(seen: &mut Numbers, l: &Lit) -> Result<Option<Fault>, AllocError>
    ensures fault { IfOk result (λ fault. fault ≡ spec.item_fault seen.old l.now) }
    ensures seen { OnOk result (seen.new ≡ with_item seen.old l.now) }
{
    let Some(id) = id_in(l) else {
        return Ok(Some(Fault::WrongShape { at: lit_at(l) }));
    };
    if seen.add(id.number)? {
        Ok(None)
    } else {
        Ok(Some(Fault::Twice { at: id.at }))
    }
}

/// The first fault of the items of a set.
fn items_fault(alloc: Global, items: &[Lit]) -> Result<Option<Fault>, AllocError>
    ensures { IfOk result (λ fault. fault ≡ spec.items_fault items.now) }
{
    if ids_rise(items) {
        return Ok(None);
    }
    if distinct_ids(alloc, items)?.is_some() {
        return Ok(None);
    }
    let mut seen = Numbers::new(alloc);
    for l in items {
        let fault = item_fault(&mut seen, l)?;
        if fault.is_some() {
            return Ok(fault);
        }
    }
    Ok(None)
}

/// The first fault of what is written for a field of the type.
fn value_fault(alloc: Global, ty: TTy, l: &Lit) -> Result<Option<Fault>, AllocError>
    ensures { IfOk result (λ fault. fault ≡ spec.value_fault ty l.now) }
{
    match ty {
        TTy::Plain(b) => Ok(base_fault(l, b)),
        TTy::Set(_) => match l {
            Lit::List(items, _) => items_fault(alloc, items.as_slice()),
            Lit::Flag(_, _)
            | Lit::Num(_, _)
            | Lit::Str(_, _)
            | Lit::Id(_, _)
            | Lit::SelfId(_)
            | Lit::NoneLit(_)
            | Lit::SomeLit(_, _) => Ok(Some(Fault::WrongShape { at: lit_at(l) })),
        },
        TTy::Opt(b) => match l {
            Lit::NoneLit(_) => Ok(None),
            Lit::SomeLit(inner, _) => Ok(base_fault(inner.get(), b)),
            Lit::Flag(_, _)
            | Lit::Num(_, _)
            | Lit::Str(_, _)
            | Lit::Id(_, _)
            | Lit::SelfId(_)
            | Lit::List(_, _) => Ok(Some(Fault::WrongShape { at: lit_at(l) })),
        },
    }
}

/// What is wrong with a field behind others of its record: first its name, then its value.
fn field_fault(
    alloc: Global,
    fields: &[FieldInfo],
    before: &[FieldLit],
    w: &FieldLit,
) -> Result<Option<Fault>, AllocError>
    ensures { IfOk result (λ fault. fault
        ≡ spec.field_fault (map field_info_of fields.now) before.now w.now) }
{
    let name = w.name.name.bytes();
    match field_named(fields, name) {
        Some(info) => {
            if has_field(before, name) {
                return Ok(Some(Fault::Twice { at: w.name.at }));
            }
            value_fault(alloc, info.ty, &w.value)
        }
        None => Ok(Some(Fault::Unknown { at: w.name.at })),
    }
}

/// The first fault of the fields of a record.
fn fields_fault(
    alloc: Global,
    fields: &[FieldInfo],
    ws: &[FieldLit],
) -> Result<Option<Fault>, AllocError>
    ensures { IfOk result (λ fault. fault
        ≡ first_behind (spec.field_fault (map field_info_of fields.now)) pushed [] ws.now) }
{
    for place in 0..ws.len() {
        let (before, _) = ws.split_at(place);
        let fault = field_fault(alloc, fields, before, &ws[place])?;
        if fault.is_some() {
            return Ok(fault);
        }
    }
    Ok(None)
}

/// Whether each field of the model is given.
fn are_given(fields: &[FieldInfo], ws: &[FieldLit]) -> bool
    ensures { result ≡ spec.are_given (map field_info_of fields.now) ws.now }
{
    match fields {
        [] => true,
        [info, fields @ ..] => has_field(ws, info.name.bytes()) && are_given(fields, ws),
    }
}

/// The first fault of what is written for the fields in their order.
fn values_fault(
    alloc: Global,
    fields: &[FieldInfo],
    ws: &[FieldLit],
) -> Result<Option<Fault>, AllocError>
    ensures { IfOk result (λ fault. fault
        ≡ first_paired (λ f w. spec.value_fault f.ty w.value)
        (map field_info_of fields.now) ws.now) }
{
    match fields {
        [] => Ok(None),
        [info, fields @ ..] => match ws {
            [] => Ok(None),
            [w, ws @ ..] => {
                let fault = value_fault(alloc, info.ty, &w.value)?;
                if fault.is_some() {
                    return Ok(fault);
                }
                values_fault(alloc, fields, ws)
            }
        },
    }
}

/// The first fault of the fields of a record in any order, and the brace that ends it.
fn sought_fault(
    alloc: Global,
    fields: &[FieldInfo],
    row: &RecordLit,
) -> Result<Option<Fault>, AllocError>
    ensures { IfOk result (λ fault. fault
        ≡ spec.row_fault (map field_info_of fields.now) row.now.fields row.now.«end») }
{
    let fault = fields_fault(alloc, fields, row.fields.as_slice())?;
    if fault.is_some() {
        return Ok(fault);
    }
    if are_given(fields, row.fields.as_slice()) {
        Ok(None)
    } else {
        Ok(Some(Fault::Absent { at: row.end }))
    }
}

/// The first fault of the fields of a record, and the brace that ends it.
fn row_fault(
    alloc: Global,
    fields: &[FieldInfo],
    row: &RecordLit,
) -> Result<Option<Fault>, AllocError>
    requires { AreApart (map field_info_of fields.now) }
    ensures { IfOk result (λ fault. fault
        ≡ spec.row_fault (map field_info_of fields.now) row.now.fields row.now.«end») }
{
    let ws = row.fields.as_slice();
    if are_in_order(fields, ws) {
        values_fault(alloc, fields, ws)
    } else {
        sought_fault(alloc, fields, row)
    }
}

/// What is wrong with a record of a table with this next id, behind records with these ids. Its
/// own is put to them.
fn record_fault(
    alloc: Global,
    fields: &[FieldInfo],
    next: u64,
    seen: &mut Numbers,
    row: &RecordLit,
) -> Result<Option<Fault>, AllocError>
    requires { AreApart (map field_info_of fields.now) }
    ensures fault { IfOk result (λ fault. fault
        ≡ spec.record_fault (map field_info_of fields.now) next seen.old row.now) }
    ensures seen { OnOk result (seen.new ≡ spec.with_record seen.old row.now) }
{
    let id = row.id;
    if !seen.add(id.number)? {
        return Ok(Some(Fault::Twice { at: id.at }));
    }
    if 1 <= id.number && id.number < next {
        row_fault(alloc, fields, row)
    } else {
        Ok(Some(Fault::BadId { at: id.at }))
    }
}

/// The first fault of the records of a table with this next id.
fn records_fault(
    alloc: Global,
    fields: &[FieldInfo],
    next: u64,
    rows: &[RecordLit],
) -> Result<Option<Fault>, AllocError>
    requires { AreApart (map field_info_of fields.now) }
    ensures { IfOk result (λ fault. fault
        ≡ spec.records_fault (map field_info_of fields.now) next rows.now) }
{
    let mut seen = Numbers::new(alloc);
    for row in rows {
        let fault = record_fault(alloc, fields, next, &mut seen, row)?;
        if fault.is_some() {
            return Ok(fault);
        }
    }
    Ok(None)
}

/// The first fault of a table of a model, behind its name.
fn body_fault(
    alloc: Global,
    fields: &[FieldInfo],
    table: &TableLit,
) -> Result<Option<Fault>, AllocError>
    requires { AreApart (map field_info_of fields.now) }
    ensures { IfOk result (λ fault. fault
        ≡ spec.body_fault (map field_info_of fields.now) table.now) }
{
    let next = table.next;
    if 1 <= next.number && next.number <= LAST_NEXT {
        records_fault(alloc, fields, next.number, table.records.as_slice())
    } else {
        Ok(Some(Fault::BadId { at: next.at }))
    }
}

/// The first fault of a table behind others.
fn table_fault(
    alloc: Global,
    models: &[ModelInfo],
    before: &[TableLit],
    table: &TableLit,
) -> Result<Option<Fault>, AllocError>
    requires { AreApartEach (map model_info_of models.now) }
    ensures { IfOk result (λ fault. fault
        ≡ spec.table_fault (map model_info_of models.now) before.now table.now) }
{
    let name = table.name.name.bytes();
    match model_named(models, name) {
        Some(info) => {
            if has_table(before, name) {
                return Ok(Some(Fault::Twice { at: table.name.at }));
            }
            body_fault(alloc, info.fields.as_slice(), table)
        }
        None => Ok(Some(Fault::Unknown { at: table.name.at })),
    }
}

/// The first fault of tables.
pub(crate) fn rule_fault(
    alloc: Global,
    models: &[ModelInfo],
    ts: &[TableLit],
) -> Result<Option<Fault>, AllocError>
    requires { AreApartEach (map model_info_of models.now) }
    ensures { IfOk result (λ fault. fault
        ≡ first_behind (spec.table_fault (map model_info_of models.now)) pushed [] ts.now) }
{
    for place in 0..ts.len() {
        let (before, _) = ts.split_at(place);
        let fault = table_fault(alloc, models, before, &ts[place])?;
        if fault.is_some() {
            return Ok(fault);
        }
    }
    Ok(None)
}
