//! Rows: a value for each field of a model.

ghost use Rattle.std.specs.Prelude.{◌≡◌, ◌++◌, length, map, OnOk, IfSome, IfNone};
ghost use Rattle.type_schema.specs.SchemaViews.{field_info_of};
ghost use Rattle.data_records.specs.Inserted.{is_there_or};
ghost use Rattle.data_records.specs.Rows.{AreAllThere, AreShaped, IsFirstDangling, IsFirstWrong};
ghost use Rattle.data_records.specs.Rows.{slots_from};
ghost use Rattle.data_records.specs.Views.{slot_data, value_data};

use crate::database::Database;
use crate::record::Slot;
use crate::shape::{Coming, dangling_in, has_shape};
use crate::value::Value;
use std::alloc::{AllocError, Global};
use type_schema::{FieldInfo, FieldNo};

/// The first field whose value has not the shape of its type.
pub(crate) fn first_wrong(fields: &[FieldInfo], row: &[Value]) -> Option<FieldNo>
    requires { length fields.now ≡ length row.now }
    ensures wrong { IfSome result
        (IsFirstWrong (map field_info_of fields.now) (map value_data row.now)) }
    ensures none { IfNone result
        (AreShaped (map field_info_of fields.now) (map value_data row.now)) }
{
    let (Some((field, fields)), Some((value, row))) = (fields.split_first(), row.split_first())
    else {
        return None;
    };
    if !has_shape(value, field.ty) {
        return Some(field.number);
    }
    first_wrong(fields, row)
}

/// The first field that holds an id that names no record, and the first such id in it.
pub(crate) fn first_dangling(
    database: &Database,
    coming: Coming,
    fields: &[FieldInfo],
    row: &[Value],
) -> Option<(FieldNo, u64)>
    requires { length fields.now ≡ length row.now }
    ensures dangling { IfSome result
        (λ place. IsFirstDangling (is_there_or database.now coming.model coming.id)
        (map field_info_of fields.now) (map value_data row.now) place.0 place.1) }
    ensures none { IfNone result
        (AreAllThere (is_there_or database.now coming.model coming.id)
        (map field_info_of fields.now) (map value_data row.now)) }
{
    let (Some((field, fields)), Some((value, row))) = (fields.split_first(), row.split_first())
    else {
        return None;
    };
    if let Some(id) = dangling_in(database, coming, field.ty, value) {
        return Some((field.number, id));
    }
    first_dangling(database, coming, fields, row)
}

/// Adds each value with the number of its field.
pub(crate) fn push_slots(
    alloc: Global,
    slots: &mut Vec<Slot>,
    fields: &[FieldInfo],
    row: &[Value],
) -> Result<(), AllocError>
    requires { length fields.now ≡ length row.now }
    ensures { OnOk result (map slot_data slots.new.items
        ≡ map slot_data slots.old.items
        ++ slots_from (map field_info_of fields.now) (map value_data row.now)) }
{
    let (Some((field, fields)), Some((value, row))) = (fields.split_first(), row.split_first())
    else {
        return Ok(());
    };
    let value = value.copy(alloc)?;
    slots.push(Slot {
        field: field.number,
        value,
    })?;
    push_slots(alloc, slots, fields, row)
}
