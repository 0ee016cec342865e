//! Values and rows that requests give.

ghost use Rattle.std.specs.Prelude.{◌≡◌, ◌==◌, ◌<◌, IfOk, None, Some, length, map, option_copied, slice_get};
ghost use Rattle.std.specs.List.{find};
ghost use Rattle.std.specs.Option.{option_map};
ghost use Rattle.data_judge.specs.Named.{row_named, value_named};
ghost use Rattle.data_records.specs.Rows.{AreShaped};
ghost use Rattle.data_records.specs.Shape.{IsShape};
ghost use Rattle.data_records.specs.Views.{value_data};
ghost use Rattle.data_tree.specs.declared.tables.FieldLit.{FieldLit};
ghost use Rattle.door_meaning.specs.Orders.{finds, goes, stops};
ghost use Rattle.door_meaning.specs.Records.{first_unknown, row_reply};
ghost use Rattle.door_meaning.specs.Replies as plain;
ghost use Rattle.door_meaning.specs.Replies.{reply_data};
ghost use Rattle.door_judge.specs.Coming.{Comes};
ghost use Rattle.type_schema.specs.Schema.{field_in};
ghost use Rattle.type_schema.specs.SchemaViews.{field_info_of, model_info_of};

use crate::halt::Halt;
use data_judge::{LitErr, row_from, value_from};
use data_records::Value;
use data_tree::{FieldLit, Lit};
use door_meaning::Reply;
use sqlite_items::Items;
use std::alloc::{AllocError, Global};
use text_ast::Name;
use type_schema::{FieldInfo, FieldNo, ModelInfo};

/// What is given for the field is not of its type.
fn wrong_shape(alloc: Global, field: &Name) -> Result<Reply, AllocError>
    ensures { IfOk result (λ reply. reply_data reply ≡ plain.WrongShape field.now) }
{
    let field = field.copy(alloc)?;
    Ok(Reply::WrongShape { field })
}

/// The value that a literal names for the field of a record.
pub(crate) fn named_value(
    alloc: Global,
    info: &ModelInfo,
    field: &FieldInfo,
    l: &Lit,
) -> Result<Value, Halt>
    ensures named { Comes (finds (value_named info.now.number None field.now.ty l.now)
        (plain.WrongShape field.now.name)) value_data result }
    ensures shaped { IfOk result (λ v. IsShape field.now.ty (value_data v)) }
{
    match value_from(alloc, info, field, l, None) {
        Ok(v) => Ok(v),
        Err(LitErr::WrongShape { .. }) => Err(Halt::Replied(wrong_shape(alloc, &field.name)?)),
        Err(LitErr::Unknown { .. }) => unreachable!(),
        Err(LitErr::OutOfMemory) => Err(Halt::OutOfMemory),
    }
}

/// An id in the field names no record.
pub(crate) fn dangling(alloc: Global, field: &Name, id: u64) -> Result<Reply, AllocError>
    ensures { IfOk result (λ reply. reply_data reply ≡ plain.Dangling field.now id) }
{
    let field = field.copy(alloc)?;
    Ok(Reply::Dangling { field, id })
}

/// The first field of that number.
fn field_among(fields: &[FieldInfo], f: FieldNo) -> Option<&FieldInfo>
    ensures { option_copied result ≡ find (λ field. field.number == f) fields.now }
{
    fields.iter().find(|field| field.number == f)
}

/// The field of that number.
pub(crate) fn field_numbered(fields: &[FieldInfo], f: FieldNo) -> Option<&FieldInfo>
    ensures { option_map field_info_of (option_copied result)
        ≡ field_in (map field_info_of fields.now) f }
{
    field_among(fields, f)
}

/// The name at that place is of no field.
fn unknown_name(ws: &[FieldLit], place: usize) -> Reply
    requires { place < length ws.now }
    ensures { (w : FieldLit) → slice_get ws.now place ≡ Some w →
        reply_data result ≡ plain.Unknown w.name.at }
{
    Reply::Unknown {
        at: ws[place].name.at,
    }
}

/// The row that literals name for a record of the model with the id `own`.
pub(crate) fn named_row(
    alloc: Global,
    info: &ModelInfo,
    ws: &[FieldLit],
    own: u64,
) -> Result<Items<Value>, Halt>
    ensures named { Comes (goes (stops (first_unknown (map field_info_of info.now.fields) ws.now))
        (λ _. row_reply (model_info_of info.now)
        (row_named info.now.number own ws.now (map field_info_of info.now.fields))))
        (map value_data) result }
    ensures shaped { IfOk result (λ row. AreShaped (map field_info_of info.now.fields)
        (map value_data row)) }
{
    match row_from(alloc, info, ws, own) {
        Ok(row) => Ok(row),
        Err(LitErr::Unknown { place }) => Err(Halt::Replied(unknown_name(ws, place))),
        Err(LitErr::WrongShape { field }) => match field_numbered(info.fields.as_slice(), field) {
            Some(field) => Err(Halt::Replied(wrong_shape(alloc, &field.name)?)),
            None => unreachable!(),
        },
        Err(LitErr::OutOfMemory) => Err(Halt::OutOfMemory),
    }
}
