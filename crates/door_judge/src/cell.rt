//! Fields of records, as requests name them.

ghost use Rattle.std.specs.Prelude.{not};
ghost use Rattle.data_meaning.specs.Database.{has_record};
ghost use Rattle.door_judge.specs.Coming.{Comes};
ghost use Rattle.door_meaning.specs.Names.{field_in_at, model_at};
ghost use Rattle.door_meaning.specs.Orders.{unless};
ghost use Rattle.door_meaning.specs.Records.{named_field};
ghost use Rattle.door_meaning.specs.Replies as plain;
ghost use Rattle.type_schema.specs.SchemaViews.{field_info_of, model_info_of, schema_of};

use crate::halt::Halt;
use crate::names::{field_named, model_named};
use data_records::Database;
use data_tree::WrittenId;
use door_meaning::Reply;
use text_tree::Named;
use type_schema::{FieldInfo, ModelInfo, Schema};

/// A field of a record, as a request names it.
#[derive(Drop)]
pub struct Cell<'r> {
    pub model: &'r Named,
    pub id: WrittenId,
    pub field: &'r Named,
}

/// The model that a request names.
pub(crate) fn model_of_name<'s>(s: &'s Schema, model: &Named) -> Result<&'s ModelInfo, Halt>
    ensures { Comes (model_at (schema_of s.now) model.now) (λ info. model_info_of info.now) result }
{
    match model_named(s.models.as_slice(), model.name.bytes()) {
        Some(info) => Ok(info),
        None => Err(Halt::Replied(Reply::Unknown { at: model.at })),
    }
}

/// The field that a request names.
pub(crate) fn field_of_name<'m>(info: &'m ModelInfo, field: &Named) -> Result<&'m FieldInfo, Halt>
    ensures { Comes (field_in_at (model_info_of info.now) field.now) (λ f. field_info_of f.now) result }
{
    match field_named(info.fields.as_slice(), field.name.bytes()) {
        Some(f) => Ok(f),
        None => Err(Halt::Replied(Reply::Unknown { at: field.at })),
    }
}

/// The record is to be there.
pub(crate) fn is_there(d: &Database, info: &ModelInfo, id: u64) -> Result<(), Halt>
    ensures { Comes (unless (not (has_record d.now info.now.number id)) plain.NoRecord) (λ x. x) result }
{
    if d.has(info.number, id) {
        Ok(())
    } else {
        Err(Halt::Replied(Reply::NoRecord))
    }
}

/// The model and the field that a request names, and the record is there.
pub(crate) fn field_of_record<'s>(
    s: &'s Schema,
    d: &Database,
    cell: &Cell<'_>,
) -> Result<(&'s ModelInfo, &'s FieldInfo), Halt>
    ensures { Comes (named_field (schema_of s.now) d.now cell.now.model.now cell.now.id.number
        cell.now.field.now) (λ v. (model_info_of v.0.now, field_info_of v.1.now)) result }
{
    let info = model_of_name(s, cell.model)?;
    let field = field_of_name(info, cell.field)?;
    is_there(d, info, cell.id.number)?;
    Ok((info, field))
}
