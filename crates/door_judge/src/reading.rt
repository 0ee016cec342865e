//! What `read` gives.

ghost use Rattle.std.specs.Prelude.{◌≡◌, IfOk};
ghost use Rattle.data_meaning.specs.Database.{field_at};
ghost use Rattle.data_records.specs.Views.{value_data};
ghost use Rattle.door_judge.specs.Coming.{Comes};
ghost use Rattle.door_meaning.specs.Records.{value_read};
ghost use Rattle.type_schema.specs.SchemaViews.{schema_of};

use crate::cell::{Cell, field_of_record};
use crate::halt::Halt;
use crate::policies::is_allowed;
use data_meaning::Principal;
use data_records::{Database, Value};
use std::alloc::{AllocError, Global};
use type_schema::{FieldNo, ModelNo, Schema};

/// What the field of the record holds.
fn value_at(
    alloc: Global,
    d: &Database,
    m: ModelNo,
    id: u64,
    f: FieldNo,
) -> Result<Value, AllocError>
    ensures { IfOk result (λ v. value_data v ≡ field_at d.now m id f) }
{
    match d.value(m, id, f) {
        Some(v) => v.copy(alloc),
        None => Ok(Value::Nothing),
    }
}

/// What the field of the record holds, if the principal of a session may read it there.
pub fn value_read(
    alloc: Global,
    s: &Schema,
    d: &Database,
    who: Option<Principal>,
    cell: &Cell<'_>,
) -> Result<Value, Halt>
    ensures { Comes (value_read (schema_of s.now) d.now who cell.now.model.now cell.now.id.number
        cell.now.field.now) value_data result }
{
    let (info, field) = field_of_record(s, d, cell)?;
    is_allowed(alloc, d, field, &field.read, cell.id.number, who)?;
    let held = value_at(alloc, d, info.number, cell.id.number, field.number)?;
    Ok(held)
}
