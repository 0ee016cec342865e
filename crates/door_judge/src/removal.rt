//! Records that `delete` drops.

ghost use Rattle.std.specs.Prelude.{◌≡◌, None, IsSome, true, IfOk, OnOk};
ghost use Rattle.std.specs.Option.{option_map};
ghost use Rattle.data_meaning.specs.Database.{has_record};
ghost use Rattle.data_records.specs.Removed.{first_reference};
ghost use Rattle.door_judge.specs.Coming.{Comes};
ghost use Rattle.door_judge.specs.Parts.{IsRemovable};
ghost use Rattle.door_meaning.specs.Orders.{stops};
ghost use Rattle.door_meaning.specs.Records.{ready_removal, referenced};
ghost use Rattle.door_meaning.specs.Replies.{reply_data};
ghost use Rattle.type_schema.specs.Proper.{IsProper};
ghost use Rattle.type_schema.specs.Schema.{field_of};
ghost use Rattle.type_schema.specs.SchemaViews.{model_info_of, schema_of};

use crate::cell::{is_there, model_of_name};
use crate::halt::Halt;
use crate::names::model_of_number;
use crate::policies::has_right;
use crate::values::field_numbered;
use data_meaning::Principal;
use data_records::{DataErr, Database};
use door_meaning::Reply;
use std::alloc::{AllocError, Global};
use text_tree::Named;
use type_schema::{FieldNo, ModelInfo, ModelNo, Right, Schema};

/// A field of another record names the record.
fn named_by(alloc: Global, s: &Schema, m: ModelNo, id: u64, f: FieldNo) -> Result<Reply, AllocError>
    requires { IsSome (field_of (schema_of s.now) m f) }
    ensures { IfOk result (λ reply. reply_data reply
        ≡ referenced (schema_of s.now) (record { model = m; id = id; field = f })) }
{
    let Some(info) = model_of_number(s, m) else {
        unreachable!()
    };
    let Some(field) = field_numbered(info.fields.as_slice(), f) else {
        unreachable!()
    };
    let model = info.name.copy(alloc)?;
    let field = field.name.copy(alloc)?;
    Ok(Reply::Referenced { model, id, field })
}

/// No other record is to name the record.
fn is_free(alloc: Global, s: &Schema, d: &Database, m: ModelNo, id: u64) -> Result<(), Halt>
    requires proper { IsProper (schema_of s.now) }
    requires there { has_record d.now m id ≡ true }
    ensures judged { Comes (stops (option_map (referenced (schema_of s.now))
        (first_reference (schema_of s.now) d.now m id))) (λ x. x) result }
    ensures free { OnOk result (first_reference (schema_of s.now) d.now m id ≡ None) }
{
    match d.judge_removal(s, m, id) {
        Ok(()) => Ok(()),
        Err(DataErr::Referenced { model, id, field }) => {
            Err(Halt::Replied(named_by(alloc, s, model, id, field)?))
        }
        Err(
            DataErr::NoRecord
            | DataErr::WrongShape { .. }
            | DataErr::Dangling { .. }
            | DataErr::Full { .. }
            | DataErr::IdsSpent
            | DataErr::OutOfMemory,
        ) => unreachable!(),
    }
}

/// The model of the record that is to be dropped, if nothing refuses that.
pub fn removal_ready<'s>(
    alloc: Global,
    s: &'s Schema,
    d: &Database,
    who: Option<Principal>,
    model: &Named,
    id: u64,
) -> Result<&'s ModelInfo, Halt>
    requires { IsProper (schema_of s.now) }
    ensures ready { Comes (ready_removal (schema_of s.now) d.now who model.now id)
        (λ info. model_info_of info.now) result }
    ensures may { IfOk result (λ info. IsRemovable (schema_of s.now) d.now
        (model_info_of info.now) id) }
{
    let info = model_of_name(s, model)?;
    is_there(d, info, id)?;
    has_right(alloc, d, &info.delete, id, who, Right::Delete)?;
    is_free(alloc, s, d, info.number, id)?;
    Ok(info)
}
