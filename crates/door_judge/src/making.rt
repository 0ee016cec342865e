//! Records that `create` makes.

ghost use Rattle.std.specs.Prelude.{◌≡◌, Some, IfOk, OnErr, OnOk, map, nat_eq};
ghost use Rattle.std.specs.List.{IsDistinct};
ghost use Rattle.data_records.specs.Inserted.{IsAdmitted, next_of, with_row};
ghost use Rattle.data_records.specs.Rows.{AreShaped};
ghost use Rattle.data_records.specs.Views.{value_data};
ghost use Rattle.door_judge.specs.Coming.{Comes};
ghost use Rattle.door_judge.specs.Views.{making_data};
ghost use Rattle.door_meaning.specs.Orders.{stops};
ghost use Rattle.door_meaning.specs.Records.{judged_making, make_refusal, named_making, ready_making};
ghost use Rattle.type_schema.specs.Proper.{IsProper, field_numbers};
ghost use Rattle.type_schema.specs.Schema.{model_of};
ghost use Rattle.type_schema.specs.SchemaViews.{field_info_of, model_info_of, schema_of};

use crate::cell::model_of_name;
use crate::halt::Halt;
use crate::policies::has_right;
use crate::values::{dangling, field_numbered, named_row};
use data_meaning::Principal;
use data_records::{DataErr, Database, Limit, Value};
use data_tree::FieldLit;
use door_meaning::{Fullness, Reply};
use sqlite_items::Items;
use std::alloc::Global;
use text_tree::Named;
use type_schema::{ModelInfo, Right, Schema};

/// The values of a record that is made.
#[derive(Drop)]
pub struct Making<'s> {
    pub info: &'s ModelInfo,
    pub row: Items<Value>,
    pub id: u64,
}

/// What is to be made, before it is asked whether the database takes it.
fn making_named<'s>(
    alloc: Global,
    s: &'s Schema,
    d: &Database,
    model: &Named,
    ws: &[FieldLit],
) -> Result<Making<'s>, Halt>
    ensures named { Comes (named_making (schema_of s.now) d.now model.now ws.now)
        making_data result }
    ensures shaped { IfOk result (λ made. AreShaped (map field_info_of made.info.now.fields)
        (map value_data made.row)) }
{
    let info = model_of_name(s, model)?;
    let id = d.next(info.number);
    let row = named_row(alloc, info, ws, id)?;
    Ok(Making { info, row, id })
}

/// Inserts the record.
fn insert(alloc: Global, base: &mut Database, making: &Making<'_>) -> Result<(), Halt>
    requires shaped { AreShaped (map field_info_of making.now.info.now.fields)
        (map value_data making.now.row) }
    requires apart { IsDistinct nat_eq (field_numbers (map field_info_of making.now.info.now.fields)) }
    ensures judged { Comes (stops (make_refusal base.old (model_info_of making.now.info.now)
        (map value_data making.now.row))) (λ x. x) result }
    ensures admitted { OnOk result (IsAdmitted (model_info_of making.now.info.now) base.old
        (map value_data making.now.row)) }
    ensures done { OnOk result (base.new ≡ with_row (model_info_of making.now.info.now)
        (map value_data making.now.row) base.old) }
    ensures kept { OnErr result (base.new ≡ base.old) }
{
    let info = making.info;
    match base.insert(alloc, info, making.row.as_slice()) {
        Ok(_) => Ok(()),
        Err(DataErr::Dangling { field, id }) => match field_numbered(
            info.fields.as_slice(),
            field,
        ) {
            Some(field) => Err(Halt::Replied(dangling(alloc, &field.name, id)?)),
            None => unreachable!(),
        },
        Err(
            DataErr::Full {
                what: Limit::Records,
            },
        ) => Err(Halt::Replied(Reply::Full {
            what: Fullness::Records,
        })),
        Err(
            DataErr::Full {
                what: Limit::Weight,
            },
        ) => Err(Halt::Replied(Reply::Full {
            what: Fullness::Weight,
        })),
        Err(DataErr::IdsSpent) => Err(Halt::Replied(Reply::IdsSpent)),
        Err(DataErr::OutOfMemory) => Err(Halt::OutOfMemory),
        Err(DataErr::NoRecord) => unreachable!(),
        Err(DataErr::WrongShape { .. }) => unreachable!(),
        Err(DataErr::Referenced { .. }) => unreachable!(),
    }
}

/// Makes the record, if nothing but a policy refuses it.
fn making_ready<'s>(
    alloc: Global,
    s: &'s Schema,
    base: &mut Database,
    model: &Named,
    ws: &[FieldLit],
) -> Result<Making<'s>, Halt>
    requires { IsProper (schema_of s.now) }
    ensures ready { Comes (ready_making (schema_of s.now) base.old model.now ws.now)
        making_data result }
    ensures known { IfOk result (λ made. model_of (schema_of s.now) made.info.now.number
        ≡ Some (model_info_of made.info.now)) }
    ensures number { IfOk result (λ made. made.id ≡ next_of base.old made.info.now.number) }
    ensures admitted { IfOk result (λ made. IsAdmitted (model_info_of made.info.now) base.old
        (map value_data made.row)) }
    ensures done { IfOk result (λ made. base.new ≡ with_row (model_info_of made.info.now)
        (map value_data made.row) base.old) }
    ensures kept { OnErr result (base.new ≡ base.old) }
{
    let making = making_named(alloc, s, base, model, ws)?;
    insert(alloc, base, &making)?;
    Ok(making)
}

/// Makes the record, if nothing refuses it. The policy is asked on the database that holds the
/// record, which is taken back where the policy refuses it.
pub fn make_record<'s>(
    alloc: Global,
    s: &'s Schema,
    base: &mut Database,
    who: Option<Principal>,
    model: &Named,
    ws: &[FieldLit],
) -> Result<Making<'s>, Halt>
    requires { IsProper (schema_of s.now) }
    ensures judged { Comes (judged_making (schema_of s.now) base.old who model.now ws.now)
        making_data result }
    ensures known { IfOk result (λ made. model_of (schema_of s.now) made.info.now.number
        ≡ Some (model_info_of made.info.now)) }
    ensures number { IfOk result (λ made. made.id ≡ next_of base.old made.info.now.number) }
    ensures admitted { IfOk result (λ made. IsAdmitted (model_info_of made.info.now) base.old
        (map value_data made.row)) }
    ensures done { IfOk result (λ made. base.new ≡ with_row (model_info_of made.info.now)
        (map value_data made.row) base.old) }
    ensures kept { OnErr result (base.new ≡ base.old) }
{
    let making = making_ready(alloc, s, base, model, ws)?;
    let info = making.info;
    match has_right(alloc, base, &info.create, making.id, who, Right::Create) {
        Ok(()) => Ok(making),
        Err(halt) => {
            base.take_back(info.number);
            Err(halt)
        }
    }
}
