//! Values that are put into fields. What may refuse a value or want memory comes first, so that
//! the change itself cannot fail.

ghost use Rattle.std.specs.Prelude.{◌≡◌, ◌+◌, ◌≤◌, true, IfErr, IfOk, MatchOption, OnOk};
ghost use Rattle.data_meaning.specs.Database.{field_at};
ghost use Rattle.data_records.specs.Changed.{has_field, HasRoomFor, IsFitting, IsUnfit, Sets};
ghost use Rattle.data_records.specs.Changed.{with_field};
ghost use Rattle.data_records.specs.Room.{total_weight, weight_of};
ghost use Rattle.data_records.specs.Views.{value_data};
ghost use Rattle.type_schema.specs.SchemaViews.{field_info_of};

use super::{Database, place_of};
use crate::data_err::{DataErr, Limit};
use crate::record::Slot;
use crate::shape::{Coming, dangling_in, has_shape};
use crate::value::Value;
use crate::weights::{weight, without_value};
use std::alloc::Global;
use type_schema::{FieldInfo, FieldNo, ModelNo};

/// Whether a value is the id.
fn is_id(v: &Value, id: u64) -> bool {
    match v {
        Value::Id(named) => *named == id,
        Value::Flag(_)
        | Value::Num(_)
        | Value::Str(_)
        | Value::Ids(_)
        | Value::Nothing
        | Value::Just(_) => false,
    }
}

impl Database {
    /// What it weighs with a value in place of one that it holds, or None where that is too much.
    fn reweighed(&self, old: &Value, v: &Value) -> Option<u64>
        requires { weight_of (value_data old.now) ≤ total_weight self.now }
        ensures { MatchOption result
            (HasRoomFor self.now (value_data old.now) (value_data v.now) → ⊥)
            (λ weight. HasRoomFor self.now (value_data old.now) (value_data v.now) ×
            (weight + weight_of (value_data old.now)
            ≡ total_weight self.now + weight_of (value_data v.now))) }
    {
        let total = self.weight;
        let room = self.room();
        let left = without_value(room + weight(old), v)?;
        Some(total + room - left)
    }

    /// What it weighs with the value in the field of the record, or why the value is refused.
    fn fit(&self, m: ModelNo, id: u64, field: &FieldInfo, v: &Value) -> Result<u64, DataErr>
        ensures fits { OnOk result
            (IsFitting self.now m id (field_info_of field.now) (value_data v.now)) }
        ensures weight { IfOk result (λ weight. weight
            + weight_of (field_at self.now m id field.now.number)
            ≡ total_weight self.now + weight_of (value_data v.now)) }
        ensures unfit { IfErr result
            (IsUnfit self.now m id (field_info_of field.now) (value_data v.now)) }
    {
        let old = match self.value(m, id, field.number) {
            Some(old) => old,
            None => return Err(DataErr::NoRecord),
        };
        let number = field.number;
        if !has_shape(v, field.ty) {
            return Err(DataErr::WrongShape { field: number });
        }
        let coming = Coming { model: m, id };
        match dangling_in(self, coming, field.ty, v) {
            Some(id) => return Err(DataErr::Dangling { field: number, id }),
            None => {}
        }
        match self.reweighed(old, v) {
            Some(weight) => Ok(weight),
            None => Err(DataErr::Full {
                what: Limit::Weight,
            }),
        }
    }

    /// The id that the field of the record holds, if the value that comes is another.
    fn left_by(&self, m: ModelNo, id: u64, slot: &Slot) -> Option<u64> {
        match self.value(m, id, slot.field) {
            Some(Value::Id(named)) if !is_id(&slot.value, *named) => Some(*named),
            _ => None,
        }
    }

    /// Puts the value into its field of the record, with which it weighs so much.
    fn put(&mut self, m: ModelNo, id: u64, slot: Slot, weight: u64)
        requires there { has_field self.old m id slot.field ≡ true }
        requires weight { weight + weight_of (field_at self.old m id slot.field)
            ≡ total_weight self.old + weight_of (value_data slot.value) }
        ensures { self.new ≡ with_field m id slot.field (value_data slot.value) self.old }
    {
        let left = self.left_by(m, id, &slot);
        match place_of(self.tables.as_slice(), m) {
            Some(place) => {
                self.index.replace(m, id, left, &slot);
                let table = &mut self.tables[place];
                table.put(id, slot);
                self.weight = weight;
            }
            None => {}
        }
    }

    /// What it weighs with the value in the field of the record, which has the field and room for
    /// the value.
    fn weight_with(&self, m: ModelNo, id: u64, f: FieldNo, v: &Value) -> u64
        requires there { has_field self.now m id f ≡ true }
        requires room { HasRoomFor self.now (field_at self.now m id f) (value_data v.now) }
        ensures { result + weight_of (field_at self.now m id f)
            ≡ total_weight self.now + weight_of (value_data v.now) }
    {
        match self.value(m, id, f) {
            Some(old) => self.reweighed(old, v).unwrap_or(self.weight),
            None => self.weight,
        }
    }

    /// Makes ready all that `put_field` needs to put the value into the field of the record.
    ///
    /// Refused for the causes of `set_field`, in their order, and where memory is wanting.
    pub fn ready_field(
        &mut self,
        alloc: Global,
        m: ModelNo,
        id: u64,
        field: &FieldInfo,
        v: &Value,
    ) -> Result<(), DataErr>
        ensures fits { OnOk result
            (IsFitting self.old m id (field_info_of field.now) (value_data v.now)) }
        ensures unfit { IfErr result
            (IsUnfit self.old m id (field_info_of field.now) (value_data v.now)) }
        ensures kept { self.new ≡ self.old }
    {
        let _weight = self.fit(m, id, field, v)?;
        self.index.note(alloc, m, id, field.number, v);
        Ok(())
    }

    /// Puts a value that fits into the field of the record. It takes no memory.
    pub fn put_field(&mut self, m: ModelNo, id: u64, field: &FieldInfo, v: Value)
        requires { IsFitting self.old m id (field_info_of field.now) (value_data v) }
        ensures { self.new ≡ with_field m id field.now.number (value_data v) self.old }
    {
        let weight = self.weight_with(m, id, field.number, &v);
        let slot = Slot {
            field: field.number,
            value: v,
        };
        self.put(m, id, slot, weight);
    }

    /// Puts a value into the field of the record.
    ///
    /// Refused, in this order: a record that is not there, or has no such field, a value that is
    /// not of the field's type, an id that names no record, a weight that rises above the limit.
    /// The database is then as it was, and so it is where memory is wanting.
    pub fn set_field(
        &mut self,
        alloc: Global,
        m: ModelNo,
        id: u64,
        field: &FieldInfo,
        v: &Value,
    ) -> Result<(), DataErr>
        ensures { Sets self.old m id (field_info_of field.now) (value_data v.now) result self.new }
    {
        self.ready_field(alloc, m, id, field, v)?;
        let value = v.copy(alloc)?;
        self.put_field(m, id, field, value);
        Ok(())
    }
}
