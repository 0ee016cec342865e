//! Records.

ghost use Rattle.std.specs.Prelude.{◌≡◌, ◌==◌, ◌<◌, ◌^◌, map, option_copied, position};
ghost use Rattle.std.specs.Prelude.{IfOk, OnErr, OnOk};
ghost use Rattle.std.specs.List.{find};
ghost use Rattle.std.specs.Option.{option_map};
ghost use Rattle.data_records.specs.Changed.{with_value};
ghost use Rattle.data_records.specs.Moved.{with_slot, without_slot};
ghost use Rattle.data_records.specs.Renumbered.{field_count, new_field, record_numbered_by};
ghost use Rattle.data_records.specs.TakenBack.{without_last_in};
ghost use Rattle.data_records.specs.Views.{record_data, slot_data, value_data};
ghost use Rattle.type_schema.specs.SchemaViews.{model_info_of};

use crate::slots::Slots;
use crate::value::Value;
use std::alloc::{AllocError, Global};
use type_schema::{FieldNo, ModelInfo, ModelNo};

/// The value of a field, which is known by its number.
#[derive(Drop)]
pub struct Slot {
    pub field: FieldNo,
    pub value: Value,
}

/// A record of a model: its id, and a value for each field.
#[derive(Drop)]
pub struct Record {
    pub id: u64,
    pub slots: Slots,
}

/// The slot of a field.
fn slot_in(slots: &[Slot], f: FieldNo) -> Option<&Slot>
    ensures { option_copied result ≡ find (λ slot. slot.field == f) slots.now }
{
    slots.iter().find(|slot| slot.field == f)
}

/// The place of the slot of a field.
fn place_of(slots: &[Slot], f: FieldNo) -> Option<usize>
    ensures { result ≡ position (λ slot. slot.field == f) slots.now }
{
    slots.iter().position(|slot| slot.field == f)
}

impl Slot {
    /// An equal value of the same field, in memory of its own.
    pub fn copy(&self, alloc: Global) -> Result<Slot, AllocError>
        ensures { IfOk result (λ copy. slot_data copy ≡ slot_data self.now) }
    {
        let value = self.value.copy(alloc)?;
        Ok(Slot {
            field: self.field,
            value,
        })
    }
}

impl Record {
    /// An equal record, in memory of its own.
    pub fn copy(&self, alloc: Global) -> Result<Record, AllocError>
        ensures { IfOk result (λ copy. record_data copy ≡ record_data self.now) }
    {
        let slots = self.slots.copy(alloc)?;
        Ok(Record { id: self.id, slots })
    }

    /// Puts the value into its field, if the record has it.
    pub(crate) fn put(&mut self, slot: Slot)
        ensures { record_data self.new
            ≡ with_value slot.field (value_data slot.value) (record_data self.old) }
    {
        match place_of(self.slots.as_slice(), slot.field) {
            Some(place) => self.slots.set(place, slot),
            None => {}
        }
    }

    /// Adds a value of one more field.
    pub(crate) fn push(&mut self, slot: Slot) -> Result<(), AllocError>
        ensures ok { OnOk result (record_data self.new
            ≡ with_slot slot.field (value_data slot.value) (record_data self.old)) }
        ensures err { OnErr result (record_data self.new ≡ record_data self.old) }
    {
        self.slots.push(slot)
    }

    /// Takes out the last value, if there is one.
    pub(crate) fn take_last(&mut self)
        ensures { record_data self.new ≡ without_last_in (record_data self.old) }
    {
        self.slots.take_last();
    }

    /// Takes out the values of a field.
    pub(crate) fn take_field(&mut self, f: FieldNo)
        ensures { record_data self.new
            ≡ record (record_data self.old) { slots = without_slot f (record_data self.old) } }
    {
        self.slots.take_field(f);
    }

    /// Gives each value the new number of its field, which is one of the model.
    pub(crate) fn renumber(&mut self, models: &[ModelInfo], m: ModelNo)
        requires { field_count (map model_info_of models.now) < 2 ^ 32 }
        ensures { record_data self.new
            ≡ record_numbered_by (new_field (map model_info_of models.now) m)
            (record_data self.old) }
    {
        self.slots.renumber(models, m);
    }

    /// The value of the field, or None where the record has no such field.
    pub fn value(&self, f: FieldNo) -> Option<&Value>
        ensures { option_map value_data (option_copied result)
            ≡ option_map (λ slot. slot.value)
            (find (λ slot. slot.field == f) (map slot_data self.now.slots)) }
    {
        match slot_in(self.slots.as_slice(), f) {
            Some(slot) => Some(&slot.value),
            None => None,
        }
    }
}
