//! The values of a record.

ghost use Rattle.std.specs.Prelude.{◌≡◌, ◌==◌, [], ◌∷◌, ◌++◌, ◌<◌, ◌^◌, length, map, slice_set};
ghost use Rattle.std.specs.Prelude.{filter, not, IfOk, OnErr, OnOk};
ghost use Rattle.data_records.specs.Renumbered.{field_count, new_field, numbered_by};
ghost use Rattle.data_records.specs.TakenBack.{without_last};
ghost use Rattle.data_records.specs.Views.{slot_data};
ghost use Rattle.type_schema.specs.SchemaViews.{model_info_of};

use crate::numbers::new_field;
use crate::record::Slot;
use std::alloc::{AllocError, Global};
use std::marker::Model;
use type_schema::{FieldNo, ModelInfo, ModelNo};

/// A value for each field of a record. Contracts see the list of them.
#[derive(Drop)]
pub struct Slots {
    items: Vec<Slot>,
}

impl Model for Slots {
    ghost use Rattle.std.specs.Prelude.{List};
    ghost use Rattle.std.specs.Coded.{coded_list};
    ghost use Rattle.data_records.specs.declared.record.Slot.{Slot};
    ghost use Rattle.data_records.specs.contracts.record.Slot.{the_row};

    ghost Value = { List Slot };

    ghost coded = { coded_list the_row.coded };

    ghost view = { λ slots. slots.items.items };
}

/// Equal values, in the same order.
fn copy_slots(alloc: Global, slots: &[Slot]) -> Result<Vec<Slot>, AllocError>
    ensures { IfOk result (λ copies. map slot_data copies.items ≡ map slot_data slots.now) }
{
    let mut copies = Vec::new(alloc);
    for slot in slots {
        let copy = slot.copy(alloc)?;
        copies.push(copy)?;
    }
    Ok(copies)
}

/// Gives each value the new number of its field, which is one of the model.
fn renumber_slots(slots: &mut [Slot], models: &[ModelInfo], m: ModelNo)
    requires { field_count (map model_info_of models.now) < 2 ^ 32 }
    ensures { map slot_data slots.new
        ≡ map (numbered_by (new_field (map model_info_of models.now) m))
        (map slot_data slots.old) }
{
    for slot in slots.iter_mut() {
        slot.field = new_field(0, models, m, slot.field);
    }
}

impl Slots {
    /// A list of no values. It takes no memory.
    pub fn new(alloc: Global) -> Slots
        ensures { result ≡ [] }
    {
        Slots {
            items: Vec::new(alloc),
        }
    }

    /// These values, in their order.
    pub fn from_vec(items: Vec<Slot>) -> Slots
        ensures { result ≡ items.items }
    {
        Slots { items }
    }

    /// Equal values, in the same order, in memory of their own.
    pub fn copy(&self, alloc: Global) -> Result<Slots, AllocError>
        ensures { IfOk result (λ copies. map slot_data copies ≡ map slot_data self.now) }
    {
        let items = copy_slots(alloc, self.items.as_slice())?;
        Ok(Slots { items })
    }

    /// The values, one for each field of the model, in the order of its fields.
    pub fn as_slice(&self) -> &[Slot]
        ensures { result.now ≡ self.now }
    {
        self.items.as_slice()
    }

    /// Adds a value at the end.
    pub fn push(&mut self, slot: Slot) -> Result<(), AllocError>
        ensures ok { OnOk result (self.new ≡ self.old ++ slot ∷ []) }
        ensures err { OnErr result (self.new ≡ self.old) }
    {
        self.items.push(slot)?;
        Ok(())
    }

    /// Takes out the last value, if there is one.
    pub(crate) fn take_last(&mut self)
        ensures { map slot_data self.new ≡ without_last (map slot_data self.old) }
    {
        let _taken = self.items.pop();
    }

    /// Takes out the values of a field.
    pub(crate) fn take_field(&mut self, f: FieldNo)
        ensures { self.new ≡ filter (λ slot. not (slot.field == f)) self.old }
    {
        self.items.retain(|slot| slot.field != f);
    }

    /// Puts a value in place of another.
    pub(crate) fn set(&mut self, at: usize, slot: Slot)
        requires { at < length self.old }
        ensures { self.new ≡ slice_set self.old at slot }
    {
        self.items[at] = slot;
    }

    /// Gives each value the new number of its field, which is one of the model.
    pub(crate) fn renumber(&mut self, models: &[ModelInfo], m: ModelNo)
        requires { field_count (map model_info_of models.now) < 2 ^ 32 }
        ensures { map slot_data self.new
            ≡ map (numbered_by (new_field (map model_info_of models.now) m))
            (map slot_data self.old) }
    {
        renumber_slots(self.items.as_mut_slice(), models, m);
    }
}
