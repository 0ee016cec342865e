//! What a field holds at an element.

ghost use Rattle.std.specs.Prelude.{◌≡◌, ◌++◌, ◌∷◌, [], IfOk, OnOk, map};
ghost use Rattle.data_records.specs.Views.{slot_data, value_data};
ghost use Rattle.type_schema.specs.SchemaViews.{field_info_of, model_info_of, schema_of};
ghost use Rattle.check_witness.specs.Built.{built_slot, built_value};

use crate::source::Source;
use crate::values::{option_value, plain_value, set_value};
use data_records::{Slot, Value};
use std::alloc::{AllocError, Global};
use type_schema::{FieldInfo, ModelInfo, ModelNo, TTy};

impl Source<'_> {
    /// What a field of a model holds at an element.
    fn value(
        &self,
        alloc: Global,
        m: ModelNo,
        info: &FieldInfo,
        x: u32,
    ) -> Result<Value, AllocError>
        ensures { IfOk result (λ v. value_data v ≡ built_value (schema_of self.now.schema.now)
            self.now.structure.now m info.now.number info.now.ty x) }
    {
        match info.ty {
            TTy::Plain(_) => plain_value(alloc, self.entry(m, info.number, x)),
            TTy::Set(n) => set_value(alloc, self.pairs(m, info.number), x, self.size_of(n)),
            TTy::Opt(_) => option_value(alloc, self.entry(m, info.number, x)),
        }
    }

    /// Adds the slot of a field.
    fn push_slot(
        &self,
        alloc: Global,
        slots: &mut Vec<Slot>,
        info: &ModelInfo,
        field: &FieldInfo,
        x: u32,
    ) -> Result<(), AllocError>
        ensures { OnOk result (map slot_data slots.new.items ≡ map slot_data slots.old.items
            ++ built_slot (schema_of self.now.schema.now) self.now.structure.now
            (model_info_of info.now) x (field_info_of field.now) ∷ []) }
    {
        let value = self.value(alloc, info.number, field, x)?;
        slots.push(Slot {
            field: field.number,
            value,
        })?;
        Ok(())
    }

    /// Adds the slots of fields.
    pub(crate) fn push_slots(
        &self,
        alloc: Global,
        slots: &mut Vec<Slot>,
        info: &ModelInfo,
        fields: &[FieldInfo],
        x: u32,
    ) -> Result<(), AllocError>
        ensures { OnOk result (map slot_data slots.new.items ≡ map slot_data slots.old.items
            ++ map (λ f. built_slot (schema_of self.now.schema.now) self.now.structure.now
            (model_info_of info.now) x (field_info_of f)) fields.now) }
    {
        for field in fields {
            self.push_slot(alloc, slots, info, field, x)?;
        }
        Ok(())
    }
}
