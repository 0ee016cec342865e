//! Records that are taken out.

ghost use Rattle.std.specs.Prelude.{◌≡◌, ◌==◌, ◌-◌, is_some, true, None, IfErr, IfSome, OnOk};
ghost use Rattle.std.specs.List.{find};
ghost use Rattle.std.specs.Option.{option_map};
ghost use Rattle.data_meaning.specs.Database.{has_record, records_of};
ghost use Rattle.data_records.specs.Removed.{first_reference, IsHeld, Removes, without_record};
ghost use Rattle.data_records.specs.Room.{record_weight, total_weight};
ghost use Rattle.data_records.specs.Undone.{newest, Undoes, without_newest};
ghost use Rattle.type_schema.specs.SchemaViews.{schema_of};

use super::{Database, place_of};
use crate::data_err::DataErr;
use crate::references::first_reference;
use crate::weights::slots_weight;
use type_schema::{ModelNo, Schema};

impl Database {
    /// What it weighs without the record, or None where the record is not there.
    fn weight_without(&self, m: ModelNo, id: u64) -> Option<u64>
        ensures { result ≡ option_map (λ r. total_weight self.now - record_weight r)
            (find (λ r. r.id == id) (records_of self.now m)) }
    {
        let total = self.weight;
        match self.get(m, id) {
            Some(record) => Some(total - slots_weight(record.slots.as_slice())),
            None => None,
        }
    }

    /// Takes out the record, without which it weighs so much.
    fn take(&mut self, m: ModelNo, id: u64, weight: u64)
        requires there { has_record self.old m id ≡ true }
        requires weight { IfSome (find (λ r. r.id == id) (records_of self.old m))
            (λ r. weight ≡ total_weight self.old - record_weight r) }
        ensures { self.new ≡ without_record m id self.old }
    {
        match place_of(self.tables.as_slice(), m) {
            Some(place) => {
                let table = &mut self.tables[place];
                let taken = table.take(id);
                self.index.forget_taken(m, taken);
                self.count -= 1;
                self.weight = weight;
            }
            None => {}
        }
    }

    /// Whether the record may be removed.
    ///
    /// Refused, in this order: a record that is not there, one that a field of another record
    /// names.
    pub fn judge_removal(&self, s: &Schema, m: ModelNo, id: u64) -> Result<(), DataErr>
        ensures there { OnOk result (has_record self.now m id ≡ true) }
        ensures unnamed { OnOk result (first_reference (schema_of s.now) self.now m id ≡ None) }
        ensures held { IfErr result (IsHeld (schema_of s.now) self.now m id) }
    {
        if !self.has(m, id) {
            return Err(DataErr::NoRecord);
        }
        match first_reference(self, s.models.as_slice(), m, id) {
            Some(named) => Err(DataErr::Referenced {
                model: named.model,
                id: named.id,
                field: named.field,
            }),
            None => Ok(()),
        }
    }

    /// Takes out the record, if it is there. The id is not given again. It takes no memory.
    pub fn erase(&mut self, m: ModelNo, id: u64)
        ensures { self.new ≡ without_record m id self.old }
    {
        match self.weight_without(m, id) {
            Some(weight) => self.take(m, id, weight),
            None => {}
        }
    }

    /// Removes the record.
    ///
    /// Refused, in this order: a record that is not there, one that a field of another record
    /// names. The database is then as it was. The id is not given again.
    pub fn remove(&mut self, s: &Schema, m: ModelNo, id: u64) -> Result<(), DataErr>
        ensures { Removes (schema_of s.now) self.old m id result self.new }
    {
        self.judge_removal(s, m, id)?;
        self.erase(m, id);
        Ok(())
    }
}

impl Database {
    /// What it weighs without the last record of the model, or None where there is none.
    fn weight_without_newest(&self, m: ModelNo) -> Option<u64>
        ensures { result ≡ option_map (λ r. total_weight self.now - record_weight r)
            (newest self.now m) }
    {
        let total = self.weight;
        match self.records(m).last() {
            Some(record) => Some(total - slots_weight(record.slots.as_slice())),
            None => None,
        }
    }

    /// Takes out the last record of the model, without which it weighs so much.
    fn take_newest(&mut self, m: ModelNo, weight: u64)
        requires there { is_some (newest self.old m) ≡ true }
        requires weight { IfSome (newest self.old m)
            (λ r. weight ≡ total_weight self.old - record_weight r) }
        ensures { self.new ≡ without_newest m self.old }
    {
        match place_of(self.tables.as_slice(), m) {
            Some(place) => {
                let table = &mut self.tables[place];
                let taken = table.take_newest();
                self.index.forget_taken(m, taken);
                self.count -= 1;
                self.weight = weight;
            }
            None => {}
        }
    }

    /// Takes back the last insert into the model: takes out its last record, whose id is given
    /// again. It takes no memory.
    pub fn take_back(&mut self, m: ModelNo)
        ensures newest { self.new ≡ without_newest m self.old }
        ensures undone { Undoes m self.old self.new }
    {
        match self.weight_without_newest(m) {
            Some(weight) => self.take_newest(m, weight),
            None => {}
        }
    }
}
