//! The index of a database: what is noted of the values of fields, so that the records that hold an
//! id are found without going through all. It notes at least what the fields hold, and gives up
//! where memory is wanting.

ghost use Rattle.std.specs.Prelude.{◌≡◌, ◌==◌, ℕ, map, true, IfSome, IsTrue, OnOk};
ghost use Rattle.std.specs.List.{list_any};
ghost use Rattle.data_meaning.specs.Meaning.{are_equal};
ghost use Rattle.data_meaning.specs.Values as plain;
ghost use Rattle.data_records.specs.Namings.{AreKnown, AreRowsKnown, IsIndexed, IsKnown, IsNoted};
ghost use Rattle.data_records.specs.Namings.{is_other};
ghost use Rattle.data_records.specs.Views.{record_data, slot_data, table_data, value_data};

use crate::holders::{Holders, Place};
use crate::record::{Record, Slot};
use crate::table::Table;
use crate::value::Value;
use std::alloc::{AllocError, Global};
use type_schema::{FieldNo, ModelNo};

/// A field of the records of a model.
#[derive(Clone, Copy, Debug)]
pub(crate) struct Column {
    pub(crate) model: ModelNo,
    pub(crate) field: FieldNo,
}

/// Which records name which, and which fields hold other values than ids.
#[derive(Drop)]
pub(crate) struct Namings {
    holders: Holders,
    others: Vec<Column>,
}

/// The namings of a database, or none.
#[derive(Drop)]
pub(crate) struct Index {
    namings: Option<Namings>,
}

/// Whether the field is among the columns.
fn is_other(others: &[Column], m: ModelNo, f: FieldNo) -> bool
    ensures { result ≡ is_other others.now m f }
{
    others.iter().any(|c| c.model == m && c.field == f)
}

/// Adds the field to the columns, if it is not among them.
fn note_other(others: &mut Vec<Column>, m: ModelNo, f: FieldNo) -> Result<(), AllocError>
    ensures kept { (n g : ℕ) → is_other others.old.items n g ≡ true →
        is_other others.new.items n g ≡ true }
    ensures noted { OnOk result (is_other others.new.items m f ≡ true) }
{
    if !is_other(others.as_slice(), m, f) {
        others.push(Column { model: m, field: f })?;
    }
    Ok(())
}

impl Namings {
    /// Notes what the field of the record holds. After an error what was noted is noted.
    fn note(
        &mut self,
        alloc: Global,
        m: ModelNo,
        id: u64,
        f: FieldNo,
        v: &Value,
    ) -> Result<(), AllocError>
        ensures kept { (n i g : ℕ) (w : plain.Value) → IsNoted self.old n i g w →
            IsNoted self.new n i g w }
        ensures noted { OnOk result (IsNoted self.new m id f (value_data v.now)) }
    {
        match v {
            Value::Id(named) => {
                let place = Place {
                    model: m,
                    field: f,
                    named: *named,
                };
                self.holders.note(alloc, place, id)
            }
            Value::Flag(_) | Value::Num(_) | Value::Str(_) | Value::Ids(_) => {
                note_other(&mut self.others, m, f)
            }
            Value::Nothing | Value::Just(_) => Ok(()),
        }
    }

    /// Whether it is noted what the field of the record holds.
    fn has(&self, m: ModelNo, id: u64, f: FieldNo, v: &Value) -> bool
        ensures { IsTrue result → IsNoted self.now m id f (value_data v.now) }
    {
        match v {
            Value::Id(named) => {
                let place = Place {
                    model: m,
                    field: f,
                    named: *named,
                };
                self.holders.has(place, id)
            }
            Value::Flag(_) | Value::Num(_) | Value::Str(_) | Value::Ids(_) => {
                is_other(self.others.as_slice(), m, f)
            }
            Value::Nothing | Value::Just(_) => true,
        }
    }

    /// Takes back that the field of the record is noted as one that holds the id.
    fn forget(&mut self, m: ModelNo, id: u64, f: FieldNo, named: u64)
        ensures { (n i g : ℕ) (w : plain.Value) → ((n ≡ m) × (i ≡ id) × (g ≡ f) → ⊥) →
            IsNoted self.old n i g w → IsNoted self.new n i g w }
    {
        let place = Place {
            model: m,
            field: f,
            named,
        };
        self.holders.forget(place, id);
    }

    /// The ids of records that are noted as holding the id in the field, or None where the field
    /// holds other values than ids.
    fn holding(&self, m: ModelNo, f: FieldNo, id: u64) -> Option<&[u64]>
        ensures { IfSome result (λ ids. (i : ℕ) (w : plain.Value) → IsNoted self.now m i f w →
            are_equal w (plain.Id id) ≡ true → list_any (λ j. j == i) ids.now ≡ true) }
    {
        if is_other(self.others.as_slice(), m, f) {
            return None;
        }
        let place = Place {
            model: m,
            field: f,
            named: id,
        };
        Some(self.holders.ids(place))
    }
}

impl Index {
    /// No index. It takes no memory.
    pub(crate) fn none() -> Index
        ensures { (m id f : ℕ) (v : plain.Value) → IsKnown result m id f v }
    {
        Index { namings: None }
    }

    /// The index of a database without records. It takes no memory.
    fn new(alloc: Global) -> Index {
        Index {
            namings: Some(Namings {
                holders: Holders::new(alloc),
                others: Vec::new(alloc),
            }),
        }
    }

    /// Notes what the field of the record holds.
    pub(crate) fn note(&mut self, alloc: Global, m: ModelNo, id: u64, f: FieldNo, v: &Value)
        ensures kept { (n i g : ℕ) (w : plain.Value) → IsKnown self.old n i g w →
            IsKnown self.new n i g w }
        ensures noted { IsKnown self.new m id f (value_data v.now) }
    {
        match &mut self.namings {
            Some(namings) => {
                if namings.note(alloc, m, id, f, v).is_err() {
                    self.namings = None;
                }
            }
            None => {}
        }
    }

    /// Gives up where it is not noted that the field of the record holds the value. It takes no
    /// memory.
    fn expect(&mut self, m: ModelNo, id: u64, f: FieldNo, v: &Value)
        ensures kept { (n i g : ℕ) (w : plain.Value) → IsKnown self.old n i g w →
            IsKnown self.new n i g w }
        ensures noted { IsKnown self.new m id f (value_data v.now) }
    {
        match &self.namings {
            Some(namings) => {
                if !namings.has(m, id, f, v) {
                    self.namings = None;
                }
            }
            None => {}
        }
    }

    /// Takes back that the field of the record is noted as one that holds the id.
    fn forget(&mut self, m: ModelNo, id: u64, f: FieldNo, named: u64)
        ensures { (n i g : ℕ) (w : plain.Value) → ((n ≡ m) × (i ≡ id) × (g ≡ f) → ⊥) →
            IsKnown self.old n i g w → IsKnown self.new n i g w }
    {
        match &mut self.namings {
            Some(namings) => namings.forget(m, id, f, named),
            None => {}
        }
    }

    /// The same, if there is an id that the field held.
    fn forget_left(&mut self, m: ModelNo, id: u64, f: FieldNo, left: Option<u64>)
        ensures { (n i g : ℕ) (w : plain.Value) → ((n ≡ m) × (i ≡ id) × (g ≡ f) → ⊥) →
            IsKnown self.old n i g w → IsKnown self.new n i g w }
    {
        match left {
            Some(named) => self.forget(m, id, f, named),
            None => {}
        }
    }

    /// Takes back that the field of the record is noted as one that holds the id which it leaves,
    /// and gives up where the value that comes is not noted. It takes no memory.
    pub(crate) fn replace(&mut self, m: ModelNo, id: u64, left: Option<u64>, slot: &Slot)
        ensures kept { (n i g : ℕ) (w : plain.Value) →
            ((n ≡ m) × (i ≡ id) × (g ≡ slot.now.field) → ⊥) →
            IsKnown self.old n i g w → IsKnown self.new n i g w }
        ensures noted { IsKnown self.new m id slot.now.field (value_data slot.now.value) }
    {
        self.forget_left(m, id, slot.field, left);
        self.expect(m, id, slot.field, &slot.value);
    }

    /// Notes the values of a record.
    pub(crate) fn note_all(&mut self, alloc: Global, m: ModelNo, id: u64, slots: &[Slot])
        ensures kept { (n i g : ℕ) (w : plain.Value) → IsKnown self.old n i g w →
            IsKnown self.new n i g w }
        ensures noted { AreKnown self.new m id (map slot_data slots.now) }
    {
        let Some((slot, slots)) = slots.split_first() else {
            return;
        };
        self.note(alloc, m, id, slot.field, &slot.value);
        self.note_all(alloc, m, id, slots);
    }

    /// Takes back what is noted of a value.
    fn forget_slot(&mut self, m: ModelNo, id: u64, slot: &Slot)
        ensures { (n i g : ℕ) (w : plain.Value) → ((n ≡ m) × (i ≡ id) → ⊥) →
            IsKnown self.old n i g w → IsKnown self.new n i g w }
    {
        match &slot.value {
            Value::Id(named) => self.forget(m, id, slot.field, *named),
            Value::Flag(_)
            | Value::Num(_)
            | Value::Str(_)
            | Value::Ids(_)
            | Value::Nothing
            | Value::Just(_) => {}
        }
    }

    /// Takes back what is noted of the values of a record.
    fn forget_all(&mut self, m: ModelNo, id: u64, slots: &[Slot])
        ensures { (n i g : ℕ) (w : plain.Value) → ((n ≡ m) × (i ≡ id) → ⊥) →
            IsKnown self.old n i g w → IsKnown self.new n i g w }
    {
        let Some((slot, slots)) = slots.split_first() else {
            return;
        };
        self.forget_slot(m, id, slot);
        self.forget_all(m, id, slots);
    }

    /// Takes back what is noted of the values of a record that was taken out, if one was. It takes
    /// no memory.
    pub(crate) fn forget_taken(&mut self, m: ModelNo, taken: Option<Record>)
        ensures { (n i g : ℕ) (w : plain.Value) →
            IfSome taken (λ r. (n ≡ m) × (i ≡ r.id) → ⊥) →
            IsKnown self.old n i g w → IsKnown self.new n i g w }
    {
        match taken {
            Some(record) => self.forget_all(m, record.id, record.slots.as_slice()),
            None => {}
        }
    }

    /// Notes the values of the records of a model.
    fn note_rows(&mut self, alloc: Global, m: ModelNo, records: &[Record])
        ensures kept { (n i g : ℕ) (w : plain.Value) → IsKnown self.old n i g w →
            IsKnown self.new n i g w }
        ensures noted { AreRowsKnown self.new m (map record_data records.now) }
    {
        for record in records {
            self.note_all(alloc, m, record.id, record.slots.as_slice());
        }
    }

    /// The index of the database of these tables.
    pub(crate) fn of_tables(alloc: Global, tables: &[Table]) -> Index
        ensures { IsIndexed result (map table_data tables.now) }
    {
        let mut index = Index::new(alloc);
        for table in tables {
            index.note_rows(alloc, table.model, table.records.as_slice());
        }
        index
    }

    /// Ids among which are those of all records of the model whose field is equal to the id, or
    /// None where that is not noted.
    pub(crate) fn holding(&self, m: ModelNo, f: FieldNo, id: u64) -> Option<&[u64]>
        ensures { IfSome result (λ ids. (i : ℕ) (w : plain.Value) → IsKnown self.now m i f w →
            are_equal w (plain.Id id) ≡ true → list_any (λ j. j == i) ids.now ≡ true) }
    {
        match &self.namings {
            Some(namings) => namings.holding(m, f, id),
            None => None,
        }
    }
}
