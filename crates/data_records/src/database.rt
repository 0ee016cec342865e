//! Databases.

ghost use Rattle.std.specs.Prelude.{◌≡◌, ◌==◌, ◌-◌, ◌<◌, ◌^◌, length, map, option_copied};
ghost use Rattle.std.specs.Prelude.{position, IfErr, IfOk, OnErr, OnOk};
ghost use Rattle.std.specs.List.{find};
ghost use Rattle.std.specs.List.Sorted.{IsStrictlyIncreasing};
ghost use Rattle.std.specs.Option.{option_map};
ghost use Rattle.data_meaning.specs.Database.{records_of, slots_of, has_record};
ghost use Rattle.data_records.specs.Inserted.{Inserts, IsAdmitted, IsRefused, change_table, empty_of};
ghost use Rattle.data_records.specs.Inserted.{empty_table, next_of, with_record};
ghost use Rattle.data_records.specs.Kept.{AreGiven};
ghost use Rattle.data_records.specs.Rising.{AreRising};
ghost use Rattle.data_records.specs.Room.{HasRoom, most_records, most_weight, record_count};
ghost use Rattle.data_records.specs.Room.{record_weight, row_weight, total_weight};
ghost use Rattle.data_records.specs.Views.{record_data, table_data, value_data};
ghost use Rattle.data_records.specs.Principals.{is_principal_of};
ghost use Rattle.data_records.specs.Renumbered.{HasNewNumbers, field_count, renumbered};
ghost use Rattle.data_records.specs.Renumbered.{renumbered_table};
ghost use Rattle.type_schema.specs.SchemaViews.{model_info_of, schema_of};

use crate::data_err::{DataErr, Limit};
use crate::index::Index;
use crate::limits::{MOST_RECORDS, MOST_WEIGHT};
use crate::principals::{has_static, is_marked};
use crate::record::Record;
use crate::rows::{first_dangling, first_wrong, push_slots};
use crate::shape::Coming;
use crate::slots::Slots;
use crate::table::{Table, record_in};
use crate::value::Value;
use crate::weights::{count_in, weight_in, without_row};
use data_meaning::Principal;
use data_meaning::limits::LAST_ID;
use std::alloc::{AllocError, Global};
use std::marker::Model;
use type_schema::{FieldNo, ModelInfo, ModelNo, Schema};

mod fields;
mod holding;
mod moves;
mod removals;

/// A database: for each model its records by rising id. Contracts see its tables.
#[derive(Drop)]
pub struct Database {
    tables: Vec<Table>,
    count: usize,
    weight: u64,
    index: Index,
}

impl Model for Database {
    ghost use Rattle.std.specs.Prelude.{List, map};
    ghost use Rattle.data_meaning.specs.Database as plain;
    ghost use Rattle.data_records.specs.Codes.{database_code};

    ghost Value = { List plain.Table };

    ghost coded = { database_code };

    ghost use Rattle.data_records.specs.Views.{table_data};
    ghost use Rattle.data_records.specs.Kept.{IsKept};

    ghost view = { λ d. map table_data d.tables.items };

    ghost use Rattle.data_records.specs.Namings.{IsIndexed};

    ghost invariant = { λ d. IsKept d.count d.weight (map table_data d.tables.items) ×
        IsIndexed d.index (map table_data d.tables.items) };
}

/// The table of a model.
fn table_in(tables: &[Table], m: ModelNo) -> Option<&Table>
    ensures { option_copied result ≡ find (λ t. t.model == m) tables.now }
{
    tables.iter().find(|table| table.model == m)
}

impl Database {
    /// The records of the model, by rising id.
    pub fn records(&self, m: ModelNo) -> &[Record]
        ensures all { map record_data result.now ≡ records_of self.now m }
        ensures rising { IsStrictlyIncreasing (map (λ r. r.id) result.now) }
    {
        match table_in(self.tables.as_slice(), m) {
            Some(table) => table.records.as_slice(),
            None => &[],
        }
    }

    /// The record of the model with the id, or None where there is none.
    pub fn get(&self, m: ModelNo, id: u64) -> Option<&Record>
        ensures { option_map record_data (option_copied result)
            ≡ find (λ r. r.id == id) (records_of self.now m) }
    {
        match table_in(self.tables.as_slice(), m) {
            Some(table) => record_in(table.records.as_slice(), id),
            None => None,
        }
    }

    /// The value of the field of the record, or None where there is no such record or field.
    pub fn value(&self, m: ModelNo, id: u64, f: FieldNo) -> Option<&Value>
        ensures { option_map value_data (option_copied result)
            ≡ option_map (λ slot. slot.value)
            (find (λ slot. slot.field == f) (slots_of self.now m id)) }
    {
        match self.get(m, id) {
            Some(record) => record.value(f),
            None => None,
        }
    }

    /// Whether the principal is a static one of the schema, or a record that is there of a model
    /// that the schema marks.
    pub fn has_principal(&self, s: &Schema, who: Principal) -> bool
        ensures { result ≡ is_principal_of (schema_of s.now) self.now who }
    {
        match who {
            Principal::Static(n) => has_static(s, n),
            Principal::Rec(m, id) => is_marked(s, m) && self.has(m, id),
        }
    }

    /// Whether there is a record of the model with the id.
    pub fn has(&self, m: ModelNo, id: u64) -> bool
        ensures { result ≡ has_record self.now m id }
    {
        self.get(m, id).is_some()
    }
}

/// A table without records for each model.
fn empty_tables(alloc: Global, models: &[ModelInfo]) -> Result<Vec<Table>, AllocError>
    ensures { IfOk result (λ tables. map table_data tables.items
        ≡ map empty_table (map model_info_of models.now)) }
{
    let mut tables = Vec::new(alloc);
    for info in models {
        tables.push(Table {
            model: info.number,
            next: 1,
            records: Vec::new(alloc),
        })?;
    }
    Ok(tables)
}

/// Equal tables, in the same order.
fn copy_tables(alloc: Global, tables: &[Table]) -> Result<Vec<Table>, AllocError>
    ensures { IfOk result (λ copies. map table_data copies.items ≡ map table_data tables.now) }
{
    let mut copies = Vec::new(alloc);
    for table in tables {
        let copy = table.copy(alloc)?;
        copies.push(copy)?;
    }
    Ok(copies)
}

/// The place of the table of a model.
fn place_of(tables: &[Table], m: ModelNo) -> Option<usize>
    ensures { result ≡ position (λ t. t.model == m) tables.now }
{
    tables.iter().position(|table| table.model == m)
}

impl Database {
    /// The id that the next record of the model gets.
    pub fn next(&self, m: ModelNo) -> u64
        ensures { result ≡ next_of self.now m }
    {
        match table_in(self.tables.as_slice(), m) {
            Some(table) => table.next,
            None => 1,
        }
    }

    /// How many records there are.
    fn count(&self) -> usize
        ensures { result ≡ record_count self.now }
    {
        self.count
    }

    /// How much more it may weigh.
    fn room(&self) -> u64
        ensures { result ≡ most_weight - total_weight self.now }
    {
        MOST_WEIGHT.saturating_sub(self.weight)
    }

    /// The weight of the row, or why it is refused.
    fn admit(&self, info: &ModelInfo, row: &[Value]) -> Result<u64, DataErr>
        requires { length info.now.fields ≡ length row.now }
        ensures admitted { OnOk result
            (IsAdmitted (model_info_of info.now) self.now (map value_data row.now)) }
        ensures weight { IfOk result (λ weight. weight ≡ row_weight (map value_data row.now)) }
        ensures refused { IfErr result
            (IsRefused (model_info_of info.now) self.now (map value_data row.now)) }
    {
        let fields = info.fields.as_slice();
        let next = self.next(info.number);
        let coming = Coming {
            model: info.number,
            id: next,
        };
        if let Some(field) = first_wrong(fields, row) {
            return Err(DataErr::WrongShape { field });
        }
        if let Some((field, id)) = first_dangling(self, coming, fields, row) {
            return Err(DataErr::Dangling { field, id });
        }
        if self.count() >= MOST_RECORDS {
            return Err(DataErr::Full {
                what: Limit::Records,
            });
        }
        let room = self.room();
        let Some(left) = without_row(room, row) else {
            return Err(DataErr::Full {
                what: Limit::Weight,
            });
        };
        if next > LAST_ID {
            return Err(DataErr::IdsSpent);
        }
        Ok(room - left)
    }

    /// Puts a record with the next id into the table of the model.
    fn push(
        &mut self,
        alloc: Global,
        m: ModelNo,
        made: Record,
        weight: u64,
    ) -> Result<(), AllocError>
        requires id { made.id ≡ next_of self.old m }
        requires unspent { made.id < 18446744073709551615 }
        requires weight { weight ≡ record_weight (record_data made) }
        requires fewer { record_count self.old < most_records }
        requires room { HasRoom self.old weight }
        ensures ok { OnOk result (self.new
            ≡ change_table m (with_record (record_data made)) self.old) }
        ensures err { OnErr result (self.new ≡ self.old) }
    {
        let place = match place_of(self.tables.as_slice(), m) {
            Some(place) => place,
            None => return Ok(()),
        };
        self.index
            .note_all(alloc, m, made.id, made.slots.as_slice());
        let table = &mut self.tables[place];
        table.push(made)?;
        self.count += 1;
        self.weight += weight;
        Ok(())
    }

    /// A database over the schema, without records.
    pub fn empty(alloc: Global, s: &Schema) -> Result<Database, AllocError>
        ensures { IfOk result (λ d. d ≡ empty_of (schema_of s.now)) }
    {
        let tables = empty_tables(alloc, s.models.as_slice())?;
        Ok(Database {
            tables,
            count: 0,
            weight: 0,
            index: Index::none(),
        })
    }

    /// The database of these tables, in each of which the ids of the records rise and are below the
    /// next id. It may hold more than one that records are inserted into.
    pub fn of_tables(tables: Vec<Table>) -> Result<Database, AllocError>
        requires rising { AreRising (map table_data tables.items) }
        requires given { AreGiven (map table_data tables.items) }
        ensures { IfOk result (λ d. d ≡ map table_data tables.items) }
    {
        let all = tables.as_slice();
        let (Some(count), Some(weight)) = (count_in(all), weight_in(all)) else {
            return Err(AllocError);
        };
        Ok(Database {
            tables,
            count,
            weight,
            index: Index::none(),
        })
    }

    /// An equal database, in memory of its own.
    pub fn copy(&self, alloc: Global) -> Result<Database, AllocError>
        ensures { IfOk result (λ copy. copy ≡ self.now) }
    {
        let tables = copy_tables(alloc, self.tables.as_slice())?;
        Ok(Database {
            tables,
            count: self.count,
            weight: self.weight,
            index: Index::none(),
        })
    }

    /// Inserts a record of the model, with a value for each of its fields, and gives its id.
    ///
    /// Refused, in this order: a value that is not of its field's type, an id that names no record
    /// (the record that is made may name itself), a database that is full, ids that are spent. The
    /// database is then as it was, and so it is where memory is wanting.
    pub fn insert(&mut self, alloc: Global, info: &ModelInfo, row: &[Value]) -> Result<u64, DataErr>
        requires { length info.now.fields ≡ length row.now }
        ensures { Inserts (model_info_of info.now) self.old
            (map value_data row.now) result self.new }
    {
        let weight = self.admit(info, row)?;
        let id = self.next(info.number);
        let mut slots = Vec::new(alloc);
        push_slots(alloc, &mut slots, info.fields.as_slice(), row)?;
        let record = Record {
            id,
            slots: Slots::from_vec(slots),
        };
        self.push(alloc, info.number, record, weight)?;
        Ok(id)
    }
}

/// Gives each table, and each value in it, the new number of its model and field.
fn renumber_tables(tables: &mut [Table], models: &[ModelInfo])
    requires models { length models.now < 2 ^ 32 }
    requires fields { field_count (map model_info_of models.now) < 2 ^ 32 }
    ensures { map table_data tables.new
        ≡ map (renumbered_table (map model_info_of models.now)) (map table_data tables.old) }
{
    for table in tables.iter_mut() {
        table.renumber(models);
    }
}

impl Database {
    /// Gives each table the number that its model has in the schema numbered anew, and each value
    /// that of its field: their places in the order of the schema, the fields on through all
    /// models. Ids and values stay. It takes no memory.
    pub fn renumber(&mut self, s: &Schema)
        requires { HasNewNumbers (schema_of s.now) }
        ensures { self.new ≡ renumbered (schema_of s.now) self.old }
    {
        self.index = Index::none();
        renumber_tables(self.tables.as_mut_slice(), s.models.as_slice());
    }
}
