//! Databases whose models and fields come and go, in place: rows that stay are not copied.

ghost use Rattle.std.specs.Prelude.{◌≡◌, length, map, OnErr, OnOk};
ghost use Rattle.data_meaning.specs.Database.{records_of};
ghost use Rattle.data_records.specs.Moved.{with_new_field, with_table, without_field};
ghost use Rattle.data_records.specs.Moved.{without_table};
ghost use Rattle.data_records.specs.Views.{table_data, value_data};
ghost use Rattle.type_schema.specs.SchemaViews.{model_info_of};

use super::{Database, place_of};
use crate::index::Index;
use crate::table::Table;
use crate::value::Value;
use crate::weights::{count_in, weight_in, weight_with};
use std::alloc::{AllocError, Global};
use type_schema::{FieldNo, ModelInfo, ModelNo};

/// Takes the values of the field out of the tables of the model.
fn take_field(tables: &mut [Table], m: ModelNo, f: FieldNo)
    ensures { map table_data tables.new ≡ without_field m f (map table_data tables.old) }
{
    for table in tables.iter_mut() {
        table.take_field(m, f);
    }
}

impl Database {
    /// Adds a table without records for the model, behind the others. After an error the database
    /// is as it was.
    pub fn add_table(&mut self, alloc: Global, info: &ModelInfo) -> Result<(), AllocError>
        ensures ok { OnOk result (self.new ≡ with_table (model_info_of info.now) self.old) }
        ensures err { OnErr result (self.new ≡ self.old) }
    {
        self.index = Index::none();
        self.tables.push(Table {
            model: info.number,
            next: 1,
            records: Vec::new(alloc),
        })?;
        Ok(())
    }

    /// Drops the table of the model. It takes no memory.
    pub fn drop_table(&mut self, m: ModelNo)
        ensures { self.new ≡ without_table m self.old }
    {
        self.index = Index::none();
        self.tables.retain(|table| table.model != m);
        self.count = count_in(self.tables.as_slice()).unwrap_or(self.count);
        self.weight = weight_in(self.tables.as_slice()).unwrap_or(self.weight);
    }

    /// Takes the field out of the records of the model. It takes no memory.
    pub fn take_field(&mut self, m: ModelNo, f: FieldNo)
        ensures { self.new ≡ without_field m f self.old }
    {
        self.index = Index::none();
        take_field(self.tables.as_mut_slice(), m, f);
        self.weight = weight_in(self.tables.as_slice()).unwrap_or(self.weight);
    }

    /// Adds a field to the records of the model, with these values, one for each in their order. It
    /// may grow heavier than one that records are inserted into. After an error the database is as
    /// it was.
    pub fn add_field(
        &mut self,
        m: ModelNo,
        f: FieldNo,
        values: Vec<Value>,
    ) -> Result<(), AllocError>
        requires { length values.items ≡ length (records_of self.old m) }
        ensures ok { OnOk result (self.new
            ≡ with_new_field m f (map value_data values.items) self.old) }
        ensures err { OnErr result (self.new ≡ self.old) }
    {
        let Some(weight) = weight_with(self.weight, values.as_slice()) else {
            return Err(AllocError);
        };
        match place_of(self.tables.as_slice(), m) {
            Some(place) => {
                self.index = Index::none();
                let table = &mut self.tables[place];
                table.add_field(f, values)?;
                self.weight = weight;
            }
            None => {}
        }
        Ok(())
    }
}
