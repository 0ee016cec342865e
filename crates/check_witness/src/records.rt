//! The records of a model, one for each element of its sort.

ghost use Rattle.std.specs.Prelude.{◌≡◌, ◌++◌, ◌∷◌, [], IfOk, OnOk, map};
ghost use Rattle.std.specs.List.{range_with_len};
ghost use Rattle.data_records.specs.Views.{record_data, table_data};
ghost use Rattle.type_schema.specs.SchemaViews.{model_info_of, schema_of};
ghost use Rattle.check_witness.specs.Built.{built, built_record, built_table};

use crate::source::Source;
use data_records::{Record, Slots, Table};
use std::alloc::{AllocError, Global};
use type_schema::ModelInfo;

impl Source<'_> {
    /// The record of an element.
    fn record(&self, alloc: Global, info: &ModelInfo, x: u32) -> Result<Record, AllocError>
        ensures { IfOk result (λ r. record_data r ≡ built_record
            (schema_of self.now.schema.now) self.now.structure.now (model_info_of info.now) x) }
    {
        let mut slots = Vec::new(alloc);
        self.push_slots(alloc, &mut slots, info, info.fields.as_slice(), x)?;
        Ok(Record {
            id: u64::from(x) + 1,
            slots: Slots::from_vec(slots),
        })
    }

    /// Adds the record of an element.
    fn push_record(
        &self,
        alloc: Global,
        records: &mut Vec<Record>,
        info: &ModelInfo,
        x: u32,
    ) -> Result<(), AllocError>
        ensures { OnOk result (map record_data records.new.items
            ≡ map record_data records.old.items
            ++ built_record (schema_of self.now.schema.now) self.now.structure.now
            (model_info_of info.now) x ∷ []) }
    {
        let made = self.record(alloc, info, x)?;
        records.push(made)?;
        Ok(())
    }

    /// Adds the records of the elements below `size`.
    fn push_records(
        &self,
        alloc: Global,
        records: &mut Vec<Record>,
        info: &ModelInfo,
        size: u32,
    ) -> Result<(), AllocError>
        ensures { OnOk result (map record_data records.new.items
            ≡ map record_data records.old.items
            ++ map (built_record (schema_of self.now.schema.now) self.now.structure.now
            (model_info_of info.now)) (range_with_len 0 size)) }
    {
        for x in 0..size {
            self.push_record(alloc, records, info, x)?;
        }
        Ok(())
    }

    /// The table of a model.
    fn table(&self, alloc: Global, info: &ModelInfo) -> Result<Table, AllocError>
        ensures { IfOk result (λ t. table_data t ≡ built_table
            (schema_of self.now.schema.now) self.now.structure.now (model_info_of info.now)) }
    {
        let size = self.size_of(info.number);
        let mut records = Vec::new(alloc);
        self.push_records(alloc, &mut records, info, size)?;
        Ok(Table {
            model: info.number,
            next: u64::from(size) + 1,
            records,
        })
    }

    /// Adds the table of a model.
    fn push_table(
        &self,
        alloc: Global,
        tables: &mut Vec<Table>,
        info: &ModelInfo,
    ) -> Result<(), AllocError>
        ensures { OnOk result (map table_data tables.new.items
            ≡ map table_data tables.old.items
            ++ built_table (schema_of self.now.schema.now) self.now.structure.now
            (model_info_of info.now) ∷ []) }
    {
        let table = self.table(alloc, info)?;
        tables.push(table)?;
        Ok(())
    }

    /// Adds the tables of models.
    fn push_tables(
        &self,
        alloc: Global,
        tables: &mut Vec<Table>,
        models: &[ModelInfo],
    ) -> Result<(), AllocError>
        ensures { OnOk result (map table_data tables.new.items
            ≡ map table_data tables.old.items
            ++ map (λ m. built_table (schema_of self.now.schema.now) self.now.structure.now
            (model_info_of m)) models.now) }
    {
        for info in models {
            self.push_table(alloc, tables, info)?;
        }
        Ok(())
    }

    /// The tables of the schema.
    pub(crate) fn tables(&self, alloc: Global) -> Result<Vec<Table>, AllocError>
        ensures { IfOk result (λ tables. map table_data tables.items
            ≡ built (schema_of self.now.schema.now) self.now.structure.now) }
    {
        let mut tables = Vec::new(alloc);
        self.push_tables(alloc, &mut tables, self.schema.models.as_slice())?;
        Ok(tables)
    }
}
