//! The rows of records, as they were read.
//!
//! While a file is open no other handle writes to it, so what was read stands until this one writes.

use crate::cause::Cause;
use crate::columns::text_at;
use crate::session::Session;
use crate::tables::RECORDS;
use sqlite::Row;
use std::alloc::Global;
use type_schema::ModelInfo;

/// The rows of a model, by rising id. There is one at least.
#[derive(Drop)]
pub(crate) struct ModelRows {
    /// The name of the model.
    pub name: Vec<u8>,
    /// Its rows.
    pub rows: Vec<Row>,
}

/// The rows of all records that there are, by the names of their models.
#[derive(Drop)]
pub(crate) struct Known {
    models: Vec<ModelRows>,
}

/// Reads the rows of all records.
pub(crate) fn read_known<T: Session>(alloc: Global, session: &mut T) -> Result<Known, Cause> {
    let rows = session.rows(RECORDS, &[])?;
    let mut known = Known {
        models: Vec::new(alloc),
    };
    for row in rows {
        known.add(alloc, row)?;
    }
    Ok(known)
}

/// Whether one of the models has the name.
pub(crate) fn is_named(models: &[ModelInfo], name: &[u8]) -> bool {
    models.iter().any(|info| info.name.bytes() == name)
}

impl Known {
    /// Adds the next row, of the model of the last one or of another.
    fn add(&mut self, alloc: Global, row: Row) -> Result<(), Cause> {
        let name = text_at(&row, 0)?;
        if let Some(last) = self.models.last_mut() {
            if last.name.as_slice() == name {
                last.rows.push(row)?;
                return Ok(());
            }
        }
        let name = Vec::from_slice(alloc, name)?;
        let mut rows = Vec::new(alloc);
        rows.push(row)?;
        self.models.push(ModelRows { name, rows })?;
        Ok(())
    }

    /// The models that have rows.
    pub fn models(&self) -> &[ModelRows] {
        self.models.as_slice()
    }

    /// The rows of the model with the name.
    pub fn rows_of(&self, name: &[u8]) -> &[Row] {
        match self.models.iter().find(|it| it.name.as_slice() == name) {
            Some(found) => found.rows.as_slice(),
            None => &[],
        }
    }

    /// Whether each row is of one of the models.
    pub fn are_all_of(&self, models: &[ModelInfo]) -> bool {
        self.models
            .iter()
            .all(|it| is_named(models, it.name.as_slice()))
    }
}
