//! The records of a database.

ghost use Rattle.std.specs.Prelude.{◌≡◌, ◌++◌, IfOk, OnOk, map, reverse};
ghost use Rattle.data_meaning.specs.Database.{ids_of, HasNoFurtherTables};
ghost use Rattle.type_schema.specs.SchemaViews.{schema_of};
ghost use Rattle.impact_shrink.specs.Dropped.{HasAll, places_in, places_of};

use data_records::Database;
use std::alloc::{AllocError, Global};
use type_schema::{ModelInfo, ModelNo, Schema};

/// Where a record of a database is.
#[derive(Clone, Copy, Debug)]
pub(crate) struct Place {
    pub(crate) model: ModelNo,
    pub(crate) id: u64,
}

/// Adds the places of the records of a model.
fn push_places(places: &mut Vec<Place>, d: &Database, m: ModelNo) -> Result<(), AllocError>
    ensures { OnOk result (places.new.items
        ≡ places.old.items ++ places_in m (ids_of d.now m)) }
{
    for record in d.records(m) {
        places.push(Place {
            model: m,
            id: record.id,
        })?;
    }
    Ok(())
}

/// Adds the places of the records of these models.
fn push_all(places: &mut Vec<Place>, d: &Database, models: &[ModelInfo]) -> Result<(), AllocError>
    ensures { OnOk result (places.new.items
        ≡ places.old.items ++ places_of d.now (map (λ info. info.number) models.now)) }
{
    for info in models {
        push_places(places, d, info.number)?;
    }
    Ok(())
}

/// The places of the records of these models, the last of the last model first.
fn places_behind(
    alloc: Global,
    d: &Database,
    models: &[ModelInfo],
) -> Result<Vec<Place>, AllocError>
    ensures { IfOk result (λ places. places.items
        ≡ reverse (places_of d.now (map (λ info. info.number) models.now))) }
{
    let mut places = Vec::new(alloc);
    push_all(&mut places, d, models)?;
    places.reverse();
    Ok(places)
}

/// The places of all records, the last of the last model first, since what names a record mostly
/// stands behind it.
pub(crate) fn all_places(alloc: Global, s: &Schema, d: &Database) -> Result<Vec<Place>, AllocError>
    requires { HasNoFurtherTables (schema_of s.now) d.now }
    ensures { IfOk result (λ places. HasAll d.now places.items) }
{
    let places = places_behind(alloc, d, s.models.as_slice())?;
    Ok(places)
}
