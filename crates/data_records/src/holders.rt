//! Ids of records by the ids that they hold.

ghost use Rattle.std.specs.Prelude.{◌≡◌, ◌==◌, ℕ, true, IfOk, IsTrue, OnOk};
ghost use Rattle.std.specs.List.{list_any};
ghost use Rattle.data_records.specs.Namings.{ids_at, is_holder};
ghost use Rattle.data_records.specs.declared.holders.Place.{Place as AnyPlace};

use indexmap::IndexMap;
use std::alloc::{AllocError, Global};
use type_schema::{FieldNo, ModelNo};

/// A field of the records of a model, and an id that it may hold.
#[derive(Clone, Copy, Debug, PartialEq, Eq, Hash)]
pub(crate) struct Place {
    pub(crate) model: ModelNo,
    pub(crate) field: FieldNo,
    pub(crate) named: u64,
}

/// For each place the ids of the records that hold what it says, rising, and perhaps more.
#[derive(Drop)]
pub(crate) struct Holders {
    by: IndexMap<Place, Vec<u64>>,
}

/// Adds an id to rising ids, if it is not among them.
fn add(ids: &mut Vec<u64>, id: u64) -> Result<(), AllocError>
    ensures kept { (i : ℕ) → list_any (λ j. j == i) ids.old.items ≡ true →
        list_any (λ j. j == i) ids.new.items ≡ true }
    ensures added { OnOk result (list_any (λ j. j == id) ids.new.items ≡ true) }
{
    match ids.binary_search(&id) {
        Ok(_) => Ok(()),
        Err(at) => {
            ids.insert(at, id)?;
            Ok(())
        }
    }
}

/// Takes an id out of rising ids.
fn take(ids: &mut Vec<u64>, id: u64)
    ensures { (i : ℕ) → (i ≡ id → ⊥) → list_any (λ j. j == i) ids.old.items ≡ true →
        list_any (λ j. j == i) ids.new.items ≡ true }
{
    match ids.binary_search(&id) {
        Ok(at) => {
            let _taken = ids.remove(at);
        }
        Err(_) => {}
    }
}

/// A list of one id.
fn alone(alloc: Global, id: u64) -> Result<Vec<u64>, AllocError>
    ensures { IfOk result (λ ids. list_any (λ j. j == id) ids.items ≡ true) }
{
    let mut ids = Vec::new(alloc);
    ids.push(id)?;
    Ok(ids)
}

impl Holders {
    /// Nothing noted. It takes no memory.
    pub(crate) fn new(alloc: Global) -> Holders {
        Holders {
            by: IndexMap::new(alloc),
        }
    }

    /// The ids that are noted at the place.
    pub(crate) fn ids(&self, place: Place) -> &[u64]
        ensures { result.now ≡ ids_at self.now place }
    {
        match self.by.get(&place) {
            Some(ids) => ids.as_slice(),
            None => &[],
        }
    }

    /// Whether the id is noted at the place.
    pub(crate) fn has(&self, place: Place, id: u64) -> bool
        ensures { IsTrue result → is_holder self.now place id ≡ true }
    {
        match self.ids(place).binary_search(&id) {
            Ok(_) => true,
            Err(_) => false,
        }
    }

    /// Notes the id at the place. After an error what was noted is noted.
    pub(crate) fn note(&mut self, alloc: Global, place: Place, id: u64) -> Result<(), AllocError>
        ensures kept { (x : AnyPlace) (i : ℕ) → is_holder self.old x i ≡ true →
            is_holder self.new x i ≡ true }
        ensures noted { OnOk result (is_holder self.new place id ≡ true) }
    {
        match self.by.get_mut(&place) {
            Some(ids) => add(ids, id),
            None => {
                let ids = alone(alloc, id)?;
                self.by.insert(place, ids)?;
                Ok(())
            }
        }
    }

    /// Takes back that the id is noted at the place.
    pub(crate) fn forget(&mut self, place: Place, id: u64)
        ensures { (x : AnyPlace) (i : ℕ) → ((x ≡ place) × (i ≡ id) → ⊥) →
            is_holder self.old x i ≡ true → is_holder self.new x i ≡ true }
    {
        match self.by.get_mut(&place) {
            Some(ids) => take(ids, id),
            None => {}
        }
    }
}
