//! The first place of each key.

ghost use Rattle.std.specs.Prelude.{◌≡◌, ◌<◌, ℕ, None, Some, IfOk, OnOk};
ghost use Rattle.indexmap.specs.IndexMap.{get};
ghost use Rattle.decide_reading.specs.Firsts.{ArePlacesBelow, KeepsPlaces};

use indexmap::IndexMap;
use std::alloc::{AllocError, Global};
use std::hash::Hash;

/// Places of keys.
#[derive(Drop)]
pub(crate) struct Firsts<K: Eq + Hash> {
    pub(crate) places: IndexMap<K, usize>,
}

impl<K: Eq + Hash + Drop> Firsts<K> {
    /// No places.
    pub(crate) fn new(alloc: Global) -> Firsts<K>
        ensures { (k : K) → get K.eq result.places k ≡ None }
    {
        Firsts {
            places: IndexMap::new(alloc),
        }
    }

    /// The place of a key: that which was noted first, or this one where none was.
    pub(crate) fn first_of(&mut self, key: K, place: usize) -> Result<usize, AllocError>
        ensures is { IfOk result (λ first. get K.eq self.new.places key ≡ Some first) }
        ensures kept { OnOk result (KeepsPlaces (get K.eq self.old.places)
            (get K.eq self.new.places)) }
        ensures below { OnOk result ((n : ℕ) → place < n → ArePlacesBelow n
            (get K.eq self.old.places) → ArePlacesBelow n (get K.eq self.new.places)) }
    {
        if let Some(first) = self.places.get(&key).copied() {
            return Ok(first);
        }
        self.places.insert(key, place)?;
        Ok(place)
    }
}
