//! Where keys stand in a list.

ghost use Rattle.std.specs.Prelude.{◌≡◌, ◌<◌, ◌^◌, length, IfOk, map};
ghost use Rattle.duty_meaning.specs.Structures.{before};
ghost use Rattle.duty_numbering.specs.Places.{AreFirsts};

use indexmap::IndexMap;
use std::alloc::{AllocError, Global};
use std::hash::Hash;
use std::marker::Model;

/// A list of keys, in which the place of each is found in near constant time. Contracts see the
/// list.
#[derive(Drop)]
pub(crate) struct Places<K: Eq + Hash> {
    keys: Vec<K>,
    firsts: IndexMap<K, u32>,
}

impl<K: Eq + Hash> Model for Places<K> {
    ghost use Rattle.std.specs.Prelude.{List, length, ◌<◌, ◌^◌, ◌≡◌};
    ghost use Rattle.std.specs.List.{position_from};
    ghost use Rattle.indexmap.specs.IndexMap.{get};

    ghost Value = { List K };

    ghost view = { λ p. p.keys.items };

    ghost invariant = { λ p. (length p.keys.items < 2 ^ 32)
        × ((k : K) → get K.eq p.firsts k ≡ position_from (λ x. K.eq x k) 0 p.keys.items) };
}

/// For each key the first place at which it stands.
fn firsts_of<K: Eq + Hash + Copy + Drop>(
    alloc: Global,
    keys: &[K],
) -> Result<IndexMap<K, u32>, AllocError>
    requires { length keys.now < 2 ^ 32 }
    ensures { IfOk result (λ firsts. AreFirsts K.eq keys.now firsts) }
{
    let mut firsts = IndexMap::new(alloc);
    let mut place = keys.len();
    while place > 0 {
        place -= 1;
        firsts.insert(keys[place], place as u32)?;
    }
    Ok(firsts)
}

impl<K: Eq + Hash + Copy + Drop> Places<K> {
    /// The list of these keys. Four thousand million of them count as memory that is not there.
    pub(crate) fn of(alloc: Global, keys: Vec<K>) -> Result<Places<K>, AllocError>
        ensures { IfOk result (λ places. places ≡ keys.items) }
    {
        if keys.len() >= u32::MAX as usize {
            return Err(AllocError);
        }
        let firsts = firsts_of(alloc, keys.as_slice())?;
        Ok(Places { keys, firsts })
    }

    /// How many keys there are.
    pub(crate) fn len(&self) -> u32
        ensures { result ≡ length self.now }
    {
        self.keys.as_slice().len() as u32
    }

    /// How many keys stand before the first that is equal to this one.
    pub(crate) fn place_of(&self, key: K) -> u32
        ensures { result ≡ before (λ x. K.eq x key) self.now }
    {
        match self.firsts.get(&key) {
            Some(place) => *place,
            None => self.keys.as_slice().len() as u32,
        }
    }
}
