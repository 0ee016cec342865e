//! Lists of ground terms.

ghost use Rattle.std.specs.Prelude.{◌≡◌, ℕ, Some, length, slice_get};
ghost use Rattle.ground_terms.specs.Nodes.{IsOne};

use crate::TermArena;

/// Ground terms, by their numbers. Contracts see the list of the terms (`terms_in`).
#[derive(Drop)]
pub struct Terms {
    pub(crate) arena: TermArena,
    pub(crate) ids: Vec<u32>,
    ghost ones: { (k id : ℕ) → slice_get ids.items k ≡ Some id → IsOne arena id },
}

impl Terms {
    ghost use Rattle.ground_terms.specs.Standing.{AreTermsAt};
    ghost use Rattle.ground_terms.specs.TermLists.{terms_in};

    /// How many terms there are.
    pub fn len(&self) -> usize
        ensures { result ≡ length (terms_in self.now) }
    {
        self.ids.len()
    }

    /// Numbered terms, and the numbers of those in the list.
    pub fn into_parts(self) -> (TermArena, Vec<u32>)
        ensures { AreTermsAt result.0 result.1.items (terms_in self) }
    {
        let Terms { arena, ids } = self;
        (arena, ids)
    }
}
