//! Lists without the items that stand again.

ghost use Rattle.std.specs.Prelude.{◌≡◌, ◌==◌, ℕ, ◌<◌, ◌∷◌, [], List, vec_len, IfOk, OnOk, All};
ghost use Rattle.form_terms.specs.Listing.{unique};
ghost use Rattle.ground_terms.specs.Keeping.{IsKeeper, AreBelow};

use crate::chain::push_reversed;
use std::alloc::{AllocError, Global};

/// The items of a list that was gone through from its end, each where it stands last.
#[derive(Debug, Drop)]
pub(crate) struct Keeper {
    /// For each number whether it is among the items.
    pub(crate) seen: Vec<bool>,
    pub(crate) kept: Vec<u32>,
}

impl Keeper {
    /// Goes on to an item, which is kept if it was not seen.
    fn keep(&mut self, item: u32) -> Result<(), AllocError>
        requires { item < vec_len self.old.seen }
        ensures size { OnOk result (vec_len self.new.seen ≡ vec_len self.old.seen) }
        ensures kept { OnOk result ((later : List ℕ) → IsKeeper later self.old → IsKeeper (item ∷
            later) self.new) }
    {
        if self.seen[item as usize] {
            return Ok(());
        }
        self.seen[item as usize] = true;
        self.kept.push(item)?;
        Ok(())
    }
}

/// The items of a list, which are below a bound, each once, where it stands last.
pub(crate) fn unique(alloc: Global, items: &[u32], bound: usize) -> Result<Vec<u32>, AllocError>
    requires { AreBelow bound items.now }
    ensures { IfOk result (λ kept. kept.items ≡ unique (λ x y. x == y) items.now) }
{
    let mut keeper = Keeper {
        seen: vec![in alloc; false; bound]?,
        kept: Vec::new(alloc),
    };
    let mut left = items.len();
    'left: while left > 0 {
        left -= 1;
        keeper.keep(items[left])?;
    }
    let Keeper { seen: _, kept } = keeper;
    let mut firsts = Vec::new(alloc);
    push_reversed(kept, &mut firsts)?;
    Ok(firsts)
}
