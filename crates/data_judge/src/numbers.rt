//! Sets of numbers.

ghost use Rattle.std.specs.Prelude.{◌≡◌, [], IfOk, OnOk, not};
ghost use Rattle.data_judge.specs.Faults.{has};
ghost use Rattle.data_judge.specs.Meaning.{with_number};

use sqlite_items::Items;
use std::alloc::{AllocError, Global};
use std::collections::BTreeSet;
use std::marker::Model;

/// A set of numbers. Contracts see them rising.
#[derive(Drop)]
pub(crate) struct Numbers {
    set: BTreeSet<u64>,
}

impl Model for Numbers {
    ghost use Rattle.std.specs.Prelude.{ℕ, List};

    ghost Value = { List ℕ };

    ghost view = { λ n. n.set.keys };
}

impl Numbers {
    /// No number.
    pub(crate) fn new(alloc: Global) -> Numbers
        ensures { result ≡ [] }
    {
        Numbers {
            set: BTreeSet::new(alloc),
        }
    }

    /// Puts in a number, and says whether it is new.
    pub(crate) fn add(&mut self, number: u64) -> Result<bool, AllocError>
        ensures new { IfOk result (λ new. new ≡ not (has self.old number)) }
        ensures with { OnOk result (self.new ≡ with_number self.old number) }
    {
        let new = self.set.insert(number)?;
        Ok(new)
    }

    /// The numbers, rising.
    pub(crate) fn into_items(self, alloc: Global) -> Result<Items<u64>, AllocError>
        ensures { IfOk result (λ items. items ≡ self) }
    {
        let Numbers { set } = self;
        let numbers: Vec<u64> = set.into_iter().collect(alloc)?;
        Ok(Items::from_vec(numbers))
    }
}
