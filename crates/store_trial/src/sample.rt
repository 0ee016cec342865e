//! A store as rows and as text, and keepers that hold it.

ghost use Rattle.std.specs.Prelude.{IfSome};
ghost use Rattle.store_keeper.specs.Stored.{IsStored, stored_of};

use crate::databases::database_of;
use std::alloc::Global;
use store_keeper::{KeepErr, Keeper, MemKeeper, Stored, SureKeeper};
use store_show::print_stored;
use store_sqlite::SqlKeeper;

/// A store as the statements that make its rows, and as the text that `show` prints of it.
#[derive(Clone, Copy)]
pub struct Sample<'t> {
    /// The statements.
    pub rows: &'t str,
    /// The text.
    pub shown: &'t [u8],
}

/// A word for the answer of a write.
pub fn word_for(answer: Result<(), KeepErr>) -> &'static str {
    match answer {
        Ok(()) => "done",
        Err(KeepErr::Failed) => "failed",
        Err(KeepErr::OutOfMemory) => "out of memory",
    }
}

/// What a database in memory stores that the statements make.
pub(crate) fn stored_of_rows(alloc: Global, rows: &str) -> Option<Stored>
    ensures { IfSome result (λ s. IsStored (stored_of s)) }
{
    let conn = database_of(alloc, rows).ok()?;
    let mut keeper = SqlKeeper::new(conn);
    match keeper.load(alloc) {
        Ok(found) => found,
        Err(_) => None,
    }
}

impl Sample<'_> {
    /// Whether `show` prints the sample's text of what is stored.
    fn is_shown_of(self, alloc: Global, held: &Stored) -> bool {
        match print_stored(alloc, held) {
            Ok(text) => text.as_slice() == self.shown,
            Err(_) => false,
        }
    }

    /// A word for what the keeper holds.
    pub fn word<K: Keeper>(self, alloc: Global, keeper: &mut K) -> &'static str {
        match keeper.load(alloc) {
            Ok(None) => "nothing",
            Ok(Some(held)) if self.is_shown_of(alloc, &held) => "the sample",
            Ok(Some(_)) => "something else",
            Err(KeepErr::Failed) => "failed",
            Err(KeepErr::OutOfMemory) => "out of memory",
        }
    }

    /// A word for the answer where the sample replaces what the keeper holds.
    pub fn replaces<K: Keeper>(self, alloc: Global, keeper: &mut K) -> &'static str {
        match stored_of_rows(alloc, self.rows) {
            Some(s) => word_for(keeper.replace(alloc, &s)),
            None => "no sample",
        }
    }

    /// A keeper in memory that holds the sample and fails in the calls of these numbers.
    pub fn mem_keeper(self, alloc: Global, failing: Vec<u64>) -> MemKeeper {
        MemKeeper::new(alloc, stored_of_rows(alloc, self.rows), failing)
    }

    /// A keeper in memory that holds the sample and never fails.
    pub fn sure_keeper(self, alloc: Global) -> SureKeeper {
        SureKeeper::new(alloc, stored_of_rows(alloc, self.rows))
    }
}
