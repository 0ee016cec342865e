//! Keepers for a store that could not be opened. They tell nothing.
ghost use Rattle.std.specs.Prelude.{◌≡◌, ◌≤◌, None};
ghost use Rattle.app_flow.specs.Faults.{Rose, next_count};

use crate::keeper::{KeepErr, Keeper};
use crate::stored::Stored;
use data_records::Record;
use std::alloc::Global;
use std::marker::Model;
use type_schema::ModelInfo;

/// A keeper each of whose calls is a fault, which it counts.
#[derive(Drop)]
pub struct FailingKeeper {
    faults: u64,
}

impl Model for FailingKeeper {
    ghost use Rattle.std.specs.Prelude.{ℕ};

    ghost Value = { ℕ };

    ghost view = { λ k. k.faults };
}

impl FailingKeeper {
    /// The keeper before its first call.
    pub fn new() -> FailingKeeper
        ensures { result ≡ 0 }
    {
        FailingKeeper { faults: 0 }
    }

    /// How many calls there were.
    pub fn faults(&self) -> u64
        ensures { result ≡ self.now }
    {
        self.faults
    }

    /// Counts a fault.
    fn fail(&mut self) -> KeepErr
        ensures failed { result ≡ KeepErr.Failed }
        ensures counts { self.new ≡ next_count self.old }
        ensures rose { Rose self.old self.new }
        ensures never_falls { self.old ≤ self.new }
    {
        self.faults = self.faults.saturating_add(1);
        KeepErr::Failed
    }
}

impl Keeper for FailingKeeper {
    ghost told = { λ _. None };

    ghost calls = { λ _. None };

    ghost faults = { λ keeper. keeper };

    fn load(&mut self, _alloc: Global) -> Result<Option<Stored>, KeepErr>
        ensures failed { result ≡ Err KeepErr.Failed }
        ensures counts { self.new ≡ next_count self.old }
        ensures rose { Rose self.old self.new }
        ensures never_falls { self.old ≤ self.new }
    {
        Err(self.fail())
    }

    fn replace(&mut self, _alloc: Global, _s: &Stored) -> Result<(), KeepErr>
        ensures failed { result ≡ Err KeepErr.Failed }
        ensures counts { self.new ≡ next_count self.old }
        ensures rose { Rose self.old self.new }
        ensures never_falls { self.old ≤ self.new }
    {
        Err(self.fail())
    }

    fn put(&mut self, _alloc: Global, _info: &ModelInfo, _made: &Record) -> Result<(), KeepErr>
        ensures failed { result ≡ Err KeepErr.Failed }
        ensures counts { self.new ≡ next_count self.old }
        ensures rose { Rose self.old self.new }
        ensures never_falls { self.old ≤ self.new }
    {
        Err(self.fail())
    }

    fn drop_row(&mut self, _alloc: Global, _info: &ModelInfo, _id: u64) -> Result<(), KeepErr>
        ensures failed { result ≡ Err KeepErr.Failed }
        ensures counts { self.new ≡ next_count self.old }
        ensures rose { Rose self.old self.new }
        ensures never_falls { self.old ≤ self.new }
    {
        Err(self.fail())
    }
}

/// A keeper each of whose calls wants memory.
#[derive(Clone, Copy, Drop)]
pub struct OutOfMemoryKeeper;

impl Keeper for OutOfMemoryKeeper {
    ghost told = { λ _. None };

    ghost calls = { λ _. None };

    ghost faults = { λ _. 0 };

    fn load(&mut self, _alloc: Global) -> Result<Option<Stored>, KeepErr>
        ensures { result ≡ Err KeepErr.OutOfMemory }
    {
        Err(KeepErr::OutOfMemory)
    }

    fn replace(&mut self, _alloc: Global, _s: &Stored) -> Result<(), KeepErr>
        ensures { result ≡ Err KeepErr.OutOfMemory }
    {
        Err(KeepErr::OutOfMemory)
    }

    fn put(&mut self, _alloc: Global, _info: &ModelInfo, _made: &Record) -> Result<(), KeepErr>
        ensures { result ≡ Err KeepErr.OutOfMemory }
    {
        Err(KeepErr::OutOfMemory)
    }

    fn drop_row(&mut self, _alloc: Global, _info: &ModelInfo, _id: u64) -> Result<(), KeepErr>
        ensures { result ≡ Err KeepErr.OutOfMemory }
    {
        Err(KeepErr::OutOfMemory)
    }
}
