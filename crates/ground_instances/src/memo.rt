//! The gates that were made.

ghost use Rattle.std.specs.Prelude.{◌≡◌, [], Contains, IfSome, OnOk};
ghost use Rattle.ground_instances.specs.Instances.{AddsEntry};

use crate::instance::Instance;
use indexmap::IndexMap;
use std::alloc::{AllocError, Global};

/// The gates that were made, by their instances.
#[derive(Drop)]
pub(crate) struct Memo {
    pub(crate) made: IndexMap<Instance, u32>,
}

impl Memo {
    /// No gates.
    pub(crate) fn new(alloc: Global) -> Memo
        ensures { result.made.entries ≡ [] }
    {
        Memo {
            made: IndexMap::new(alloc),
        }
    }

    /// The gate of an instance, if it was made.
    pub(crate) fn find(&self, instance: Instance) -> Option<u32>
        ensures { IfSome result (λ gate. Contains self.now.made.entries (instance, gate)) }
    {
        self.made.get(&instance).copied()
    }

    /// Keeps the gate of an instance.
    pub(crate) fn keep(&mut self, instance: Instance, gate: u32) -> Result<(), AllocError>
        ensures { OnOk result (AddsEntry self.old.made.entries instance gate self.new.made.entries) }
    {
        self.made.insert(instance, gate)?;
        Ok(())
    }
}
