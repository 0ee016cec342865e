//! Names that were fetched, as objects in memory keep them.
ghost use Rattle.std.specs.Prelude.{◌≡◌, [], ◌∷◌, ◌++◌, Some, OnOk};
ghost use Rattle.std.specs.Option.{option_copied};
ghost use Rattle.app_flow.specs.Told.{Appends};

use std::alloc::{AllocError, Global};
use std::marker::Model;

/// A name of a file.
#[derive(Drop)]
pub struct FileName {
    bytes: Vec<u8>,
}

impl Model for FileName {
    ghost use Rattle.std.specs.Prelude.{ℕ, List};

    ghost Value = { List ℕ };

    ghost view = { λ n. n.bytes.items };
}

impl FileName {
    /// The bytes of the name.
    pub fn bytes(&self) -> &[u8]
        ensures { result.now ≡ self.now }
    {
        self.bytes.as_slice()
    }
}

/// The names that were fetched, in their order, as long as there was memory for each.
#[derive(Drop)]
pub struct Fetched {
    names: Vec<FileName>,
    lost: bool,
}

impl Model for Fetched {
    ghost use Rattle.std.specs.Prelude.{ℕ, List, Option, None, Some, if◌then◌else◌};

    ghost Value = { Option (List (List ℕ)) };

    ghost view = { λ f. if f.lost then None else Some f.names.items };
}

impl Fetched {
    /// Nothing was fetched.
    pub fn new(alloc: Global) -> Fetched
        ensures { result ≡ Some [] }
    {
        Fetched {
            names: Vec::new(alloc),
            lost: false,
        }
    }

    /// The names, or `None` where there was no memory for one of them.
    pub fn names(&self) -> Option<&[FileName]>
        ensures { option_copied result ≡ self.now }
    {
        if self.lost {
            return None;
        }
        Some(self.names.as_slice())
    }

    /// Keeps one more name. Where there is no memory for it, no name is told any more.
    pub fn push(&mut self, alloc: Global, name: &[u8]) -> Result<(), AllocError>
        ensures { Appends self.old self.new (name.now ∷ []) }
    {
        let pushed = push_name(alloc, &mut self.names, name);
        self.lost |= pushed.is_err();
        pushed
    }
}

/// Puts the name behind the others.
fn push_name(alloc: Global, names: &mut Vec<FileName>, name: &[u8]) -> Result<(), AllocError>
    ensures { OnOk result (names.new.items ≡ names.old.items ++ name.now ∷ []) }
{
    let bytes = Vec::from_slice(alloc, name)?;
    names.push(FileName { bytes }).map_err(AllocError::from)
}
