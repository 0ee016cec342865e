//! Lists of classes.

ghost use Rattle.std.specs.Prelude.{◌≡◌, [], ◌∷◌, ◌++◌, nat_eq, OnOk};
ghost use Rattle.std.specs.Cmp.Lexicographic.{pointwise};
ghost use Rattle.std.specs.Cmp.Rules.{comparing, hashing};
ghost use Rattle.std.specs.Hash as fed;
ghost use Rattle.std.proofs.Common.{rules};

use std::alloc::{AllocError, Global};
use std::hash::{Hash, Hasher};
use std::marker::Model;

/// The classes of arguments, in order. Contracts see the list.
#[derive(Debug, Drop)]
pub struct Classes {
    items: Vec<u32>,
}

impl Model for Classes {
    ghost use Rattle.std.specs.Prelude.{ℕ, List};

    ghost Value = { List ℕ };

    ghost view = { λ classes. classes.items.items };
}

impl Classes {
    /// No classes.
    pub fn new(alloc: Global) -> Classes
        ensures { result ≡ [] }
    {
        Classes {
            items: Vec::new(alloc),
        }
    }

    /// Puts a class at the end.
    pub fn push(&mut self, class: u32) -> Result<(), AllocError>
        ensures { OnOk result (self.new ≡ self.old ++ class ∷ []) }
    {
        self.items.push(class)?;
        Ok(())
    }
}

impl PartialEq for Classes {
    ghost eq = { pointwise nat_eq };

    ghost laws = { Prim.search (comparing, rules) };

    fn eq(&self, other: &Classes) -> bool {
        self.items.as_slice() == other.items.as_slice()
    }
}

impl Eq for Classes {
    ghost laws = { Prim.search (comparing, rules) };
}

impl Hash for Classes {
    ghost hash_input = { fed.slice fed.u32 };

    ghost respects_eq = { Prim.search (hashing, rules) };

    fn hash<H: Hasher>(&self, state: &mut H) {
        self.items.as_slice().hash(state);
    }
}
