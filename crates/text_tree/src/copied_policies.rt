//! Copies of policies and initialisers.

ghost use Rattle.std.specs.Prelude.{◌≡◌, IfOk};

use crate::copied::Copied;
use crate::{Init, Policy};
use std::alloc::{AllocError, Global};

impl Copied for Policy {
    fn copy(&self, alloc: Global) -> Result<Policy, AllocError> {
        match self {
            Policy::Everyone(at) => Ok(Policy::Everyone(*at)),
            Policy::Nobody(at) => Ok(Policy::Nobody(*at)),
            Policy::Fun(name, set) => {
                let name = name.copy(alloc)?;
                let set = set.copy(alloc)?;
                Ok(Policy::Fun(name, set))
            }
        }
    }
}

impl Copied for Init {
    fn copy(&self, alloc: Global) -> Result<Init, AllocError> {
        match self {
            Init::Plain(of) => {
                let of = of.copy(alloc)?;
                Ok(Init::Plain(of))
            }
            Init::OfSet(set) => {
                let set = set.copy(alloc)?;
                Ok(Init::OfSet(set))
            }
        }
    }
}
