//! Names and reasons at their places.

ghost use Rattle.std.specs.Prelude.{IfOk, ◌≡◌};

use std::alloc::{AllocError, Global};
use text_ast::{Name, Txt};

/// A name in a tree, and the offset of its first byte in the text.
#[derive(Debug, Drop)]
pub struct Named {
    pub name: Name,
    pub at: u32,
}

impl Named {
    /// An equal name at the same offset.
    pub fn copy(&self, alloc: Global) -> Result<Named, AllocError>
        ensures { IfOk result (λ copy. copy ≡ self.now) }
    {
        let name = self.name.copy(alloc)?;
        Ok(Named { name, at: self.at })
    }
}

/// A reason in a tree, and the offset of its opening quote in the text.
#[derive(Debug, Drop)]
pub struct Reason {
    pub text: Txt,
    pub at: u32,
}

impl Reason {
    /// An equal reason at the same offset.
    pub fn copy(&self, alloc: Global) -> Result<Reason, AllocError>
        ensures { IfOk result (λ copy. copy ≡ self.now) }
    {
        let text = self.text.copy(alloc)?;
        Ok(Reason { text, at: self.at })
    }
}
