//! Signatures.

ghost use Rattle.std.specs.Prelude.{◌∷◌, [], IsTrue};
ghost use Rattle.form_formula.specs.Signature.{is_signature};

use form_formula::{FunSig, Range, SetSig, Signature};
use sqlite_items::Items;
use std::alloc::{AllocError, Global};

/// Two sorts, and a set relation from the second to the first.
pub(crate) fn related_back(alloc: Global) -> Result<Signature, AllocError> {
    Ok(Signature {
        sorts: 2,
        funs: Items::new(alloc),
        sets: Items::from_slice(alloc, &[SetSig { from: 1, to: 0 }])?,
    })
}

/// One sort, and a set relation between its elements.
pub(crate) fn related_within(alloc: Global) -> Result<Signature, AllocError> {
    Ok(Signature {
        sorts: 1,
        funs: Items::new(alloc),
        sets: Items::from_slice(alloc, &[SetSig { from: 0, to: 0 }])?,
    })
}

/// Two sorts, and a function from the first that gives this.
pub(crate) fn function_to(alloc: Global, to: Range, partial: bool) -> Result<Signature, AllocError>
    requires { IsTrue (is_signature 2 (record { from = 0; to = to; partial = partial } ∷ []) []) }
{
    let sig = FunSig {
        from: 0,
        to,
        partial,
    };
    Ok(Signature {
        sorts: 2,
        funs: Items::from_slice(alloc, &[sig])?,
        sets: Items::new(alloc),
    })
}
