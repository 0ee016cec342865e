//! What it is to be copied.

ghost use Rattle.std.specs.Prelude.{◌≡◌, IfOk};

use sqlite_items::Items;
use std::alloc::{AllocError, Global};

/// A tree, or a part of one, that can be copied.
pub trait Copied: Drop {
    /// An equal tree, offsets included, in memory of its own.
    fn copy(&self, alloc: Global) -> Result<Self, AllocError>
        ensures { IfOk result (λ copy. copy ≡ self.now) };
}

/// Equal items, in the same order.
pub fn copy_items<T: Copied + Drop>(alloc: Global, items: &[T]) -> Result<Items<T>, AllocError>
    ensures { IfOk result (λ copies. copies ≡ items.now) }
{
    let mut copies = Vec::new(alloc);
    for item in items {
        let copy = item.copy(alloc)?;
        copies.push(copy)?;
    }
    Ok(Items::from_vec(copies))
}

/// Two equal trees.
pub fn copy_both<A: Copied + Drop, B: Copied + Drop>(
    alloc: Global,
    one: &A,
    other: &B,
) -> Result<(A, B), AllocError>
    ensures one { IfOk result (λ copies. copies.0 ≡ one.now) }
    ensures other { IfOk result (λ copies. copies.1 ≡ other.now) }
{
    let one = one.copy(alloc)?;
    let other = other.copy(alloc)?;
    Ok((one, other))
}

impl<T: Copied + Drop> Copied for Option<T> {
    fn copy(&self, alloc: Global) -> Result<Option<T>, AllocError> {
        match self {
            Some(tree) => {
                let tree = tree.copy(alloc)?;
                Ok(Some(tree))
            }
            None => Ok(None),
        }
    }
}
