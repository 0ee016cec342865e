//! Why a tree has no type.

ghost use Rattle.type_typing.specs.declared.type_err.TypeErr.TheVariants.{OutOfMemory};
ghost use Rattle.std.specs.Prelude.{◌≡◌};

use std::alloc::{AllocError, AllocFailed};
use thiserror::Error;
use type_schema::{FieldNo, ModelNo, Right, Target};

/// What still uses a field, a model or a static, by the numbers of the schema before the command.
#[derive(Clone, Copy, Debug, PartialEq, Eq)]
pub enum UsedBy {
    /// The policy of the right on the target.
    Policy(Target, Right),
    /// The type of the field.
    FieldType(ModelNo, FieldNo),
}

/// What typing answers in place of a typed tree. `at` is the offset of a token.
#[derive(Clone, Copy, Debug, PartialEq, Eq, Error)]
pub enum TypeErr {
    /// A name of nothing that is there.
    #[error("unknown at {at}")]
    Unknown { at: u32 },
    /// A name that is already there, a variable already in scope, or a principal that is one.
    #[error("twice at {at}")]
    Twice { at: u32 },
    /// Another type than the place asks.
    #[error("wrong type at {at}")]
    WrongType { at: u32 },
    /// Ids of a model without the mark in what a policy allows.
    #[error("not principal at {at}")]
    NotPrincipal { at: u32 },
    /// What a command removes is used; this is the first user in the order of the schema.
    #[error("still used at {at}")]
    StillUsed { at: u32, by: UsedBy },
    /// The reason is the empty text.
    #[error("empty reason at {at}")]
    EmptyReason { at: u32 },
    /// A policy or an initialiser that becomes too large a formula, and the size of it.
    #[error("expanded {count} at {at}")]
    Expanded { at: u32, count: u32 },
    /// One model, static or field too many.
    #[error("crowded at {at}")]
    Crowded { at: u32 },
    /// There was no memory for the typed tree.
    #[error("out of memory")]
    OutOfMemory,
}

impl From<AllocError> for TypeErr {
    ghost from_gives = { λ _ err. err ≡ OutOfMemory };

    fn from(_e: AllocError) -> TypeErr {
        TypeErr::OutOfMemory
    }
}

impl<T: Drop> From<AllocFailed<T>> for TypeErr {
    ghost from_gives = { λ _ err. err ≡ OutOfMemory };

    fn from(_e: AllocFailed<T>) -> TypeErr {
        TypeErr::OutOfMemory
    }
}
