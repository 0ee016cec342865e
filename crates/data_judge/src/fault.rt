//! What is wrong with a database's text.

ghost use Rattle.std.specs.Prelude.{◌≡◌};
ghost use Rattle.data_judge.specs.declared.fault.Refusal.TheVariants.{OutOfMemory};

use data_records::Limit;
use std::alloc::AllocError;
use thiserror::Error;

/// A rule that a part breaks, and the offset of the part.
#[derive(Clone, Copy, Debug, PartialEq, Eq, Error)]
pub enum Fault {
    /// The name of no model of the schema, or of no field of the model.
    #[error("unknown at {at}")]
    Unknown { at: u32 },
    /// The brace that ends a record to which a field is not given.
    #[error("absent at {at}")]
    Absent { at: u32 },
    /// A model, record, field or id of a set that stood before.
    #[error("twice at {at}")]
    Twice { at: u32 },
    /// A value, or a part of one, that is not of the field's type.
    #[error("wrong shape at {at}")]
    WrongShape { at: u32 },
    /// The id of a record that is zero or not below the next, or a next that is out of range.
    #[error("bad id at {at}")]
    BadId { at: u32 },
}

/// Why the trees of a text are no database over a schema.
#[derive(Clone, Copy, Debug, PartialEq, Eq, Error)]
pub enum Refusal {
    /// The first part in reading order that breaks a rule.
    #[error("{0}")]
    Broken(Fault),
    /// The first id in a value that names no record.
    #[error("dangling at {at}")]
    Dangling { at: u32 },
    #[error("the database is full")]
    Full { what: Limit },
    #[error("out of memory")]
    OutOfMemory,
}

impl From<AllocError> for Refusal {
    ghost from_gives = { λ _ err. err ≡ OutOfMemory };

    fn from(_e: AllocError) -> Refusal {
        Refusal::OutOfMemory
    }
}
