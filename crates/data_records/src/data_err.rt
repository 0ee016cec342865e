//! Why a database is not changed.

ghost use Rattle.data_records.specs.declared.data_err.DataErr.TheVariants.{OutOfMemory};
ghost use Rattle.std.specs.Prelude.{◌≡◌};

use std::alloc::AllocError;
use thiserror::Error;
use type_schema::{FieldNo, ModelNo};

/// What a database may hold no more of.
#[derive(Clone, Copy, Debug, PartialEq, Eq)]
pub enum Limit {
    /// 20,000 records.
    Records,
    /// A weight of 33,554,432: 1 for each field, 1 for each byte of a text, 8 for each id of a set.
    Weight,
}

/// Why a change of a database was refused. The database is as it was.
#[derive(Clone, Copy, Debug, PartialEq, Eq, Error)]
pub enum DataErr {
    /// There is no record of the model with the id, or it has no such field.
    #[error("there is no such record")]
    NoRecord,
    /// The first field whose value is not of its type.
    #[error("the value of field {field} is not of its type")]
    WrongShape {
        field: FieldNo,
    },
    /// The first field with an id that names no record, and that id.
    #[error("field {field} names record {id}, which is not there")]
    Dangling {
        field: FieldNo,
        id: u64,
    },
    /// The first field of another record that holds the id.
    #[error("field {field} of record {id} of model {model} names the record")]
    Referenced {
        model: ModelNo,
        id: u64,
        field: FieldNo,
    },
    #[error("the ids of the model are spent")]
    IdsSpent,
    #[error("the database is full")]
    Full {
        what: Limit,
    },
    #[error("out of memory")]
    OutOfMemory,
}

impl From<AllocError> for DataErr {
    ghost from_gives = { λ _ err. err ≡ OutOfMemory };

    fn from(_e: AllocError) -> DataErr {
        DataErr::OutOfMemory
    }
}
