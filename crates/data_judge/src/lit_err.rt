//! Why literals name no value or row.

ghost use Rattle.std.specs.Prelude.{◌≡◌};
ghost use Rattle.data_judge.specs.declared.lit_err.LitErr.TheVariants.{OutOfMemory};

use std::alloc::AllocError;
use thiserror::Error;
use type_schema::FieldNo;

/// Why literals name no value, or no row of a model.
#[derive(Clone, Copy, Debug, PartialEq, Eq, Error)]
pub enum LitErr {
    /// The first name, counted from 0, of no field of the model.
    #[error("the name {place} is of no field")]
    Unknown { place: usize },
    /// The first field, in the order of the model, that is not given once with a value of its type.
    #[error("what is given for field {field} is not of its type")]
    WrongShape { field: FieldNo },
    #[error("out of memory")]
    OutOfMemory,
}

impl From<AllocError> for LitErr {
    ghost from_gives = { λ _ err. err ≡ OutOfMemory };

    fn from(_e: AllocError) -> LitErr {
        LitErr::OutOfMemory
    }
}
