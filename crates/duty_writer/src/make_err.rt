//! Why a formula is not written.

ghost use Rattle.std.specs.Prelude.{◌≡◌};
ghost use Rattle.duty_writer.specs.declared.make_err.MakeErr.TheVariants.{OutOfMemory};

use std::alloc::AllocError;
use thiserror::Error;

/// Why a formula is not written.
#[derive(Clone, Copy, Debug, PartialEq, Eq, Error)]
pub enum MakeErr {
    /// The formula is larger than what was left.
    #[error("too large")]
    Full,
    #[error("out of memory")]
    OutOfMemory,
}

impl From<AllocError> for MakeErr {
    ghost from_gives = { λ _ error. error ≡ OutOfMemory };

    fn from(_error: AllocError) -> MakeErr {
        MakeErr::OutOfMemory
    }
}
