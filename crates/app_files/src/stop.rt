//! Why a stage passes nothing on.

ghost use Rattle.std.specs.Prelude.{◌≡◌};
ghost use Rattle.app_files.specs.declared.stop.Stop.TheVariants.{OutOfMemory};

use crate::refusal::Refusal;
use std::alloc::AllocError;
use thiserror::Error;

/// Why a stage passes nothing on.
#[derive(Debug, Drop, Error)]
pub enum Stop {
    /// The words are refused.
    #[error("the words are refused")]
    Refused(Refusal),
    /// The shelf met a fault, which it counted.
    #[error("a fault of the shelf")]
    ReadFault,
    /// There was not enough memory.
    #[error("out of memory")]
    OutOfMemory,
}

impl From<AllocError> for Stop {
    ghost from_gives = { λ _ stop. stop ≡ OutOfMemory };

    fn from(_error: AllocError) -> Stop {
        Stop::OutOfMemory
    }
}
