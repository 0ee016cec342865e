//! Why a certificate is refused.

ghost use Rattle.std.specs.Prelude.{◌≡◌};
ghost use Rattle.certify_recheck.specs.declared.fault.RecheckErr.TheVariants.{OutOfMemory};

use std::alloc::AllocError;
use thiserror::Error;

/// Why `recheck` gave no spot.
#[derive(Clone, Copy, Debug, PartialEq, Eq, Error)]
pub enum RecheckErr {
    /// The first line that is not the next one of a lawful part, or the number that a further line
    /// would have.
    #[error("bad line {line}")]
    BadLine { line: u64 },
    /// There was no memory for the path or the theories.
    #[error("out of memory")]
    OutOfMemory,
}

impl From<AllocError> for RecheckErr {
    ghost from_gives = { λ _ error. error ≡ OutOfMemory };

    fn from(_error: AllocError) -> RecheckErr {
        RecheckErr::OutOfMemory
    }
}
