//! Why the terms of a formula are not listed.

ghost use Rattle.std.specs.Prelude.{◌≡◌};
ghost use Rattle.ground_terms.specs.declared.ground_err.GroundErr.TheVariants.{OutOfMemory};

use std::alloc::AllocError;
use thiserror::Error;

/// Why the terms of a formula are not listed.
#[derive(Clone, Copy, Debug, PartialEq, Eq, Error)]
pub enum GroundErr {
    /// The formula has too many terms, or too many nodes where each `forall` is written out over
    /// its terms. Both counts stay at the last number of 64 bits.
    #[error("too large: {terms} terms and {nodes} nodes")]
    TooLarge { terms: u64, nodes: u64 },
    #[error("out of memory")]
    OutOfMemory,
}

impl From<AllocError> for GroundErr {
    ghost from_gives = { λ _ error. error ≡ OutOfMemory };

    fn from(_error: AllocError) -> GroundErr {
        GroundErr::OutOfMemory
    }
}
