//! Why a part was not written.

ghost use Rattle.std.specs.Prelude.{◌≡◌};
ghost use Rattle.certify_making.specs.declared.fault.CertErr.TheVariants.{OutOfMemory, WriteFault};

use app_flow::Failed;
use std::alloc::AllocError;
use thiserror::Error;

/// Why `certify` did not write a part.
#[derive(Clone, Copy, Debug, PartialEq, Eq, Error)]
pub enum CertErr {
    /// Some assignment is lawful for the clauses, so there is no lawful tree.
    #[error("the clauses are not refuted")]
    NotRefuted,
    /// The sink met a fault, which it counted.
    #[error("a fault of the output")]
    WriteFault,
    /// There was no memory for the part.
    #[error("out of memory")]
    OutOfMemory,
}

impl From<AllocError> for CertErr {
    ghost from_gives = { λ _ error. error ≡ OutOfMemory };

    fn from(_error: AllocError) -> CertErr {
        CertErr::OutOfMemory
    }
}

impl From<Failed> for CertErr {
    ghost from_gives = { λ _ error. error ≡ WriteFault };

    fn from(_error: Failed) -> CertErr {
        CertErr::WriteFault
    }
}
