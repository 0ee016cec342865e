//! Why a certificate was not written.

ghost use Rattle.std.specs.Prelude.{◌≡◌};
ghost use Rattle.certify_proving.specs.declared.fault.ProveErr.TheVariants.{OutOfMemory, WriteFault};

use app_flow::Failed;
use duty_meaning::Duty;
use std::alloc::AllocError;
use thiserror::Error;

/// Why `prove_script` did not write a certificate to its end.
#[derive(Clone, Copy, Debug, PartialEq, Eq, Error)]
pub enum ProveErr {
    /// Some assignment is lawful for the clauses of this obligation, so there is no part for it.
    #[error("the clauses of an obligation are not refuted")]
    NotRefuted(Duty),
    /// The sink met a fault, which it counted.
    #[error("a fault of the output")]
    WriteFault,
    /// There was no memory for what is due next.
    #[error("out of memory")]
    OutOfMemory,
}

impl From<AllocError> for ProveErr {
    ghost from_gives = { λ _ error. error ≡ OutOfMemory };

    fn from(_error: AllocError) -> ProveErr {
        ProveErr::OutOfMemory
    }
}

impl From<Failed> for ProveErr {
    ghost from_gives = { λ _ error. error ≡ WriteFault };

    fn from(_error: Failed) -> ProveErr {
        ProveErr::WriteFault
    }
}
