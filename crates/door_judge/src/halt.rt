//! Why a request goes no further.

ghost use Rattle.std.specs.Prelude.{◌≡◌};
ghost use Rattle.door_judge.specs.declared.halt.Halt.TheVariants.{OutOfMemory};

use door_meaning::Reply;
use std::alloc::{AllocError, AllocFailed};

/// Why a request goes no further: it has its reply, or there is no memory for it.
#[derive(Drop)]
pub enum Halt {
    Replied(Reply),
    OutOfMemory,
}

impl From<AllocError> for Halt {
    ghost from_gives = { λ _ halt. halt ≡ OutOfMemory };

    fn from(_e: AllocError) -> Halt {
        Halt::OutOfMemory
    }
}

impl<T: Drop> From<AllocFailed<T>> for Halt {
    ghost from_gives = { λ _ halt. halt ≡ OutOfMemory };

    fn from(_e: AllocFailed<T>) -> Halt {
        Halt::OutOfMemory
    }
}
