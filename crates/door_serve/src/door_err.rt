//! Why a line has no reply.

ghost use Rattle.std.specs.Prelude.{◌≡◌};
ghost use Rattle.door_serve.specs.Changing.{ended};
ghost use Rattle.door_serve.specs.Kept.{err_of};
ghost use Rattle.door_serve.specs.declared.door_err.DoorErr.TheVariants.{OutOfMemory};

use door_judge::Halt;
use door_meaning::Reply;
use std::alloc::AllocError;
use store_keeper::KeepErr;
use thiserror::Error;

/// Why a line has no reply. The door and what is stored are as before.
#[derive(Clone, Copy, Debug, PartialEq, Eq, Error)]
pub enum DoorErr {
    /// The shelf met a fault, which it counted.
    #[error("a fault of the shelf")]
    ReadFault,
    /// The store met a fault, which it counted.
    #[error("a fault of the store")]
    StoreFault,
    /// There was no memory for the reply or for what the door keeps then.
    #[error("out of memory")]
    OutOfMemory,
}

impl From<AllocError> for DoorErr {
    ghost from_gives = { λ _ err. err ≡ OutOfMemory };

    fn from(_error: AllocError) -> DoorErr {
        DoorErr::OutOfMemory
    }
}

impl From<KeepErr> for DoorErr {
    ghost from_gives = { λ err door. door ≡ err_of err };

    fn from(err: KeepErr) -> DoorErr {
        match err {
            KeepErr::Failed => DoorErr::StoreFault,
            KeepErr::OutOfMemory => DoorErr::OutOfMemory,
        }
    }
}

/// How a request ends that goes no further.
pub(crate) fn ended(halt: Halt) -> Result<Reply, DoorErr>
    ensures { result ≡ ended halt }
{
    match halt {
        Halt::Replied(reply) => Ok(reply),
        Halt::OutOfMemory => Err(DoorErr::OutOfMemory),
    }
}
