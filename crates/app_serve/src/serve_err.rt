//! Why a run of `serve` ends before its input.

ghost use Rattle.std.specs.Prelude.{◌≡◌};
ghost use Rattle.app_serve.specs.Ends as spec;
ghost use Rattle.app_serve.specs.declared.serve_err.ServeErr.TheVariants.{OutOfMemory};

use app_files::Status;
use door_lines::FlowErr;
use door_meaning::PutErr;
use door_serve::DoorErr;
use std::alloc::AllocError;
use thiserror::Error;

/// Why a run ends before its input.
#[derive(Clone, Copy, Debug, PartialEq, Eq, Error)]
pub(crate) enum ServeErr {
    /// The input met a fault, or the shelf at a line that asks for a file.
    #[error("a fault of the input or of the shelf")]
    ReadFault,
    /// The output met a fault.
    #[error("a fault of the output")]
    WriteFault,
    /// The store met a fault.
    #[error("a fault of the store")]
    StoreFault,
    /// There was not enough memory.
    #[error("out of memory")]
    OutOfMemory,
    /// As much was read as may be.
    #[error("the limit of the input")]
    TooLong,
}

impl From<AllocError> for ServeErr {
    ghost from_gives = { λ _ err. err ≡ OutOfMemory };

    fn from(_error: AllocError) -> ServeErr {
        ServeErr::OutOfMemory
    }
}

impl From<FlowErr> for ServeErr {
    ghost from_gives = { λ flow err. err ≡ spec.of_flow flow };

    fn from(flow: FlowErr) -> ServeErr {
        match flow {
            FlowErr::ReadFault => ServeErr::ReadFault,
            FlowErr::TooLong { .. } | FlowErr::Budget => ServeErr::TooLong,
            FlowErr::OutOfMemory => ServeErr::OutOfMemory,
        }
    }
}

impl From<DoorErr> for ServeErr {
    ghost from_gives = { λ door err. err ≡ spec.of_door door };

    fn from(door: DoorErr) -> ServeErr {
        match door {
            DoorErr::ReadFault => ServeErr::ReadFault,
            DoorErr::StoreFault => ServeErr::StoreFault,
            DoorErr::OutOfMemory => ServeErr::OutOfMemory,
        }
    }
}

impl From<PutErr> for ServeErr {
    ghost from_gives = { λ put err. err ≡ spec.of_put put };

    fn from(put: PutErr) -> ServeErr {
        match put {
            PutErr::WriteFault => ServeErr::WriteFault,
            PutErr::OutOfMemory => ServeErr::OutOfMemory,
        }
    }
}

impl From<ServeErr> for Status {
    ghost from_gives = { λ err status. status ≡ spec.status_of err };

    fn from(err: ServeErr) -> Status {
        match err {
            ServeErr::ReadFault => Status::ReadFault,
            ServeErr::WriteFault => Status::WriteFault,
            ServeErr::StoreFault => Status::StoreFault,
            ServeErr::OutOfMemory => Status::OutOfMemory,
            ServeErr::TooLong => Status::TooLong,
        }
    }
}
