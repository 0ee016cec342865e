//! Why the database gave no answer.

use data_read::ReadErr;
use sqlite::{Error, ErrorCode};
use sqlite_resolve::CompileError;
use std::alloc::{AllocError, AllocFailed};
use text_parse::SyntaxErr;
use type_typing::TypeErr;

/// Why the database gave no answer.
#[derive(Clone, Copy, Debug, PartialEq, Eq)]
pub(crate) enum Cause {
    /// It refused, or its rows are not what a store holds.
    Refused,
    OutOfMemory,
}

impl From<AllocError> for Cause {
    fn from(_error: AllocError) -> Cause {
        Cause::OutOfMemory
    }
}

impl<T: Drop> From<AllocFailed<T>> for Cause {
    fn from(_error: AllocFailed<T>) -> Cause {
        Cause::OutOfMemory
    }
}

impl From<Error> for Cause {
    fn from(error: Error) -> Cause {
        match error {
            Error::SqliteFailure(ErrorCode::OutOfMemory)
            | Error::SqlInputError(CompileError::OutOfMemory) => Cause::OutOfMemory,
            _ => Cause::Refused,
        }
    }
}

impl From<SyntaxErr> for Cause {
    fn from(error: SyntaxErr) -> Cause {
        match error {
            SyntaxErr::OutOfMemory => Cause::OutOfMemory,
            _ => Cause::Refused,
        }
    }
}

impl From<TypeErr> for Cause {
    fn from(error: TypeErr) -> Cause {
        match error {
            TypeErr::OutOfMemory => Cause::OutOfMemory,
            _ => Cause::Refused,
        }
    }
}

impl From<ReadErr> for Cause {
    fn from(error: ReadErr) -> Cause {
        match error {
            ReadErr::OutOfMemory => Cause::OutOfMemory,
            _ => Cause::Refused,
        }
    }
}
