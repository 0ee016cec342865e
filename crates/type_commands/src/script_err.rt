//! Why a script has no typed script.

ghost use Rattle.type_commands.specs.declared.script_err.ScriptErr.TheVariants.{OutOfMemory};
ghost use Rattle.std.specs.Prelude.{◌≡◌};

use std::alloc::{AllocError, AllocFailed};
use thiserror::Error;
use type_typing::TypeErr;

/// What typing a script answers in place of the typed script.
#[derive(Clone, Copy, Debug, PartialEq, Eq, Error)]
pub enum ScriptErr {
    /// The first bad command, counted from 1, and what is wrong with it.
    #[error("command {command}: {err}")]
    Bad { command: u32, err: TypeErr },
    /// There was no memory for the typed script.
    #[error("out of memory")]
    OutOfMemory,
}

impl From<AllocError> for ScriptErr {
    ghost from_gives = { λ _ err. err ≡ OutOfMemory };

    fn from(_e: AllocError) -> ScriptErr {
        ScriptErr::OutOfMemory
    }
}

impl<T: Drop> From<AllocFailed<T>> for ScriptErr {
    ghost from_gives = { λ _ err. err ≡ OutOfMemory };

    fn from(_e: AllocFailed<T>) -> ScriptErr {
        ScriptErr::OutOfMemory
    }
}
