//! Why a stage of a command over the store passes nothing on.

ghost use Rattle.std.specs.Prelude.{◌≡◌};
ghost use Rattle.app_files.specs.declared.stop.Stop.TheVariants as stop;
ghost use Rattle.app_store.specs.Kept.{stop_of};
ghost use Rattle.app_store.specs.declared.stop.StoreStop.TheVariants.{Files};

use app_files::Stop;
use data_read::ReadErr;
use std::alloc::AllocError;
use store_keeper::KeepErr;
use text_ast::Txt;
use thiserror::Error;

/// Why what is stored does not allow the command, or why the data of `init` are refused.
#[derive(Debug, Drop, Error)]
pub enum StoreRefusal {
    /// Something is stored already.
    #[error("the store is set")]
    IsSet,
    /// Nothing is stored yet.
    #[error("the store is empty")]
    IsEmpty,
    /// What is stored has the last version.
    #[error("the version is spent")]
    IsSpent,
    /// The text in the file of that name writes no database, for this cause.
    #[error("data are refused: {1}")]
    Data(Txt, ReadErr),
}

/// Why a stage passes nothing on.
#[derive(Debug, Drop, Error)]
pub enum StoreStop {
    /// A stage over files stops.
    #[error("{0}")]
    Files(Stop),
    /// The command is refused.
    #[error("{0}")]
    Refused(StoreRefusal),
    /// The store met a fault, which it counted.
    #[error("a fault of the store")]
    StoreFault,
}

impl From<Stop> for StoreStop {
    ghost from_gives = { λ why stop. stop ≡ Files why };

    fn from(why: Stop) -> StoreStop {
        StoreStop::Files(why)
    }
}

impl From<AllocError> for StoreStop {
    ghost from_gives = { λ _ why. why ≡ Files stop.OutOfMemory };

    fn from(_error: AllocError) -> StoreStop {
        StoreStop::Files(Stop::OutOfMemory)
    }
}

impl From<KeepErr> for StoreStop {
    ghost from_gives = { λ err why. why ≡ stop_of err };

    fn from(err: KeepErr) -> StoreStop {
        match err {
            KeepErr::Failed => StoreStop::StoreFault,
            KeepErr::OutOfMemory => StoreStop::Files(Stop::OutOfMemory),
        }
    }
}
