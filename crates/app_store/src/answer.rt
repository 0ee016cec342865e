//! What commands over the store answer.

ghost use Rattle.std.specs.Prelude.{◌≡◌};
ghost use Rattle.app_files.specs.Ends.{IsCutOff};
ghost use Rattle.app_store.specs.Answer as spec;

use crate::stop::StoreRefusal;
use app_files::{Checked, Refusal, Status};
use store_keeper::Stored;

/// What a command over the store answers.
#[derive(Drop)]
pub enum StoreAnswer {
    /// This is to be stored, where nothing is.
    Initialised(Stored),
    /// A script was checked, and nothing is to be stored.
    Checked(Checked),
    /// A script was accepted, with so many obligations, and this is to be stored.
    Applied(u64, Stored),
    /// This is stored.
    Shown(Stored),
    /// A file is refused.
    FilesRefused(Refusal),
    /// The command or its data are refused.
    Refused(StoreRefusal),
}

impl StoreRefusal {
    /// The status that goes with the refusal.
    pub fn status(&self) -> Status
        ensures found { result ≡ spec.store_refusal_status self.now }
        ensures decided { ¬ (IsCutOff result) }
    {
        match self {
            StoreRefusal::IsSet | StoreRefusal::IsEmpty | StoreRefusal::IsSpent => {
                Status::StoreState
            }
            StoreRefusal::Data(..) => Status::TypesRefused,
        }
    }
}

impl StoreAnswer {
    /// The status that goes with the answer.
    pub fn status(&self) -> Status
        ensures found { result ≡ spec.status_of self.now }
        ensures decided { ¬ (IsCutOff result) }
    {
        match self {
            StoreAnswer::Initialised(_) | StoreAnswer::Applied(..) | StoreAnswer::Shown(_) =>
                Status::Done,
            StoreAnswer::Checked(checked) => checked.status(),
            StoreAnswer::FilesRefused(refusal) => refusal.status(),
            StoreAnswer::Refused(refusal) => refusal.status(),
        }
    }
}
