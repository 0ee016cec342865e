//! How a run ended.

ghost use Rattle.std.specs.Prelude.{◌≡◌};
ghost use Rattle.std.specs.Process.{exit_status};
ghost use Rattle.app_files.specs.Status.{code_of};

use std::process::ExitCode;

/// How a run ended, with its exit status.
#[derive(Clone, Copy, Debug, PartialEq, Eq)]
pub enum Status {
    /// The command was done; of a check, no command of the script gains anybody a right that it
    /// does not declare.
    Done = 0,
    /// The words are no command.
    Usage = 2,
    /// There is no file of a name.
    Missing = 3,
    /// A file spells no tree of the language.
    TextRefused = 4,
    /// A file spells a tree that is not well typed.
    TypesRefused = 5,
    /// A command gains somebody a right, or lets somebody read what nobody let them read; the
    /// witness is printed.
    Leak = 6,
    /// An obligation could not be decided: its formula is not stratified.
    Undecided = 7,
    /// The formula of an obligation is too large.
    TooLarge = 8,
    /// The store holds what the command does not ask for: something already, nothing yet, or what
    /// can be migrated no more.
    StoreState = 9,
    /// The shelf met a fault.
    ReadFault = 10,
    /// The output met a fault: of the report of another status a front was written.
    WriteFault = 11,
    /// The store met a fault.
    StoreFault = 12,
    /// There was not enough memory.
    OutOfMemory = 13,
    /// A file is above the limit, or the input of `serve` is.
    TooLong = 14,
    /// A certificate is bad: a line of it is not the next one.
    BadCertificate = 16,
}

impl Status {
    /// The exit status.
    pub fn code(self) -> u8
        ensures { result ≡ code_of self }
    {
        self as u8
    }
}

impl From<Status> for ExitCode {
    ghost from_gives = { λ status exit. exit_status exit ≡ code_of status };

    fn from(status: Status) -> ExitCode {
        ExitCode::from(status.code())
    }
}
