//! The commands over the store, `init`, `check SCRIPT`, `apply SCRIPT` and `show`, as one call.
//!
//! `run_store` answers a command over the objects that it is handed: a shelf of files, a keeper of
//! what is stored, and a sink for the report. It goes through stages: the store is asked, then each
//! file is fetched, read and typed in turn, then the script is checked. The first stage that refuses
//! decides. What is to be stored and the report are made before the store is written, and only then
//! the report is put out.
//!
//! | module | holds |
//! |---|---|
//! | `program` | `run_store` |
//! | `words` | the command that the words are |
//! | `stop` | why a stage passes nothing on |
//! | `store` | what is stored, and whether it allows the command |
//! | `data` | the database that a file writes |
//! | `stages` | the stages of each command |
//! | `answer`, `report` | what is answered, and the texts that are printed |
//! | `limits` | how long the data of `init` may be |
//! | `laws` | that the answers to a command have one status |
#![tactic(auto)]

mod answer;
mod data;
mod laws;
mod limits;
mod program;
mod report;
mod stages;
mod stop;
mod store;
mod words;

pub use answer::StoreAnswer;
pub use laws::one_store_status;
pub use limits::{MOST_DATA_BYTES, data_limit_is};
pub use program::run_store;
pub use report::{print_applied, store_report_of};
pub use stop::{StoreRefusal, StoreStop};
pub use store::ask_held;
pub use words::{StoreCommand, store_command_of};
