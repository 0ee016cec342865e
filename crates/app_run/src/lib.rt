//! The program as one call.
//!
//! `run` answers the words of the command line over the objects that it is handed: a shelf of files,
//! a source of lines, a keeper of what is stored, and a sink for the report.
//!
//! | module | holds |
//! |---|---|
//! | `program` | `run` |
//! | `surely` | `run` over objects that never fail |
#![tactic(auto)]

mod program;
mod surely;

pub use program::run;
pub use surely::run_surely;
