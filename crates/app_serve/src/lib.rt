//! `serve` as one call: the lines of an input, answered one after another over what is stored.
//!
//! `run_serve` asks the store what it holds, and then reads the input line by line. The door answers
//! each line, and its reply is put out before the next line is looked at, so a person or a program
//! can talk to it. What the output and the store hold at the end is that of the one run of the door
//! over the lines that were answered.
//!
//! | module | holds |
//! |---|---|
//! | `program` | `run_serve` |
//! | `service` | the lines of an input and their replies |
//! | `serve_err` | why a run ends before its input |
//! | `words` | the words of `serve` |
#![tactic(auto)]

mod program;
mod serve_err;
mod service;
mod words;

pub use program::run_serve;
pub use words::is_serve;
