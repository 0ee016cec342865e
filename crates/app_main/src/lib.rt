//! The program over the real objects: the words from the environment, the files of the current
//! folder, the store in it, the standard input and output, and the exit status.
//!
//! | module | holds |
//! |---|---|
//! | `arguments` | the words that the program's arguments are |
//! | `process` | `program`, and `run_to_exit` over any objects |
#![tactic(auto)]

mod arguments;
mod process;

pub use arguments::{one_empty_word, words_of};
pub use process::{program, run_to_exit};
