//! The program tried on words and files, for tests: `run` without its clauses, so that what calls
//! it is proved in a moment. Nothing is promised here.
//!
//! | module | holds |
//! |---|---|
//! | `memory` | `File`, `Ended`, `run_over` and its like, over objects in memory |
//! | `stored` | what is stored, under another version |
//! | `texts` | `check_bytes`, over texts that nobody fetches |
//! | `program` | `run_over_input` over any objects, and `run_over_objects` without an input |
#![tactic(auto)]

mod memory;
mod program;
mod stored;
mod texts;

pub use memory::{
    Ended, Failing, File, Input, check_texts, run_failing, run_over, run_over_store,
    run_with_input, words_of,
};
pub use program::{run_over_input, run_over_objects};
pub use stored::at_last_version;
pub use texts::check_bytes;
