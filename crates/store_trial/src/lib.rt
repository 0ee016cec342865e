//! Keepers tried, for tests: what they hold and what they answer, each in a word, and no clause. So
//! what calls this is proved in a moment. Nothing is promised here.
//!
//! | module | holds |
//! |---|---|
//! | `sample` | [`Sample`]: a store as rows and as text, what keepers hold of it, and writes of it |
//! | `records` | single records of it that are put and dropped |
//! | `databases` | databases in memory, and what a query prints |
#![tactic(auto)]

mod databases;
mod records;
mod sample;

pub use databases::{database_of, file_prints, prints};
pub use records::{dropped, put};
pub use sample::{Sample, word_for};
