//! Formulas written node by node into an arena, or only counted, up to a limit on their size.
//!
//! | module | holds |
//! |---|---|
//! | `term` | `Term`, a term that is handed on |
//! | `make_err` | why a formula is not written |
//! | `nodes` | terms and atoms as nodes |
//! | `writer` | `Writer`, which writes or counts |
//! | `makers` | its calls that write one node each |
#![tactic(auto)]

mod make_err;
mod makers;
mod nodes;
mod term;
mod writer;

pub use make_err::MakeErr;
pub use term::Term;
pub use writer::{Mode, Writer};
