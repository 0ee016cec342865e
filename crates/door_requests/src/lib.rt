//! Requests: their trees, how tokens spell them, and their parser.
//!
//! [`parse_request`] gives the request that a line spells, or a `SyntaxErr`: why it spells none, and
//! where. Each production is a function that equals the reader of its form (`specs/Reads.antt`;
//! the forms are data, in `specs/Grammar.antt`).
//!
//! | module | holds |
//! |---|---|
//! | `requests` | `Request` with its parts |
//! | `place` | where a value stands |
//! | `values`, `lists` | values, which nest |
//! | `rows` | new rows, and the conditions of `find` |
//! | `productions` | requests, by their first word |
//! | `texts` | whole lines |
//! | `laws` | what holds of any line |
#![tactic(auto)]

mod laws;
mod lists;
pub mod place;
mod productions;
mod requests;
mod rows;
#[cfg(test)]
mod tests;
mod texts;
mod values;

pub use laws::one_line;
pub use place::Place;
pub use requests::{Condition, Request, Who};
pub use texts::parse_request;
