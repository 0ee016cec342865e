//! Bytes that are read from outside, and the lines that they make up.
//!
//! A [`Source`] gives bytes in order, counts the faults that it meets, and may tell contracts what
//! is left. A [`LineBuf`] takes bytes from one and gives the lines, one a call.
//!
//! - `source`: the trait, why reading stops, and [`read_all`].
//! - `memory`: sources that tell what is left: one that fails on purpose ([`MemSource`]), and one
//!   that never fails ([`SureSource`]).
//! - `system`: [`StdSource`] over standard input, which tells nothing.
//! - `lines`: [`LineBuf`] and [`Line`].
#![tactic(auto)]

mod find;
pub mod lines;
pub mod memory;
pub mod source;
pub mod system;
#[cfg(test)]
mod tests;

pub use lines::{Line, LineBuf};
pub use memory::{MemSource, SureSource};
pub use source::{FlowErr, Source, read_all};
pub use system::StdSource;
