//! What the program reads from and writes to outside itself.
//!
//! A [`Shelf`] gives files by name and a [`Sink`] takes bytes. Each counts the faults that it meets
//! and may tell its content to contracts. The program is written over these traits alone.
//!
//! - `outside`: the traits, their errors, and [`put_all`].
//! - `memory_sinks` and `memory_shelves`: objects that tell their content, those that fail on
//!   purpose ([`MemSink`], [`MemShelf`]) and those that never fail ([`SureSink`], [`SureShelf`]).
//! - `names`: [`FileName`], and the names that an object in memory was asked for.
//! - `system`: [`StdSink`] over standard output, and [`DirShelf`] over the [`CurrentFolder`], which
//!   tell nothing.
#![tactic(auto)]

pub mod memory_shelves;
pub mod memory_sinks;
pub mod names;
pub mod outside;
pub mod system;
#[cfg(test)]
mod tests;

pub use memory_shelves::{MemFile, MemShelf, SureShelf};
pub use memory_sinks::{MemSink, SureSink};
pub use names::FileName;
pub use outside::{Failed, Found, Shelf, ShelfErr, Sink, put_all};
pub use system::{CurrentFolder, DirShelf, Folder, StdSink};
