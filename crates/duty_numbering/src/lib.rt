//! The sorts, functions and set relations of a schema by number, its signature, and the structure
//! of a database over it.
//!
//! | module | holds |
//! |---|---|
//! | `places` | at which place of a list a key first stands |
//! | `spots` | the fields of a schema that are functions, and those that are set relations |
//! | `numbering` | `Numbering`, the numbers of sorts, functions and set relations |
//! | `laws` | laws over the definitions alone |
//! | `numbered` | a schema with its numbers |
//! | `signature` | [`signature_of`] |
//! | `link` | two models of a database, whose records are elements |
//! | `structure` | [`structure_of`] |
#![tactic(auto)]

mod laws;
mod link;
mod numbered;
mod numbering;
mod places;
mod signature;
mod spots;
mod structure;

pub use laws::start_types_are_there;
pub use numbering::Numbering;
pub use signature::signature_of;
pub use spots::Spot;
pub use structure::structure_of;
