//! What the clause solver asks of a decision procedure, and two of them side by side, as one.
//!
//! A theory keeps a list of literals. It says whether they have a model, which of them are why
//! there is none, and a model where there is one, and it takes the last ones back. All its memory
//! but that of a model is taken when it is made.
//!
//! - `theory`: the trait `Theory`, which the solver is generic over.
//! - `lit_buf`: `LitBuf`, a list with room for a fixed number of items, into which conflicts go.
//! - `pair`: `Pair`, whose literals are those of either of two theories.
//! - `probing`: `probe`, which asks a theory whether it could take some more literals. Tests alone
//!   call it.
//! - `room`: a push for which memory is there.
#![tactic(auto)]

mod lit_buf;
mod pair;
mod probing;
mod room;
mod theory;

pub use lit_buf::LitBuf;
pub use pair::{Pair, PairLit};
pub use probing::probe;
pub use room::push_within;
pub use theory::Theory;
