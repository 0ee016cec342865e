//! Formulas over finite structures: an arena of shared nodes, truth, and the negation normal form.
//!
//! - `structure`: `Signature` and `Structure`.
//! - `limits`: how many nodes there are at most.
//! - `node`: `Node`, a term or a formula whose parts are numbers of earlier nodes.
//! - `arena`: `Arena`, which numbers nodes and shares equal ones.
//! - `makers`: the calls of `Arena` that add one node each.
//! - `normal_form`: [`nnf`], with `marks`: which normal forms are wanted.
//! - `evaluation`: [`holds`], [`holds_at`], with `atom`, `term` and `value`: what atoms and terms are
//!   on a structure.
#![tactic(auto)]

mod arena;
mod atom;
mod evaluation;
pub mod limits;
mod makers;
mod marks;
mod node;
mod normal_form;
mod structure;
mod term;
mod value;

pub use arena::Arena;
pub use evaluation::{holds, holds_at};
pub use node::Node;
pub use normal_form::nnf;
pub use structure::{FunSig, Range, SVal, SetSig, Signature, Structure};
