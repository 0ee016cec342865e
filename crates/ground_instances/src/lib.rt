//! The instances of a formula over ground terms, as gates.
//!
//! - `input`: what a variable of the gates stands for.
//! - `inputs`: `Inputs`, which numbers inputs and shares equal ones.
//! - `board`: gates over inputs, as they are built, and `joins`: gates for two gates.
//! - `lists`: lists of ground terms.
//! - `values`: terms of atoms at ground terms.
//! - `atoms`: atoms at ground terms.
//! - `shapes`: what of a formula tells its instances apart.
//! - `instance`: instances of parts of a formula.
//! - `memo`: the gates that were made, by their instances.
//! - `work`, `make`, `leaves`, `dispatch`: the gate of an instance, from those of its parts.
//! - `instantiation`: the gate of a formula.
#![tactic(auto)]

mod atoms;
mod board;
mod dispatch;
mod input;
mod inputs;
mod instance;
mod instantiation;
mod joins;
mod leaves;
mod lists;
mod make;
mod memo;
mod shapes;
mod values;
mod work;

pub use input::{Input, Value};
pub use inputs::Inputs;
pub use instantiation::{Instances, instantiate};
