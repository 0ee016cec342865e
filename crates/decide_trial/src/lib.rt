//! Formulas that tests and benches make and decide: what a call asks of its caller is tested as it
//! is made, so that what makes formulas owes no proof.
//!
//! - `signature`: [`signature_of`], signatures.
//! - `over`: whether a formula is over a signature.
//! - `forms`: [`Forms`], formulas as tests and benches write them.
#![tactic(auto)]

mod forms;
mod over;
mod signature;

pub use forms::Forms;
pub use signature::signature_of;
