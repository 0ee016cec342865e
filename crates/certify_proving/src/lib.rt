//! Certificates of scripts, written.
//!
//! | module | holds |
//! |---|---|
//! | `fault` | [`ProveErr`], why a certificate was not written |
//! | `parts` | the parts of obligations, one after another |
//! | `scripts` | [`prove_script`] |
#![tactic(auto)]

mod fault;
mod parts;
mod scripts;

pub use fault::ProveErr;
pub use scripts::prove_script;
