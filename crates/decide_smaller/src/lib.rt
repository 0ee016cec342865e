//! Smaller structures on which a formula is true, and the elements that make it so.
//!
//! | module | holds |
//! |---|---|
//! | `picking` | [`picks_from`], the elements for the `exists` that a formula begins with |
//! | `fitting` | whether a structure is one over a signature |
//! | `without` | a structure without one element |
//! | `work` | how long an evaluation takes at most |
//! | `leaving` | [`smaller`] |
//!
//! What `without` gives is checked, and what `work` gives bounds how often elements are left out: no
//! promise rests on either.
#![tactic(auto)]

mod fitting;
mod leaving;
mod picking;
mod without;
mod work;

pub use leaving::smaller;
pub use picking::picks_from;
