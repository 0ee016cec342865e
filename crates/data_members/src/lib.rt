//! The evaluator of policies and initialisers on databases.
//!
//! | module | holds |
//! |---|---|
//! | `answers` | whom a policy allows a right, who is in a set, what an initialiser gives, reads |
//! | `meaning` | the value of an expression, and whether a principal is in a set |
//! | `finding` | the records that pass the tests of filters |
//! | `parts`, `principals` | parts of values, and how they compare |
//! | `seen` | the value of an expression |
//! | `touching` | the cells that expressions and sets read |
//! | `gathering`, `sets` | the principals of a set |
//! | `order` | lists as sets |
#![tactic(auto)]

mod answers;
mod finding;
mod gathering;
mod meaning;
mod order;
mod parts;
mod principals;
mod seen;
mod sets;
mod touching;

pub use answers::{allows, init_value, members, touched};
pub use parts::{are_equal, passes};
pub use sets::PrincipalSet;
