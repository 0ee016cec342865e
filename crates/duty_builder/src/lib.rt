//! The formulas of typed expressions, sets and policies over the structure of a database.
//!
//! The value of an expression is walked end by end: what is asked of an end is handed on, so there
//! is no tree of cases in memory. Variables, terms and what is asked stand on the stack.
//!
//! | module | holds |
//! |---|---|
//! | `start` | `Start`, the schema of start databases with its numbers |
//! | `values` | ends, the values of variables, and what is asked |
//! | `added` | which added field is written out |
//! | `chains` | expressions that are chains of fields |
//! | `truths` | whether a value is a truth value |
//! | `negations` | negations that stand one in the other |
//! | `counts` | how many uses of fields there are |
//! | `places` | where a use of a field stands |
//! | `formulas` | the formulas, part by part |
//! | `walking` | values, walked to their ends |
//! | `ends` | what is asked of the ends |
//! | `conditions` | truth values, and how values compare |
//! | `filters` | filters |
//! | `members` | who is in a set |
//! | `reaches` | those of uses of fields |
//! | `policies` | those of policies, and their sizes |
//! | `inits` | those of the uses of initialisers, and sizes of initialisers |
#![tactic(auto)]

mod added;
mod chains;
mod conditions;
mod counts;
mod ends;
mod filters;
mod formulas;
mod inits;
mod members;
mod negations;
mod places;
mod policies;
mod reaches;
mod start;
mod truths;
mod values;
mod walking;

pub use formulas::write;
pub use inits::{init_size, reached};
pub use policies::{MOST_FUEL, allowed, policy_size};
pub use start::Start;
pub use values::{End, Goal, Part, Scene, Source, Steps, Use, Who};
