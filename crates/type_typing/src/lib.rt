//! From trees to typed trees: names to numbers, variables to depths, or the first fault.
//!
//! | module | holds |
//! |---|---|
//! | `type_err` | `TypeErr`, why a tree has no type |
//! | `names` | what a name names in a schema |
//! | `vars` | the variables that an expression may use |
//! | `asked` | what a place asks of an expression or a set |
//! | `compared` | comparisons and filters |
//! | `nodes` | typed expressions, of their typed parts |
//! | `set_nodes` | typed sets and items, of their typed parts |
//! | `exprs` | the types of expressions and sets |
//! | `types` | the types of fields |
//! | `policies` | policies and initialisers |
//! | `laws` | laws over the definitions |
#![tactic(auto)]

mod asked;
mod compared;
mod exprs;
mod laws;
mod names;
mod nodes;
mod policies;
mod set_nodes;
mod type_err;
mod types;
mod vars;

pub use asked::{Content, Source, Typed};
pub use laws::{typed_is_well_typed, worked_types};
pub use names::{field_named, is_principal, model_named, same_name, static_named};
pub use policies::{typed_init, typed_policy};
pub use type_err::{TypeErr, UsedBy};
pub use types::typed_type;
pub use vars::Var;
