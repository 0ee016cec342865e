//! The trees of the whole language, how tokens spell them, and copies of them.
//!
//! | module | holds |
//! |---|---|
//! | `named` | `Named`, a name at its place; `Reason`, a reason at its own |
//! | `exprs` | `Expr` and `SetExpr`, with the items of lists and the filters of `Find` |
//! | `places` | where expressions and sets begin |
//! | `policies` | `Policy`, and `Init`, what a new field holds at first |
//! | `models` | `Spec` with its models, fields and types |
//! | `commands` | `Script` with its commands |
//! | `copied` | `Copied`, what a tree is that can be copied |
//! | `copied_exprs`, `copied_policies`, `copied_models`, `copied_commands` | the copies of these trees |
//!
//! Contracts see a tree as plain data: a list as its items, a name as its bytes. Each tree keeps
//! the byte offset of its first token, and each name its own. `specs/Grammar.antt` says which
//! tokens spell a tree.
#![tactic(auto)]

mod commands;
mod copied;
mod copied_commands;
mod copied_exprs;
mod copied_models;
mod copied_policies;
mod exprs;
mod models;
mod named;
mod places;
mod policies;

pub use commands::{Command, Script};
pub use copied::Copied;
pub use exprs::{CmpOp, Expr, Filter, FilterOp, Item, SetExpr};
pub use models::{Base, FieldDef, ModelDef, Spec, Ty};
pub use named::{Named, Reason};
pub use policies::{Init, Policy};
