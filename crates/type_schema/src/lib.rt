//! Typed schemas and scripts: names as numbers, variables as depths.
//!
//! | module | holds |
//! |---|---|
//! | `types` | the numbers of statics, models and fields, and the types of values |
//! | `rights` | the rights, what they are on, and the kinds of principals |
//! | `trees` | expressions, sets, policies and initialisers |
//! | `schemas` | schemas with their statics, models and fields |
//! | `commands` | commands and scripts |
//! | `copies` | copies of schemas |
//!
//! Contracts speak of schemas and scripts as plain data: `specs/Trees.antt` has the trees of
//! policies and initialisers, `specs/Schema.antt` schemas, `specs/Commands.antt` commands and
//! `specs/Script.antt` scripts; `specs/Typing.antt` says what is well typed. `specs/Views.antt` and
//! `specs/SchemaViews.antt` say which plain data the types of the code stand for.
#![tactic(auto)]

mod commands;
mod copies;
mod rights;
mod schemas;
mod trees;
mod types;

pub use commands::{TCommand, TScript};
pub use rights::{Kind, Right, Target};
pub use schemas::{FieldInfo, ModelInfo, RemovedField, Schema, StaticInfo};
pub use trees::{TExpr, TFilter, TInit, TItem, TPolicy, TSet};
pub use types::{FieldNo, ModelNo, StaticNo, TBase, TTy};
