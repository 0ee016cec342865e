//! Databases in memory.
//!
//! | module | holds |
//! |---|---|
//! | `database` | `Database`; in `fields` and `removals` its changes, in `moves` what adds and drops its models and fields |
//! | `value` | `Value`, what a field holds |
//! | `record`, `slots` | `Record`, with a value for each field |
//! | `data_err` | `DataErr`, why a change is refused |
//! | `shape`, `rows`, `weights` | which values and rows fit |
//! | `table`, `columns` | the records of a model |
//! | `references` | which fields name a record |
//! | `index`, `holders` | which records hold which ids, noted so that they are found quickly |
//! | `principals` | principals of a schema |
//! | `numbers` | the numbers of a schema numbered anew |
//! | `laws` | laws over the definitions |
//! | `limits` | how much a database holds |
//!
//! `specs/Views.antt` says which plain data the types stand for.
#![tactic(auto)]

mod columns;
mod data_err;
mod database;
mod holders;
mod index;
mod laws;
pub mod limits;
mod numbers;
mod principals;
mod record;
mod references;
mod rows;
mod shape;
mod slots;
mod table;
mod value;
mod weights;

pub use data_err::{DataErr, Limit};
pub use database::Database;
pub use laws::{databases_stay, records_have_fields};
pub use record::{Record, Slot};
pub use references::Reference;
pub use shape::has_shape;
pub use slots::Slots;
pub use table::Table;
pub use value::Value;
