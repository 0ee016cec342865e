//! What the trees of a database's text are over a schema: a database, or what is wrong first.
//!
//! | module | holds |
//! |---|---|
//! | `fault` | `Fault`, a rule that a part breaks; `Refusal`, why the trees are no database |
//! | `numbers` | `Numbers`, a set of numbers |
//! | `names` | what names name |
//! | `literals` | values as they are written |
//! | `ids` | the ids of the items of sets |
//! | `faults` | the first part in reading order that breaks a rule |
//! | `rows`, `tables` | records and tables of what is written |
//! | `references` | the first id in a value that names no record |
//! | `limits` | how much a database holds; `Limits`, whether that is asked |
//! | `judging` | `judge` |
//! | `named` | `value_from` and `row_from`, the values and rows that literals name |
//! | `lit_err` | `LitErr`, why they name none |
//! | `laws` | laws over the definitions |
#![tactic(auto)]

mod fault;
mod faults;
mod ids;
mod judging;
mod laws;
mod limits;
mod lit_err;
mod literals;
mod named;
mod names;
mod numbers;
mod references;
mod rows;
mod tables;

pub use fault::{Fault, Refusal};
pub use judging::judge;
pub use laws::{one_judgement, worked_data};
pub use limits::Limits;
pub use lit_err::LitErr;
pub use named::{row_from, value_from};
