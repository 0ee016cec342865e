//! The texts of databases.
//!
//! | module | holds |
//! |---|---|
//! | `values` | the texts of ids and values |
//! | `tables` | the texts of records and tables |
//! | `databases` | `write_database`, `print_database` |
//! | `laws` | a law: the text tells the database |
//!
//! `specs/Texts.antt` says what each text is.
#![tactic(auto)]

mod databases;
mod laws;
mod tables;
mod values;

pub use databases::{print_database, write_database};
pub use laws::texts_tell_databases;
pub use tables::write_table;
pub use values::{write_decimal, write_id};
