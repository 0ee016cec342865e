//! A keeper over a SQL database.
//!
//! [`SqlKeeper`] keeps a specification and its database as rows of texts and numbers, in a
//! connection that is handed in. It knows SQL and nothing of policies: what it writes is what the
//! printers write, line by line, and what it reads goes through the readers.
//!
//! | module | holds |
//! |---|---|
//! | `keeper` | [`SqlKeeper`] |
//! | `cause` | why the database gave no answer |
//! | `session` | where statements run |
//! | `known` | the rows of records, as they were read |
//! | `texts` | what is stored from its texts, and its texts |
//! | `lines` | the lines of a table's text |
//! | `columns` | the values of a row |
//! | `tables` | the tables, and the queries |
//! | `notes` | the rows of notes, read and written |
//! | `reading` | what the rows say |
//! | `writing`, `records` | the rows that change |
#![tactic(auto)]

mod cause;
mod columns;
mod keeper;
mod known;
mod lines;
mod notes;
mod reading;
mod records;
mod session;
mod tables;
mod texts;
mod writing;

pub use keeper::SqlKeeper;
