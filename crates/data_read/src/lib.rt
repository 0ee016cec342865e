//! Databases from their texts.
//!
//! [`read_database`] gives the database over a schema that a text writes, in any order of models,
//! records and fields, or a [`ReadErr`]: why it writes none, and where.
//!
//! | module | holds |
//! |---|---|
//! | `read_err` | [`ReadErr`] |
//! | `read` | [`read_database`]; [`reload_database`], without the limits |
//! | `laws` | what holds of any text |
//! | `words` | the names of schemas that texts give may stand in texts |
//! | `spelling_laws` | the printed text of a database spells its tables, and is read as that database |
#![tactic(auto)]

mod laws;
mod read;
mod read_err;
mod spelling_laws;
mod words;

pub use laws::one_reading;
pub use read::{read_database, reload_database};
pub use read_err::ReadErr;
pub use spelling_laws::{
    printed_databases_are_read, printed_databases_are_short, printed_databases_are_spelled,
};
pub use words::schemas_have_words;
