//! The trees of databases' texts.
//!
//! [`parse_data`] gives the tables that a text spells, or a `SyntaxErr`: why it spells none, and
//! where. Each production is a function that equals the reader of its form (`specs/Reads.antt`);
//! the laws of data_tree say what that reader answers.
//!
//! | module | holds |
//! |---|---|
//! | `values`, `lists` | values, which nest |
//! | `bare` | texts without a backslash, as most are |
//! | `rows` | fields, records and tables |
//! | `texts` | whole texts |
//! | `laws` | what holds of any text |
#![tactic(auto)]

mod bare;
mod laws;
mod lists;
mod rows;
mod texts;
mod values;

pub use laws::one_data_text;
pub use texts::parse_data;
