//! Printed databases, read back.
//!
//! | module | holds |
//! |---|---|
//! | `scanner` | `Scanner`, the bytes that are left to read |
//! | `literals` | texts in quotes |
//! | `stop` | `Stop`, why nothing is read |
//! | `scan_laws` | a law: what is printed is read |
//! | `values` | values at the front of a text |
//! | `tables` | records and tables at the front of a text |
//! | `shapes`, `standard` | whether tables are a database over a schema |
//! | `databases` | `read_printed` |
//! | `laws` | a law: printed tables are read |
//!
//! A reader of a printed text reads what may be there and no more than it needs. What is read is
//! printed again and compared, so that a text is read exactly where it is the printed text of a
//! database. `specs/Back.antt` says what stands at the front of a text.
#![tactic(auto)]

mod databases;
mod laws;
mod literals;
mod scan_laws;
mod scanner;
mod shapes;
mod standard;
mod stop;
mod tables;
mod values;

pub use databases::read_printed;
pub use laws::printed_tables_are_read;
pub use scan_laws::pieces_are_read;
pub use scanner::Scanner;
pub use standard::database_of;
pub use stop::Stop;
pub use tables::read_table;
