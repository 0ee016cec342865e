//! Requests on records, judged over a schema and a database: what each asks for, or the first cause
//! that refuses it. No session and no store is known here.
//!
//! | module | holds |
//! |---|---|
//! | `cell` | `Cell`, a field of a record as a request names it |
//! | `compare`, `conditions`, `finding` | the conditions of `find`, and the records that it shows |
//! | `halt` | `Halt`, why a request goes no further |
//! | `making` | `Making`, records that `create` makes |
//! | `names` | what names name |
//! | `policies` | what policies allow the principal of a session |
//! | `reading` | what `read` gives |
//! | `removal` | records that `delete` drops |
//! | `setting` | `Setting`, what `write` puts into a field |
//! | `values` | values and rows that requests give |
#![tactic(auto)]

mod cell;
mod compare;
mod conditions;
mod finding;
mod halt;
mod making;
mod names;
mod policies;
mod reading;
mod removal;
mod setting;
mod values;

pub use cell::Cell;
pub use finding::ids_shown;
pub use halt::Halt;
pub use making::{Making, make_record};
pub use names::principal_named;
pub use reading::value_read;
pub use removal::removal_ready;
pub use setting::{Setting, record_with, setting_ready};
