//! Databases from structures, and witnesses.
//!
//! | module | holds |
//! |---|---|
//! | `database` | `build` |
//! | `records` | the records of a model, one for each element of its sort |
//! | `fields` | what a field holds at an element |
//! | `source` | `Source`, a structure with the numbers of its schema |
//! | `values` | values, and sets of ids |
//! | `laws` | laws over the definitions |
//!
//! | definitions | say |
//! |---|---|
//! | `specs/Built.antt` | the database of a structure over the signature of a schema |
//! | `specs/Back.antt` | the structure comes back, and the database is over the schema |
//! | `specs/Failing.antt` | an obligation fails where a structure satisfies its formula |
//! | `specs/Worked.antt` | worked databases |
//! | `specs/Witness.antt`, `specs/Printed.antt` | witnesses, and the printed text of one |
//! | `specs/WorkedTexts.antt` | worked texts of witnesses |
#![tactic(auto)]

mod database;
mod fields;
mod laws;
mod records;
mod source;
mod values;

pub use database::build;
pub use laws::{
    built_databases_start, built_databases_tell_the_truth, satisfied_obligations_fail,
    scripts_are_buildable, structures_come_back, worked_databases, worked_texts,
};
