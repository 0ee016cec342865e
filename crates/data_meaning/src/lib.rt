//! Databases over a schema, and what scripts, policies and initialisers mean on them.
//!
//! | module | holds |
//! |---|---|
//! | `principals` | `Principal`, a static principal or a record |
//! | `cells` | `Cell`, a field of a record |
//! | `limits` | the last id |
//! | `field_laws` | a law on look-up |
//! | `laws` | laws over the other definitions |
//!
//! | definitions | say |
//! |---|---|
//! | `specs/Values.antt`, `specs/Database.antt` | the values of a type; what a database is |
//! | `specs/Meaning.antt` | the value of an expression, who is in a set, whom a policy allows |
//! | `specs/Touched.antt` | the cells that an expression or a set reads |
//! | `specs/Run.antt`, `specs/Runs.antt` | the database after the commands of a script; that it is one |
//! | `specs/Gain.antt` | kinds of principals, the policy in force, gains and flow leaks |
//! | `specs/Secure.antt` | secure and step-secure scripts, and the law from the one to the other |
//! | `specs/Agreeing.antt` | databases that agree on what is touched, and the law of touched cells |
//! | `specs/FieldsTyped.antt`, `specs/Sound.antt` | what fields hold is of their type; typed values and members are there |
//! | `specs/Worked.antt` | worked values, members and cells |
#![tactic(auto)]

mod cells;
mod field_laws;
mod laws;
pub mod limits;
mod principals;

pub use cells::Cell;
pub use field_laws::fields_are_typed;
pub use laws::{
    members_are_there, runs_keep_databases, steps_secure_whole, touched_settles, values_are_typed,
    widened_starts, worked_values,
};
pub use principals::Principal;
