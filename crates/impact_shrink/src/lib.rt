//! Witnesses made small.
//!
//! A record of a witness's start database is dropped where the witness stays real without it, as
//! evaluation shows, and no formula is made. What is left is needed, record by record.
//!
//! | module | holds |
//! |---|---|
//! | `outcomes` | outcomes of a check, with a small witness |
//! | `shrinking` | `shrink` |
//! | `dropping` | records that are tried, one after the other |
//! | `places` | the records of a database |
//! | `judging` | whether a witness is real over another start database |
//! | `rights` | what policies and an initialiser come to on the database after a command |
//!
//! | definitions | say |
//! |---|---|
//! | `specs/Real.antt` | real witnesses |
//! | `specs/Small.antt` | small witnesses, and parts of databases |
//! | `specs/Shown.antt` | outcomes with small witnesses |
//! | `specs/Dropped.antt` | records that are tried |
//! | `specs/Judged.antt` | what is judged after the command of a witness |
#![tactic(auto)]

mod dropping;
mod judging;
mod outcomes;
mod places;
mod rights;
mod shrinking;

pub use judging::is_real;
pub use outcomes::made_small;
pub use shrinking::shrink;
