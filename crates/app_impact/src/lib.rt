//! The command on what declared weakenings newly allow, `impact SPEC SCRIPT`, as one call.
//!
//! `run_impact` carries the command out over the shelf and the sink that it is handed; no store is
//! called. It goes through the stages of app_files up to the typed script. Then it says of each
//! weakening that the script declares, each right that it gives and each kind of principals, whom
//! it newly allows this right, by an example. Nothing is checked that the script does not declare.
//!
//! | module | holds |
//! |---|---|
//! | `words` | the names in the words of the command |
//! | `answer` | what the command answers |
//! | `effects` | what the files come to |
//! | `report` | the text that is printed |
//! | `program` | `run_impact` |
#![tactic(auto)]

mod answer;
mod effects;
mod program;
mod report;
mod words;

pub use answer::{Impact, ImpactAnswer};
pub use program::run_impact;
pub use report::impact_report_of;
pub use words::impact_of;
