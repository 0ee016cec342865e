//! The commands on certificates, `prove SPEC SCRIPT` and `recheck SPEC SCRIPT CERT`, as one call.
//!
//! `run_certify` carries a command out over the shelf and the sink that it is handed; no store is
//! called. `prove` checks the script in the files, and where it is accepted it writes a certificate
//! in the place of the report, obligation by obligation. `recheck` types the script, and checks the
//! text of the third file as its certificate, without any search.
//!
//! | module | holds |
//! |---|---|
//! | `words` | the command that the words are |
//! | `limits` | how long a certificate may be |
//! | `formulas` | the formulas of obligations, for certificates |
//! | `prove` | `prove SPEC SCRIPT` |
//! | `certificate` | the check of the text of a certificate |
//! | `recheck` | `recheck SPEC SCRIPT CERT` |
//! | `answer`, `report` | what `recheck` answers, and the texts that are printed |
//! | `program` | `run_certify` |
#![tactic(auto)]

mod answer;
mod certificate;
mod formulas;
mod limits;
mod program;
mod prove;
mod recheck;
mod report;
mod words;

pub use answer::{CertifyAnswer, CheckedCertificate};
pub use limits::{MOST_CERTIFICATE_BYTES, certificate_limit_is};
pub use program::run_certify;
pub use report::certify_report_of;
pub use words::{CertifyCommand, certify_command_of};
