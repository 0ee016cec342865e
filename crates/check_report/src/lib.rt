//! The texts of witnesses, and the reports on an obligation that is not cleared.
//!
//! | module | holds |
//! |---|---|
//! | `witness` | `Witness`, and `print_witness` |
//! | `reports` | `print_undecided`, `print_too_large`, and what they name |
//! | `lines` | what witnesses and reports are made of, `print_target` |
//! | `names` | names, with the number of the command that adds what they name |
//! | `added` | what the commands of a script add |
//!
//! `check_witness` says what the text of a witness is, `specs/Reports.antt` what each report is.
#![tactic(auto)]

mod added;
mod lines;
mod names;
mod reports;
mod witness;

pub use lines::print_target;
pub use reports::{print_cycle, print_duty, print_too_large, print_undecided};
pub use witness::{Witness, print_witness};
