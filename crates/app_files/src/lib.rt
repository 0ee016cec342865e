//! The commands that need files alone, `check SPEC SCRIPT` and `gen N`, as one call.
//!
//! `run_files` answers the words of the command line over the objects that it is handed: a shelf of
//! files and a sink for the report. It goes through stages: the words, the text and the types of
//! each file in turn, and the check of the script. The first stage that refuses decides, else the
//! outcome of the check. Words that are neither command get the usage line.
//!
//! The commands that are told elsewhere stand on these stages, refusals, reports and statuses.
//!
//! | module | holds |
//! |---|---|
//! | `program` | `run_files`, and `put_report`, by which each run ends |
//! | `laws` | what holds of all answers |
//! | `status` | `Status`, how a run ended |
//! | `answer` | `Answer`, what is found or why the words are refused |
//! | `refusal`, `fault`, `stop` | `Refusal`, `Fault`, and `Stop`, why a stage passes nothing on |
//! | `words` | the command that the words are |
//! | `load` | the files that the words name, and the trees that texts are |
//! | `limits` | how long a file may be, and how many commands `gen` makes |
//! | `texts` | `check_texts` and its like, over bytes |
//! | `types`, `users` | the trees with their types, and who still uses a thing |
//! | `formulas` | the formulas of obligations, for the check |
//! | `check`, `generated` | the stages of the commands |
//! | `report`, `pieces` | the texts that are printed |
#![tactic(auto)]

mod answer;
mod check;
mod fault;
mod formulas;
mod generated;
mod laws;
mod limits;
mod load;
mod pieces;
mod program;
mod refusal;
mod report;
mod status;
mod stop;
mod texts;
mod types;
mod users;
mod words;

pub use answer::{Answer, Checked, Generated};
pub use check::{check_file, check_files, schema_of_file, script_of_file};
pub use fault::Fault;
pub use formulas::DutyFormulas;
pub use laws::{one_script, one_script_of_texts, one_status};
pub use limits::{MOST_FILE_BYTES, limits_are};
pub use load::fetch_within;
pub use pieces::join_pieces;
pub use program::{put_report, run_files};
pub use refusal::Refusal;
pub use report::{print_cause, print_checked, print_refusal, print_syntax, report_of};
pub use status::Status;
pub use stop::Stop;
pub use texts::{NamedText, check_script_text, check_texts, schema_of_text};
pub use words::{Names, is_operand, word_of};
