//! Certificates, made.
//!
//! - `fault`: [`CertErr`], why a part was not written.
//! - `text`: the text of a line.
//! - `leaves`: lines that close a path.
//! - `planned`: the lines of a plan.
//! - `splits`: the variable of a split.
//! - `making`: the text of one obligation's part.
//! - `writing`: [`certify`], which writes it.
#![tactic(auto)]

mod fault;
mod leaves;
mod making;
mod planned;
mod splits;
mod text;
mod writing;

pub use fault::CertErr;
pub use making::part_text;
pub use text::push_line;
pub use writing::certify;
