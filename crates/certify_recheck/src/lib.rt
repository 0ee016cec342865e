//! The check of a certificate: a text of lines that writes, obligation by obligation, a lawful
//! tree of splits.
//!
//! - `line`: [`Line`], what a line of a certificate says.
//! - `number`: numbers without needless zeros.
//! - `reading`: the whole lines of a text.
//! - `theories`: whether what a path says has a model.
//! - `walk`: one line of a tree after another, along a path.
//! - `checking`: [`recheck`], one obligation's part of a certificate.
//! - `frame`: [`recheck_heading`] and [`recheck_ending`], the lines around the parts.
//! - `spot`, `fault`: [`Spot`] and [`RecheckErr`].
//! - `laws`: the lines that are due behind a part are those of a lawful tree.
#![tactic(auto)]

mod checking;
mod fault;
mod frame;
mod laws;
mod line;
mod number;
mod reading;
mod spot;
mod theories;
mod walk;

pub use checking::recheck;
pub use fault::RecheckErr;
pub use frame::{recheck_ending, recheck_heading};
pub use laws::{parts_are_lawful_trees, parts_follow_one_another, written_lines_are_read_back};
pub use line::{Line, read_line};
pub use spot::Spot;
pub use theories::{Told, has_no_model, procedures, take_back};
pub use walk::{Step, take_line};
