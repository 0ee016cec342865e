//! Verdicts.

use form_formula::Structure;
use sqlite_items::Items;

/// What was decided on a formula.
#[derive(Debug, Drop)]
pub enum Verdict {
    /// No finite structure satisfies the formula.
    Safe,
    /// A structure that satisfies it, and the elements for the `exists` that its normal form begins
    /// with.
    Found(Structure, Items<u32>),
    /// The formula is not stratified: the sorts of a cycle of its graph, the first repeated last.
    /// The structure passes it over its shallow terms and does not satisfy it; None where these are
    /// over a limit.
    Unknown(Items<u32>, Option<Structure>),
    /// The formula is stratified, and over a limit: how many terms and nodes its instantiation has.
    TooLarge(u64, u64),
}
