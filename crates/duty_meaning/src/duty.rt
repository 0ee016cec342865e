//! Obligations.

use type_schema::{Kind, Right, Target};

/// An obligation of a script: that a command gains no principal of a kind a right, or that a use
/// of a field in an initialiser leaks to no principal of a kind.
#[derive(Clone, Copy, Debug, PartialEq, Eq)]
pub struct Duty {
    /// The number of the command, from 1.
    pub command: u32,
    /// What the right is on; of a leak the added field.
    pub target: Target,
    /// The right; of a leak the right to read.
    pub right: Right,
    /// The number of the use in the initialiser, from 1; none where it is no leak.
    pub spot: Option<u32>,
    pub kind: Kind,
}
