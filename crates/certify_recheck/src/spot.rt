//! Places in a text.

/// A place in a text of lines.
#[derive(Clone, Copy, Debug, PartialEq, Eq)]
pub struct Spot {
    /// How many bytes stand before it.
    pub at: usize,
    /// The number of the line that begins there.
    pub line: u64,
}
