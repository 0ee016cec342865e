//! The literals of equality.

/// A literal of `Equality`.
#[derive(Clone, Copy, PartialEq, Eq, Debug)]
pub enum EqualityLit {
    /// Two terms are equal.
    Same(u32, u32),
    /// Two terms are different.
    Differ(u32, u32),
}
