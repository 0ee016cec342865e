//! Where a search stands.

/// Where a search stands.
#[derive(Clone, Copy)]
pub enum Progress {
    /// Nothing is known of what is set.
    Open,
    /// No lawful assignment agrees with what is set.
    Refuted,
    /// Each variable is set, lawfully.
    Found,
    /// There is no lawful assignment.
    Exhausted,
}
