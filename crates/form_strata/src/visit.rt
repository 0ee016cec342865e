//! What a walk comes to.

/// What stands above a formula, as far as the edges depend on it that are sought below it.
///
/// Below a `forall` an edge leads from each `forall` above to each `exists`. These are sought for
/// each sort by itself, so that what else stands above does not matter for them.
#[derive(Clone, Copy, Debug, PartialEq, Eq, Hash)]
pub(crate) enum Above {
    /// So many `exists`s and no `forall`. All edges are sought.
    Exists(u32),
    /// A `forall`, and so many `exists`s above the first one, whose variables are not dependent. All
    /// edges are sought but those from the `forall`s above.
    Forall(u32),
    /// A `forall` of this sort. The edges from it are sought.
    From(u32),
}

/// A formula by its number, and what stands above it.
#[derive(Clone, Copy, Debug, PartialEq, Eq, Hash)]
pub(crate) struct Visit {
    pub(crate) id: u32,
    pub(crate) above: Above,
}
