//! Vocabularies.

/// A set relation at two ground terms, by their numbers.
#[derive(Clone, Copy, Debug, PartialEq, Eq, Hash)]
pub struct PairNode {
    pub relation: u32,
    pub holder: u32,
    pub member: u32,
}

/// What a table tells of, by numbers of ground terms in one arena.
#[derive(Drop)]
pub struct Words {
    /// The terms that name elements.
    pub named: Vec<u32>,
    /// Further functions at these.
    pub others: Vec<u32>,
    /// Set relations at two of the first.
    pub pairs: Vec<PairNode>,
}
