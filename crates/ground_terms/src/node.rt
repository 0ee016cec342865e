//! Nodes.

/// A ground term or a list of ground terms, whose parts are given by their numbers in an arena.
#[derive(Clone, Copy, Debug, PartialEq, Eq, Hash)]
pub enum TermNode {
    /// The constant of a sort.
    Constant(u32),
    /// The variable of an `exists`, by its number and its sort, at a list of arguments.
    Skolem(u32, u32, u32),
    /// A function at a term.
    Field(u32, u32),
    /// The list without terms.
    Empty,
    /// A term, and the list of those behind it.
    Cons(u32, u32),
}
