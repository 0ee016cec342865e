//! The limits of a solver.

/// So many variables, or so many clauses, are too many: a solver has fewer of each.
pub const TOO_MANY: usize = 2_000_000_000;
