//! What is kept of each literal.
ghost use Rattle.std.specs.Prelude.{◌≡◌};

use crate::literal::EqualityLit;

/// The equality `Same(left, right)`, and the join of two classes that it brought about.
#[derive(Clone, Copy)]
pub struct Join {
    pub left: u32,
    pub right: u32,
    /// The one of the two terms whose class was relabelled.
    pub near: u32,
    /// The class that was relabelled.
    pub from: u32,
    /// The class that it was put into.
    pub into: u32,
    /// The fixed term that `into` had before.
    pub anchor: Option<u32>,
}

/// A literal, and what its assertion did.
#[derive(Clone, Copy)]
pub enum Entry {
    /// An equality of terms of two classes, which joined them.
    Joined(Join),
    /// An equality of two terms that were together already.
    Known(u32, u32),
    /// A difference of terms of two classes.
    Apart(u32, u32),
    /// A literal with which there is no model, which joined nothing.
    Failed(EqualityLit),
}

impl Entry {
    ghost use Rattle.solve_equality.specs.EntryEnds.{link_of, gap_of, join_of};

    /// The terms that the entry links, if its literal is an equality that was needed.
    pub fn link(&self) -> Option<(u32, u32)>
        ensures { result ≡ link_of self.now }
    {
        match self {
            Entry::Joined(join) => Some((join.left, join.right)),
            Entry::Failed(EqualityLit::Same(left, right)) => Some((*left, *right)),
            _ => None,
        }
    }

    /// The terms that the entry keeps apart.
    pub fn gap(&self) -> Option<(u32, u32)>
        ensures { result ≡ gap_of self.now }
    {
        match self {
            Entry::Apart(left, right) => Some((*left, *right)),
            _ => None,
        }
    }

    /// The join that the entry brought about.
    pub fn join(&self) -> Option<Join>
        ensures { result ≡ join_of self.now }
    {
        match self {
            Entry::Joined(join) => Some(*join),
            _ => None,
        }
    }
}

/// Why there is no model: the equalities put two terms together that must not be.
#[derive(Clone, Copy)]
pub struct Failure {
    pub left: u32,
    pub right: u32,
    /// The position of the literal that forbids it, unless both terms are fixed.
    pub forbidden_by: Option<u32>,
}
