//! The formulas by their names.

use crate::chain::chain;
use crate::finds::{Finds, gain};
use crate::pairs::pairs;
use crate::problem::Problem;
use crate::ranks::ranks;
use crate::rows::rows;
use std::alloc::{AllocError, Global};

/// What a formula is about, and its numbers.
#[derive(Clone, Copy)]
pub enum Shape {
    /// Who is in one set of records and not in another.
    Finds(Finds),
    /// An element to which so many pairs of functions in a row do not lead.
    Rows(u32),
    /// A transitive relation on so many elements in a row, where the last is not related to the
    /// first, or else the first not to the last.
    Chain { elements: u32, is_open: bool },
    /// So many elements that are all the same, and whether two of them differ.
    Pairs { elements: u32, differ: bool },
    /// So many elements with rising numbers, and whether the last has one below the first.
    Ranks { elements: u32, is_closed: bool },
}

/// The names and the formulas.
pub fn problems() -> [(&'static str, Shape); 14] {
    let finds = |others, filters, loosened| {
        Shape::Finds(Finds {
            others,
            filters,
            loosened,
        })
    };
    let chain = |is_open| Shape::Chain {
        elements: 41,
        is_open,
    };
    let pairs = |differ| Shape::Pairs {
        elements: 399,
        differ,
    };
    let ranks = |elements, is_closed| Shape::Ranks {
        elements,
        is_closed,
    };
    [
        ("finds", finds(0, 1, false)),
        ("finds-loosened", finds(0, 1, true)),
        ("rows-18", Shape::Rows(18)),
        ("rows-19", Shape::Rows(19)),
        ("rows-20", Shape::Rows(20)),
        ("wide-finds", finds(2, 3, false)),
        ("wide-finds-loosened", finds(2, 3, true)),
        ("chain", chain(false)),
        ("chain-open", chain(true)),
        ("pairs", pairs(true)),
        ("pairs-same", pairs(false)),
        ("ranks", ranks(256, true)),
        ("ranks-open", ranks(64, false)),
        ("ranks-open-256", ranks(256, false)),
    ]
}

/// The formula of a shape.
pub fn make_problem(alloc: Global, shape: Shape) -> Result<Problem, AllocError> {
    match shape {
        Shape::Finds(finds) => gain(alloc, finds),
        Shape::Rows(count) => rows(alloc, count),
        Shape::Chain { elements, is_open } => chain(alloc, elements, is_open),
        Shape::Pairs { elements, differ } => pairs(alloc, elements, differ),
        Shape::Ranks {
            elements,
            is_closed,
        } => ranks(alloc, elements, is_closed),
    }
}
