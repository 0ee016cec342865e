//! All structures of at most three elements, with three numbers.

use form_formula::{SVal, Structure};
use sqlite_items::Items;
use std::alloc::{AllocError, Global};

/// How many numbers the elements of sort 1 have between them.
const NUMBERS: u32 = 3;

/// A number that stands for choices, each of so many.
#[derive(Drop)]
struct Choices(u32);

impl Choices {
    /// The next choice, below `count`; 0 where there is nothing to choose.
    fn next(&mut self, count: u32) -> u32 {
        if count == 0 {
            return 0;
        }
        let choice = self.0 % count;
        self.0 /= count;
        choice
    }
}

/// Whether a function gives elements, and whether it need not; truth values; or numbers.
#[derive(Clone, Copy)]
enum Kind {
    Total(u32),
    Partial(u32),
    Flag,
    Number,
}

/// What a function has at one element.
fn entry(choices: &mut Choices, kind: Kind) -> Option<SVal> {
    match kind {
        Kind::Total(size) => Some(SVal::Rec(choices.next(size))),
        Kind::Partial(size) => {
            let choice = choices.next(size.wrapping_add(1));
            choice.checked_sub(1).map(SVal::Rec)
        }
        Kind::Flag => Some(SVal::Flag(choices.next(2) == 1)),
        Kind::Number => Some(SVal::Num(i64::from(choices.next(NUMBERS)))),
    }
}

/// What a function has at so many elements.
fn table(
    alloc: Global,
    choices: &mut Choices,
    elements: u32,
    kind: Kind,
) -> Result<Items<Option<SVal>>, AllocError> {
    let mut values = Items::new(alloc);
    for _ in 0..elements {
        values.push(entry(choices, kind))?;
    }
    Ok(values)
}

/// The pairs of a set relation from so many elements to so many.
fn pairs(
    alloc: Global,
    choices: &mut Choices,
    left: u32,
    right: u32,
) -> Result<Items<(u32, u32)>, AllocError> {
    let mut pairs = Items::new(alloc);
    for x in 0..left {
        for y in 0..right {
            if choices.next(2) == 1 {
                pairs.push((x, y))?;
            }
        }
    }
    Ok(pairs)
}

/// The structure of the choices, with so many elements of each sort.
fn chosen(
    alloc: Global,
    choices: &mut Choices,
    first: u32,
    second: u32,
) -> Result<Structure, AllocError> {
    let mut funs = Items::new(alloc);
    for kind in [Kind::Total(second), Kind::Partial(second), Kind::Flag] {
        funs.push(table(alloc, choices, first, kind)?)?;
    }
    funs.push(table(alloc, choices, second, Kind::Number)?)?;
    let mut sets = Items::new(alloc);
    sets.push(pairs(alloc, choices, second, first)?)?;
    let sizes = Items::from_slice(alloc, &[first, second])?;
    Ok(Structure { sizes, funs, sets })
}

/// Adds each structure with so many elements of each sort.
fn add_structures(
    alloc: Global,
    structures: &mut Vec<Structure>,
    first: u32,
    second: u32,
) -> Result<(), AllocError> {
    for number in 0..u32::MAX {
        let mut choices = Choices(number);
        let structure = chosen(alloc, &mut choices, first, second)?;
        if choices.0 != 0 {
            return Ok(());
        }
        structures.push(structure)?;
    }
    Ok(())
}

/// Each structure of at most three elements. Where sort 1 has none, sort 0 has none: a total
/// function goes from it to sort 1.
pub(crate) fn all_structures(alloc: Global) -> Result<Vec<Structure>, AllocError> {
    let mut structures = Vec::new(alloc);
    for (first, second) in [(0, 0), (0, 1), (0, 2), (0, 3), (1, 1), (1, 2), (2, 1)] {
        add_structures(alloc, &mut structures, first, second)?;
    }
    Ok(structures)
}
