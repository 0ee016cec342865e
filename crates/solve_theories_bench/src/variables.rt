//! Bounds on differences of numbers.
ghost use Rattle.std.specs.Prelude.{◌≡◌, length, IsTrue, All, IfOk};
ghost use Rattle.solve_order.specs.Difference.{is_literal};

use crate::random::next;
use solve_order::Diff;
use std::alloc::{AllocError, Global};

/// How many variables there are.
pub const ORDER_VARIABLES: usize = 400;

/// So many literals of variables below `ORDER_VARIABLES`, in a sequence that looks random.
pub fn differences(alloc: Global, count: usize) -> Result<Vec<Diff>, AllocError>
    ensures { IfOk result (λ ls. (length ls.items ≡ count) ×
        All (λ l. IsTrue (is_literal 400 l)) ls.items) }
{
    let mut random = 1;
    let mut literals = Vec::with_capacity(alloc, count)?;
    for _place in 0..count {
        let literal = random_literal(&mut random);
        literals.push(literal)?;
    }
    Ok(literals)
}

/// A bound from -100 to 899 on the difference of two of the variables.
fn random_literal(random: &mut u32) -> Diff
    ensures { IsTrue (is_literal 400 result) }
{
    let x = next(random) % 400;
    let y = next(random) % 400;
    let c = i128::from(next(random) % 1000) - 100;
    Diff { x, y, c }
}
