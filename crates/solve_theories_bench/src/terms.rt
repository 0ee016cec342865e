//! Equalities and differences of terms.
ghost use Rattle.std.specs.Prelude.{◌≡◌, length, IsTrue, All, IfOk};
ghost use Rattle.solve_equality.specs.Equality.{takes_literal};

use crate::random::next;
use solve_equality::EqualityLit;
use std::alloc::{AllocError, Global};

/// How many terms there are.
pub const TERMS: usize = 400;

/// So many literals of terms below `TERMS`, in a sequence that looks random.
pub fn equalities(alloc: Global, count: usize) -> Result<Vec<EqualityLit>, AllocError>
    ensures { IfOk result (λ ls. (length ls.items ≡ count) ×
        All (λ l. IsTrue (takes_literal 400 l)) ls.items) }
{
    let mut random = 1;
    let mut literals = Vec::with_capacity(alloc, count)?;
    for _place in 0..count {
        let literal = random_literal(&mut random);
        literals.push(literal)?;
    }
    Ok(literals)
}

/// An equality of two of the terms, or one time in sixteen a difference.
fn random_literal(random: &mut u32) -> EqualityLit
    ensures { IsTrue (takes_literal 400 result) }
{
    let left = next(random) % 400;
    let right = next(random) % 400;
    if next(random) % 16 != 0 {
        EqualityLit::Same(left, right)
    } else {
        EqualityLit::Differ(left, right)
    }
}
