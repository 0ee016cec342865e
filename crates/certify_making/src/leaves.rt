//! Lines that close a path.

ghost use Rattle.std.specs.Prelude.{◌≡◌, ◌≤◌, ◌<◌, ℕ, IfOk, MatchOption, length};
ghost use Rattle.certify_clauses.specs.Listed.{problem_of};
ghost use Rattle.certify_clauses.specs.Trees.{IsFalseClause};
ghost use Rattle.certify_clauses.specs.InMemory.{problem_in};

use certify_clauses::{Clauses, ListedClauses, Path};
use std::alloc::AllocError;

/// A clause that is false on a path, if there is one.
pub(crate) fn false_clause(c: &ListedClauses, path: &Path) -> Result<Option<u32>, AllocError>
    requires { length c.now.clauses.items < 2000000000 }
    ensures { IfOk result (λ found. MatchOption found
        ((n : ℕ) → IsFalseClause (problem_in c.now) path.now.literals n → ⊥)
        (λ n. (n < 2000000000) × IsFalseClause (problem_in c.now) path.now.literals n)) }
{
    for number in 0..c.clauses.len() as u32 {
        if c.is_false(number, path)? {
            return Ok(Some(number));
        }
    }
    Ok(None)
}
