//! The variable of a split.

ghost use Rattle.std.specs.Prelude.{◌≡◌, ◌<◌, ℕ, None, MatchOption};
ghost use Rattle.certify_clauses.specs.Paths.{value_on};

use certify_clauses::{ListedClauses, Literal, Path};

/// The first variable that is not on a path, if there is one.
fn first_open(vars: u32, path: &Path) -> Option<u32>
    ensures { MatchOption result
        ((v : ℕ) → v < vars → value_on path.now.literals v ≡ None → ⊥)
        (λ v. (v < vars) × (value_on path.now.literals v ≡ None)) }
{
    for var in 0..vars {
        match path.value_of(var) {
            None => return Some(var),
            Some(_) => {}
        }
    }
    None
}

/// How a clause stands on a path.
#[derive(Clone, Copy)]
enum Standing {
    /// A literal is true.
    Met,
    /// So many literals are open, of which one is on this variable.
    Open(u32, u32),
}

/// How a clause stands on a path.
fn standing_of(clause: &[Literal], path: &Path) -> Standing {
    let mut open = 0;
    let mut var = 0;
    for literal in clause {
        match path.value_of(literal.var) {
            None => {
                open = 1_u32.saturating_add(open);
                var = literal.var;
            }
            Some(value) if value == literal.plus => return Standing::Met,
            Some(_) => {}
        }
    }
    Standing::Open(open, var)
}

/// A variable of a clause that is not met and has fewest open literals.
fn suggested(c: &ListedClauses, path: &Path) -> Option<u32> {
    let mut best = None;
    let mut fewest = u32::MAX;
    for clause in &c.clauses {
        match standing_of(clause.as_slice(), path) {
            Standing::Met => {}
            Standing::Open(open, var) => {
                if open > 0 && open < fewest {
                    fewest = open;
                    best = Some(var);
                }
            }
        }
    }
    best
}

/// A variable that is not on a path, if there is one: that of a clause of which all other literals
/// are false, if there is such a clause, so that one side of the split closes at once.
pub(crate) fn open_variable(c: &ListedClauses, vars: u32, path: &Path) -> Option<u32>
    ensures { MatchOption result
        ((v : ℕ) → v < vars → value_on path.now.literals v ≡ None → ⊥)
        (λ v. (v < vars) × (value_on path.now.literals v ≡ None)) }
{
    match suggested(c, path) {
        Some(var) if var < vars => match path.value_of(var) {
            None => Some(var),
            Some(_) => first_open(vars, path),
        },
        Some(_) | None => first_open(vars, path),
    }
}
