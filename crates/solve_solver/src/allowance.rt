//! How many learned clauses are kept.

/// How many learned clauses are kept at least.
const FEWEST: usize = 100;

/// After how many conflicts more are kept for the first time.
const FIRST_STRETCH: usize = 100;

/// How many learned clauses are to be kept: a third of those that are given at first, and a tenth
/// more after stretches of conflicts, each half as long again as the one before (Eén and Sörensson,
/// "An extensible SAT-solver", 2003). No proof rests on it.
#[derive(Drop)]
pub struct Allowance {
    clauses: usize,
    stretch: usize,
    /// How many conflicts of the stretch are left.
    left: usize,
}

impl Allowance {
    /// Before the first conflict, with so many clauses that are given.
    pub fn new(given: usize) -> Allowance {
        Allowance {
            clauses: (given / 3).max(FEWEST),
            stretch: FIRST_STRETCH,
            left: FIRST_STRETCH,
        }
    }

    /// Whether there are too many clauses, where so many variables are set.
    pub fn is_spent(&self, learned: usize, set: usize) -> bool {
        learned >= self.clauses.saturating_add(set)
    }

    /// Counts a conflict.
    pub fn count(&mut self) {
        self.left = self.left.saturating_sub(1);
        if self.left == 0 {
            self.stretch = self.stretch.saturating_add(self.stretch / 2);
            self.left = self.stretch;
            self.clauses = self.clauses.saturating_add(self.clauses / 10);
        }
    }
}
