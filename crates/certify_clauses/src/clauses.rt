//! Clauses that need not be listed.

ghost use Rattle.std.specs.Prelude.{◌≡◌, ◌≢◌, ◌^◌, ◌<◌, ◌↔◌, All, AllPairs, IfOk, IfSome, IsTrue};
ghost use Rattle.solve_equality.specs.Equality.{takes_literal};
ghost use Rattle.solve_order.specs.Difference.{is_literal};
ghost use Rattle.solve_theory.specs.Pair.{takes_own};
ghost use Rattle.certify_clauses.specs.Problem.{Problem, said_by};
ghost use Rattle.certify_clauses.specs.Trees.{IsFalseClause};

use crate::literal::Literal;
use crate::path::Path;
use solve_equality::EqualityLit;
use solve_order::Diff;
use solve_theory::PairLit;
use std::alloc::AllocError;

/// What an atom says where it is true, or where it is false.
pub type Atom = PairLit<EqualityLit, Diff>;

/// Clauses over variables of which some are atoms of equality or of differences.
///
/// A clause may be computed when it is asked for, so none need be listed.
pub trait Clauses {
    // The variables, the clause of each number, and what the atoms say.
    ghost problem: { Self → Problem };

    /// How many variables there are.
    fn vars(&self) -> u32
        ensures { result ≡ (problem self.now).vars };

    /// Whether there is a clause of this number, each of whose literals is false on the path.
    fn is_false(&self, number: u32, path: &Path) -> Result<bool, AllocError>
        ensures { IfOk result (λ is_false. IsTrue is_false
            ↔ IsFalseClause (problem self.now) path.now.literals number) };

    /// What a literal says for the theories, if its variable is an atom: of terms and numbers that
    /// there are.
    fn said_by(&self, literal: Literal) -> Option<Atom>
        ensures said { result ≡ said_by (problem self.now) literal }
        ensures taken { IfSome result (λ said. IsTrue (takes_own
            (takes_literal (problem self.now).terms) (is_literal (problem self.now).numbers) said)) };

    /// How many terms equalities are of, fewer than 2^32.
    fn terms(&self) -> usize
        ensures terms { result ≡ (problem self.now).terms }
        ensures few { result < 2 ^ 32 };

    /// The terms that are pairwise different, each once.
    fn fixed(&self) -> &[u32]
        ensures fixed { result.now ≡ (problem self.now).fixed }
        ensures within { All (λ f. f < (problem self.now).terms) result.now }
        ensures once { AllPairs (λ f g. f ≢ g) result.now };

    /// How many numbers differences are of, with zero, which is number 0: at least one, fewer than
    /// 2^32.
    fn numbers(&self) -> usize
        ensures numbers { result ≡ (problem self.now).numbers }
        ensures some { 0 < result }
        ensures few { result < 2 ^ 32 };
}
