//! Why a text is no formula.

ghost use Rattle.std.specs.Prelude.{◌≡◌};
ghost use Rattle.solve_bench.specs.declared.refusal.Refusal.TheVariants.{OutOfMemory};

use std::alloc::{AllocError, AllocFailed};
use thiserror::Error;

/// Why a text is no formula in the DIMACS CNF format.
#[derive(Clone, Copy, Debug, PartialEq, Eq, Error)]
pub enum Refusal {
    /// The first line that is neither empty nor a comment is no header, or there is none.
    #[error("no header `p cnf VARIABLES CLAUSES` before the clauses")]
    NoHeader,
    /// The header has more than 1,000,000 variables.
    #[error("more than 1000000 variables")]
    TooManyVariables,
    /// There are more than 10,000,000 literals and ends of clauses.
    #[error("more than 10000000 literals and ends of clauses")]
    TooManyNumbers,
    /// A word after the header is no number.
    #[error("a word among the clauses is no number")]
    NoNumber,
    /// A literal's variable is above the header's count of variables.
    #[error("a variable above the count of the header")]
    UnknownVariable,
    /// The last clause is not ended by 0.
    #[error("the last clause is not ended by 0")]
    NoEnd,
    /// There are fewer or more clauses than the header says.
    #[error("another number of clauses than that of the header")]
    OtherCount,
    /// Memory is wanted.
    #[error("out of memory")]
    OutOfMemory,
}

impl From<AllocError> for Refusal {
    ghost from_gives = { λ _ e. e ≡ OutOfMemory };

    fn from(_error: AllocError) -> Refusal {
        Refusal::OutOfMemory
    }
}

impl<T: Drop> From<AllocFailed<T>> for Refusal {
    ghost from_gives = { λ _ e. e ≡ OutOfMemory };

    fn from(_error: AllocFailed<T>) -> Refusal {
        Refusal::OutOfMemory
    }
}
