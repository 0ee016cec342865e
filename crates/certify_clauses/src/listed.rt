//! Clauses in memory.

ghost use Rattle.std.specs.Prelude.{◌≡◌, ◌≢◌, ◌^◌, ◌<◌, ◌↔◌, All, AllPairs, IsTrue, length};
ghost use Rattle.std.specs.Prelude.{vec_len};
ghost use Rattle.certify_clauses.specs.Listed.{AreTaken};
ghost use Rattle.certify_clauses.specs.Paths.{IsFalseOn};

use crate::clauses::{Atom, Clauses};
use crate::literal::Literal;
use crate::path::Path;
use std::alloc::AllocError;

/// Clauses as a list, with one entry for each variable that says whether it is an atom.
#[derive(Drop)]
pub struct ListedClauses {
    pub clauses: Vec<Vec<Literal>>,
    pub atoms: Vec<Option<(Atom, Atom)>>,
    /// How many terms there are.
    pub terms: usize,
    /// Those that are pairwise different.
    pub fixed: Vec<u32>,
    /// How many numbers there are.
    pub numbers: usize,
    ghost few_vars: { vec_len atoms < 2 ^ 32 },
    ghost few_terms: { terms < 2 ^ 32 },
    ghost few_numbers: { numbers < 2 ^ 32 },
    ghost some_number: { 0 < numbers },
    ghost fixed_within: { All (λ f. f < terms) fixed.items },
    ghost fixed_once: { AllPairs (λ f g. f ≢ g) fixed.items },
    ghost taken: { AreTaken terms numbers atoms.items },
}

/// Whether each literal of a clause is false on a path.
fn are_false(clause: &[Literal], path: &Path) -> bool
    ensures { IsTrue result ↔ All (IsFalseOn path.now.literals) clause.now }
{
    for literal in clause {
        if !path.is_false(*literal) {
            return false;
        }
    }
    true
}

impl Clauses for ListedClauses {
    ghost use Rattle.certify_clauses.specs.Listed.{problem_of};

    ghost problem = { λ c. problem_of c.clauses.items c.atoms.items c.terms c.fixed.items c.numbers };

    fn vars(&self) -> u32 {
        self.atoms.len() as u32
    }

    fn is_false(&self, number: u32, path: &Path) -> Result<bool, AllocError> {
        match self.clauses.get(number as usize) {
            None => Ok(false),
            Some(clause) => Ok(are_false(clause.as_slice(), path)),
        }
    }

    fn said_by(&self, literal: Literal) -> Option<Atom> {
        let atom = *self.atoms.get(literal.var as usize)?;
        let (so, not_so) = atom?;
        if literal.plus { Some(so) } else { Some(not_so) }
    }

    fn terms(&self) -> usize {
        self.terms
    }

    fn fixed(&self) -> &[u32] {
        self.fixed.as_slice()
    }

    fn numbers(&self) -> usize {
        self.numbers
    }
}
