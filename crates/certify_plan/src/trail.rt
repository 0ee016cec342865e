//! What holds at a point of the search.

ghost use Rattle.std.specs.Prelude.{[]};
ghost use Rattle.certify_clauses.specs.InMemory.{problem_in};
ghost use Rattle.certify_recheck.specs.Walking.{IsReady};

use crate::blame::blame;
use certify_clauses::{Atom, Clauses, ListedClauses, Literal, Path};
use certify_recheck::{Told, has_no_model, take_back};
use solve_theory::{LitBuf, Theory};
use sqlite_items::Items;
use std::alloc::{AllocError, Global};
use std::marker::Model;

/// The literals that hold at a point of the search, and the procedures, which were told the first
/// of them.
#[derive(Drop)]
pub(crate) struct Trail<'a, T: Theory<Lit = Atom, Model = (Items<u32>, Items<i64>)>> {
    c: &'a ListedClauses,
    path: Path,
    told: Told<T>,
    /// For the conflicts of the procedures.
    core: LitBuf<u32>,
}

impl<'a, T: Theory<Lit = Atom, Model = (Items<u32>, Items<i64>)>> Model for Trail<'a, T> {
    ghost use Rattle.certify_clauses.specs.InMemory.{problem_in};
    ghost use Rattle.certify_clauses.specs.PathView.{PathView};
    ghost use Rattle.certify_plan.specs.Kept.{IsKept};

    ghost Value = { PathView };

    ghost view = { λ s. s.path };

    ghost invariant = { λ s. IsKept (problem_in s.c.now) s.path s.told.count
        (T.literals s.told.theory) (T.capacity s.told.theory) (T.takes s.told.theory)
        (T.models s.told.theory) T.meets s.core.capacity };
}

impl<'a, T: Theory<Lit = Atom, Model = (Items<u32>, Items<i64>)> + Drop> Trail<'a, T> {
    /// Nothing holds.
    pub(crate) fn new(
        alloc: Global,
        c: &'a ListedClauses,
        told: Told<T>,
    ) -> Result<Trail<'a, T>, AllocError>
        requires ready { IsReady (problem_in c.now) [] told.count (T.literals told.theory)
            (T.capacity told.theory) (T.takes told.theory) (T.models told.theory) T.meets }
    {
        let path = Path::new(alloc, c.atoms.len())?;
        let core = LitBuf::new(alloc, c.atoms.len())?;
        Ok(Trail {
            c,
            path,
            told,
            core,
        })
    }
}

impl<'a, T: Theory<Lit = Atom, Model = (Items<u32>, Items<i64>)>> Trail<'a, T> {
    /// The literals as a path.
    pub(crate) fn path(&self) -> &Path {
        &self.path
    }

    /// Whether a literal holds, if its variable has a value.
    pub(crate) fn value_of(&self, literal: Literal) -> Option<bool> {
        match self.path.value_of(literal.var) {
            None => None,
            Some(value) => Some(value == literal.plus),
        }
    }

    /// The literal at a place.
    pub(crate) fn at(&self, place: usize) -> Option<Literal> {
        match self.path.literals().get(place) {
            None => None,
            Some(literal) => Some(*literal),
        }
    }

    /// How many literals hold.
    pub(crate) fn len(&self) -> usize {
        self.path.literals().len()
    }

    /// Sets a literal, and says whether it could be set: its variable is there and had no value.
    pub(crate) fn set(&mut self, literal: Literal) -> Result<bool, AllocError> {
        if literal.var as usize >= self.c.atoms.len() {
            return Ok(false);
        }
        if self.path.value_of(literal.var).is_some() {
            return Ok(false);
        }
        self.path.push(literal)?;
        Ok(true)
    }

    /// Takes the latest literal back.
    pub(crate) fn take_back(&mut self) -> Option<Literal> {
        take_back(self.c, &mut self.path, &mut self.told)
    }

    /// The literals that say something, of all that hold.
    fn saying(&self, alloc: Global) -> Result<Vec<Literal>, AllocError> {
        let mut saying = Vec::new(alloc);
        for literal in self.path.literals() {
            if self.c.said_by(*literal).is_some() {
                saying.push(*literal)?;
            }
        }
        Ok(saying)
    }

    /// Some literals that have no model together, where all that hold have none.
    pub(crate) fn clash(&mut self, alloc: Global) -> Result<Option<Vec<Literal>>, AllocError> {
        if !has_no_model(self.c, self.path.literals(), &mut self.told) {
            return Ok(None);
        }
        blame(self.c, self.path.literals(), &mut self.told, &mut self.core);
        let saying = self.saying(alloc)?;
        let mut clash = Vec::new(alloc);
        for place in self.core.items() {
            if let Some(literal) = saying.get(*place as usize) {
                clash.push(*literal)?;
            }
        }
        Ok(Some(clash))
    }
}
