//! Which variables stand for literals of the theory.

ghost use Rattle.std.specs.Prelude.{◌≡◌, ◌<◌, [], ◌∷◌, ◌++◌, None, length, slice_index_or, IfOk, OnOk, OnErr};

use std::alloc::{AllocError, Global};
use std::marker::Model;

/// Of each variable the theory's literal where it is true and that where it is false, unless the
/// variable is no atom, which takes little room. Contracts see the list of these.
#[derive(Drop)]
pub struct Atoms<L: Copy> {
    /// Of each variable where its literals stand, if it has some.
    places: Vec<Option<u32>>,
    literals: Vec<(L, L)>,
}

impl<L: Copy> Model for Atoms<L> {
    ghost use Rattle.std.specs.Prelude.{List, Option, map, All, length};
    ghost use Rattle.solve_solver.specs.Atoms.{atom_at, atoms_code, IsPlaceIn};

    ghost Value = { List (Option (L × L)) };

    ghost coded = { atoms_code L.code };

    ghost view = { λ a. map (atom_at a.literals.items) a.places.items };

    ghost invariant = { λ a. All (IsPlaceIn (length a.literals.items)) a.places.items };
}

impl<L: Copy> Atoms<L> {
    /// No variables.
    pub fn new(alloc: Global) -> Atoms<L>
        ensures { result ≡ [] }
    {
        Atoms {
            places: Vec::new(alloc),
            literals: Vec::new(alloc),
        }
    }

    /// These atoms, one for each variable.
    pub(crate) fn from_list(alloc: Global, list: &[Option<(L, L)>]) -> Result<Atoms<L>, AllocError>
        ensures { IfOk result (λ atoms. atoms ≡ list.now) }
    {
        let mut atoms = Atoms::new(alloc);
        for atom in list {
            atoms.push(*atom)?;
        }
        Ok(atoms)
    }

    /// How many variables there are.
    pub fn len(&self) -> usize
        ensures { result ≡ length self.now }
    {
        self.places.len()
    }

    /// The literals of a variable, if it is an atom.
    pub fn get(&self, var: usize) -> Option<(L, L)>
        requires { var < length self.now }
        ensures { result ≡ slice_index_or self.now var None }
    {
        match self.places[var] {
            None => None,
            Some(place) => Some(self.literals[place as usize]),
        }
    }

    /// Puts one more variable at the end. Where memory is wanted the atoms are as before. Four
    /// thousand million atoms count as memory that is not there.
    pub fn push(&mut self, atom: Option<(L, L)>) -> Result<(), AllocError>
        ensures ok { OnOk result (self.new ≡ self.old ++ atom ∷ []) }
        ensures err { OnErr result (self.new ≡ self.old) }
    {
        let Some(pair) = atom else {
            self.places.push(None)?;
            return Ok(());
        };
        if self.literals.len() > u32::MAX as usize {
            return Err(AllocError);
        }
        let place = self.literals.len() as u32;
        self.literals.push(pair)?;
        self.places.push(Some(place))?;
        Ok(())
    }
}
