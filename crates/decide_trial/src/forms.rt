//! Formulas, as tests and benches write them.

ghost use Rattle.std.specs.Prelude.{◌<◌, length, OnOk};

use crate::over::{Scope, is_formula, is_over, is_term};
use decide_verdict::{Verdict, decide};
use form_formula::{Arena, Signature, Structure, holds};
use std::alloc::{AllocError, Global};

/// How many nodes formulas have at most.
const MOST_TRIAL_NODES: usize = 1_000_000;

/// How many parts of a formula stand below each other at most.
const MOST_DEPTH: u32 = 10_000;

/// An arena that takes what is well formed. What is not counts as memory that is not there.
#[derive(Drop)]
pub struct Forms {
    arena: Arena,
}

/// Checks that there is room.
fn check_room(arena: &Arena) -> Result<(), AllocError>
    ensures { OnOk result (length arena.now < MOST_TRIAL_NODES) }
{
    if arena.len() < MOST_TRIAL_NODES {
        Ok(())
    } else {
        Err(AllocError)
    }
}

impl Forms {
    /// No formulas.
    pub fn new(alloc: Global) -> Result<Forms, AllocError> {
        let arena = Arena::new(alloc)?;
        Ok(Forms { arena })
    }

    /// The variable of a quantifier above which so many stand.
    pub fn bound(&mut self, sort: u32, depth: u32) -> Result<u32, AllocError> {
        check_room(&self.arena)?;
        self.arena.mk_bound(sort, depth)
    }

    /// A number.
    pub fn num(&mut self, n: i64) -> Result<u32, AllocError> {
        check_room(&self.arena)?;
        self.arena.mk_num(n)
    }

    /// A function at a term.
    pub fn app(&mut self, f: u32, t: u32) -> Result<u32, AllocError> {
        check_room(&self.arena)?;
        if !is_term(&self.arena, t) {
            return Err(AllocError);
        }
        self.arena.mk_app(f, t)
    }

    /// Yes.
    pub fn yes(&mut self) -> Result<u32, AllocError> {
        check_room(&self.arena)?;
        self.arena.mk_yes()
    }

    /// No.
    pub fn no(&mut self) -> Result<u32, AllocError> {
        check_room(&self.arena)?;
        self.arena.mk_no()
    }

    /// That two terms are equal.
    pub fn equal(&mut self, s: u32, t: u32) -> Result<u32, AllocError> {
        check_room(&self.arena)?;
        if !is_term(&self.arena, s) || !is_term(&self.arena, t) {
            return Err(AllocError);
        }
        self.arena.mk_eq(s, t)
    }

    /// That a number is below another.
    pub fn less(&mut self, s: u32, t: u32) -> Result<u32, AllocError> {
        check_room(&self.arena)?;
        if !is_term(&self.arena, s) || !is_term(&self.arena, t) {
            return Err(AllocError);
        }
        self.arena.mk_less(s, t)
    }

    /// That a set relation holds.
    pub fn has(&mut self, r: u32, s: u32, t: u32) -> Result<u32, AllocError> {
        check_room(&self.arena)?;
        if !is_term(&self.arena, s) || !is_term(&self.arena, t) {
            return Err(AllocError);
        }
        self.arena.mk_has(r, s, t)
    }

    /// That a function to truth values gives true.
    pub fn flag(&mut self, f: u32, t: u32) -> Result<u32, AllocError> {
        check_room(&self.arena)?;
        if !is_term(&self.arena, t) {
            return Err(AllocError);
        }
        self.arena.mk_flag(f, t)
    }

    /// That a function has a value.
    pub fn present(&mut self, f: u32, t: u32) -> Result<u32, AllocError> {
        check_room(&self.arena)?;
        if !is_term(&self.arena, t) {
            return Err(AllocError);
        }
        self.arena.mk_some(f, t)
    }

    /// That a formula is false.
    pub fn not(&mut self, a: u32) -> Result<u32, AllocError> {
        check_room(&self.arena)?;
        if !is_formula(&self.arena, a) {
            return Err(AllocError);
        }
        self.arena.mk_not(a)
    }

    /// That both are true.
    pub fn and(&mut self, a: u32, b: u32) -> Result<u32, AllocError> {
        check_room(&self.arena)?;
        if !is_formula(&self.arena, a) || !is_formula(&self.arena, b) {
            return Err(AllocError);
        }
        self.arena.mk_and(a, b)
    }

    /// That one of them is true.
    pub fn or(&mut self, a: u32, b: u32) -> Result<u32, AllocError> {
        check_room(&self.arena)?;
        if !is_formula(&self.arena, a) || !is_formula(&self.arena, b) {
            return Err(AllocError);
        }
        self.arena.mk_or(a, b)
    }

    /// That some element of a sort makes a formula true.
    pub fn exists(&mut self, sort: u32, a: u32) -> Result<u32, AllocError> {
        check_room(&self.arena)?;
        if !is_formula(&self.arena, a) {
            return Err(AllocError);
        }
        self.arena.mk_exists(sort, a)
    }

    /// That each element of a sort does.
    pub fn forall(&mut self, sort: u32, a: u32) -> Result<u32, AllocError> {
        check_room(&self.arena)?;
        if !is_formula(&self.arena, a) {
            return Err(AllocError);
        }
        self.arena.mk_forall(sort, a)
    }

    /// The nodes of the formulas.
    pub fn arena(&self) -> &Arena {
        &self.arena
    }

    /// The verdict on a formula. One that is not over the signature counts as memory that is not
    /// there.
    pub fn verdict_on(
        &mut self,
        alloc: Global,
        signature: &Signature,
        id: u32,
    ) -> Result<Verdict, AllocError> {
        check_room(&self.arena)?;
        if !is_formula(&self.arena, id) {
            return Err(AllocError);
        }
        let scope = Scope {
            signature,
            arena: &self.arena,
            sorts: &[],
        };
        if !is_over(alloc, scope, id, MOST_DEPTH)? {
            return Err(AllocError);
        }
        decide(alloc, &mut self.arena, id, signature)
    }

    /// Whether a formula is true on a structure.
    pub fn is_true_on(
        &self,
        alloc: Global,
        structure: &Structure,
        id: u32,
    ) -> Result<bool, AllocError> {
        if !is_formula(&self.arena, id) {
            return Err(AllocError);
        }
        holds(alloc, structure, &self.arena, id)
    }
}
