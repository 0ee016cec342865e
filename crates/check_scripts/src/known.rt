//! Formulas that were cleared.

ghost use Rattle.std.specs.Prelude.{◌≡◌, true, IfOk, OnOk};
ghost use Rattle.form_formula.specs.Added.{Extends};
ghost use Rattle.form_formula.specs.Nodes.{IsFormula};
ghost use Rattle.check_scripts.specs.Safe.{IsSafeIn};

use form_formula::{Arena, Signature};
use std::alloc::{AllocError, Global};
use std::marker::Model;

/// How many formulas are kept: as many as the two rights of a command have kinds of principals,
/// mostly.
const MOST: usize = 128;

/// How many nodes the arena of a formula that is kept has at most.
const MOST_KNOWN_NODES: usize = 1_024;

/// A formula that was cleared, as a number in its arena.
#[derive(Drop)]
struct Entry {
    arena: Arena,
    id: u32,
}

/// Some formulas that were cleared over a signature: one that is equal need not be decided again.
/// Which of them are kept rests on no proof. Contracts see the signature.
#[derive(Drop)]
pub struct Known<'a> {
    signature: &'a Signature,
    entries: Vec<Entry>,
}

impl<'a> Model for Known<'a> {
    ghost use Rattle.form_formula.specs.declared.structure.Signature.{Signature as AnySignature};
    ghost use Rattle.std.specs.Prelude.{All};
    ghost use Rattle.check_scripts.specs.Safe.{IsSafeIn};

    ghost Value = { AnySignature };

    ghost view = { λ c. c.signature.now };

    ghost invariant = { λ c. All (λ e. IsSafeIn c.signature.now e.arena e.id) c.entries.items };
}

impl<'a> Known<'a> {
    /// None over this signature.
    pub fn new(alloc: Global, signature: &'a Signature) -> Known<'a>
        ensures { result ≡ signature.now }
    {
        Known {
            signature,
            entries: Vec::new(alloc),
        }
    }

    /// Whether an equal formula is here.
    #[tactic(auto, using(crate::proofs::Kept::safe_in_front))]
    pub(crate) fn has(&self, arena: &Arena, id: u32) -> bool
        requires { IsFormula arena.now id }
        ensures { result ≡ true → IsSafeIn self.now arena.now id }
    {
        for entry in &self.entries {
            if entry.id == id && extends(arena, &entry.arena) {
                return true;
            }
        }
        false
    }

    /// Keeps a formula. Where there are many, the others are forgotten.
    pub(crate) fn keep(&mut self, arena: Arena, id: u32) -> Result<(), AllocError>
        requires { IsSafeIn self.old arena id }
        ensures { OnOk result (self.new ≡ self.old) }
    {
        if arena.len() > MOST_KNOWN_NODES {
            return Ok(());
        }
        self.make_room();
        self.entries.push(Entry { arena, id })?;
        Ok(())
    }

    /// Forgets all formulas where there are many.
    fn make_room(&mut self)
        ensures { self.new ≡ self.old }
    {
        if self.entries.len() >= MOST {
            self.entries.clear();
        }
    }
}

/// Whether all nodes of an arena are in another, under their numbers.
fn extends(front: &Arena, whole: &Arena) -> bool
    ensures { result ≡ true → Extends front.now whole.now }
{
    if whole.len() < front.len() {
        return false;
    }
    for id in 0..front.len() {
        if front.node(id as u32) != whole.node(id as u32) {
            return false;
        }
    }
    true
}
