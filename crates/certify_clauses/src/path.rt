//! The literals that the splits above a place in a tree set.

ghost use Rattle.std.specs.Prelude.{◌≡◌, ◌↔◌, ◌<◌, ◌≤◌, [], ◌∷◌, ◌++◌, length, IsTrue, MatchOption};
ghost use Rattle.std.specs.Prelude.{All, AllPairs, ◌≢◌, IfOk, IfSome, None, OnOk, OnErr};
ghost use Rattle.certify_clauses.specs.Paths.{IsFalseOn, value_on};

use crate::literal::Literal;
use std::alloc::{AllocError, Global};
use std::marker::Model;

/// The literals that the splits above a place in a tree set, the outermost first, each on a
/// variable of its own. The value that it gives a variable is found at once.
#[derive(Drop)]
pub struct Path {
    literals: Vec<Literal>,
    /// Of each variable its value, if it is on the path.
    values: Vec<Option<bool>>,
}

impl Model for Path {
    ghost use Rattle.std.specs.Prelude.{length};
    ghost use Rattle.certify_clauses.specs.PathView.{IsPath, PathView};

    ghost Value = { PathView };

    ghost view = { λ p. record { vars = length p.values.items; literals = p.literals.items } };

    ghost invariant = { λ p. IsPath p.literals.items p.values.items };
}

impl Path {
    /// The path of a tree's root, over the variables below `vars`.
    pub fn new(alloc: Global, vars: usize) -> Result<Path, AllocError>
        ensures { IfOk result (λ path. path ≡ record { vars = vars; literals = [] }) }
    {
        Ok(Path {
            literals: Vec::new(alloc),
            values: vec![in alloc; None; vars]?,
        })
    }

    /// The value that the path gives a variable, if the variable is on it.
    pub fn value_of(&self, var: u32) -> Option<bool>
        ensures { result ≡ value_on self.now.literals var }
    {
        match self.values.get(var as usize) {
            None => None,
            Some(value) => *value,
        }
    }

    /// Whether the path gives the literal's variable the other value.
    pub fn is_false(&self, literal: Literal) -> bool
        ensures { IsTrue result ↔ IsFalseOn self.now.literals literal }
    {
        match self.value_of(literal.var) {
            None => false,
            Some(value) => value != literal.plus,
        }
    }

    /// The literals, the outermost first.
    pub fn literals(&self) -> &[Literal]
        ensures literals { result.now ≡ self.now.literals }
        ensures few { length result.now ≤ self.now.vars }
        ensures below { All (λ l. l.var < self.now.vars) result.now }
        ensures once { AllPairs (λ k l. k.var ≢ l.var) result.now }
    {
        self.literals.as_slice()
    }

    /// Puts a literal at the end. Where memory is wanted the path is as before.
    pub fn push(&mut self, literal: Literal) -> Result<(), AllocError>
        requires there { literal.var < self.old.vars }
        requires fresh { value_on self.old.literals literal.var ≡ None }
        ensures ok { OnOk result (self.new ≡ record self.old {
          literals = self.old.literals ++ literal ∷ [];
        }) }
        ensures err { OnErr result (self.new ≡ self.old) }
    {
        self.literals.push(literal)?;
        self.values[literal.var as usize] = Some(literal.plus);
        Ok(())
    }

    /// Takes the last literal back, if there is one.
    pub fn pop(&mut self) -> Option<Literal>
        ensures vars { self.new.vars ≡ self.old.vars }
        ensures literals { MatchOption result
            ((self.old.literals ≡ []) × (self.new.literals ≡ []))
            (λ l. self.old.literals ≡ self.new.literals ++ l ∷ []) }
        ensures fresh { IfSome result (λ l. (l.var < self.new.vars) ×
            (value_on self.new.literals l.var ≡ None)) }
    {
        let last = self.literals.pop()?;
        self.values[last.var as usize] = None;
        Some(last)
    }
}
