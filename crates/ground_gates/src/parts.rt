//! What a disjunction is made of so far.

ghost use Rattle.std.specs.Prelude.{◌≡◌, ◌<◌, ℕ, Bool, List, ◌++◌, ◌∷◌, [], ◌||◌, map, length, All, IfOk, OnOk, reverse};
ghost use Rattle.ground_gates.specs.Gates.{literal_value};
ghost use Rattle.ground_gates.specs.Clauses.{inputs_by};
ghost use Rattle.ground_gates.specs.declared.gate.Gate.{Gate as AnyGate};
ghost use Rattle.ground_gates.specs.Literals.{is_false, is_none};
ghost use Rattle.ground_gates.specs.Meaning.{some_part, truth};
ghost use Rattle.ground_gates.specs.Parted.{IsWithGates, IsWithInput};

use crate::Literal;
use crate::literals::off;
use std::alloc::{AllocError, Global};

/// What a disjunction is made of so far: literals, inputs all of whose facts are true, and gates
/// that are not taken apart yet.
#[derive(Drop)]
pub(crate) struct Parts {
    pub(crate) literals: Vec<Literal>,
    pub(crate) inputs: Vec<u32>,
    pub(crate) stack: Vec<u32>,
}

/// Puts the literals that variables are false at the end.
pub(crate) fn push_negations(facts: &[u32], literals: &mut Vec<Literal>) -> Result<(), AllocError>
    ensures { OnOk result (literals.new.items ≡ literals.old.items ++ map is_false facts.now) }
{
    for fact in facts {
        literals.push(off(*fact))?;
    }
    Ok(())
}

impl Parts {
    /// That a variable is false, if there is one, or that one of two gates is true.
    pub(crate) fn new(
        alloc: Global,
        whole: Option<u32>,
        a: u32,
        b: u32,
    ) -> Result<Parts, AllocError>
        ensures literals { IfOk result (λ parts. parts.literals.items ≡ is_none whole) }
        ensures inputs { IfOk result (λ parts. parts.inputs.items ≡ []) }
        ensures stack { IfOk result (λ parts. parts.stack.items ≡ b ∷ a ∷ []) }
    {
        let mut literals = Vec::new(alloc);
        if let Some(variable) = whole {
            literals.push(off(variable))?;
        }
        Ok(Parts {
            literals,
            inputs: Vec::new(alloc),
            stack: vec![in alloc; b, a]?,
        })
    }

    /// One more part: what an input's literal says.
    pub(crate) fn add_input(
        &mut self,
        inputs: &[Vec<u32>],
        literal: Literal,
    ) -> Result<(), AllocError>
        requires { literal.var < length inputs.now }
        ensures { OnOk result (IsWithInput (map (λ xs. xs.items) inputs.now) literal self.old
            self.new) }
    {
        if literal.plus {
            self.inputs.push(literal.var)?;
            return Ok(());
        }
        push_negations(inputs[literal.var as usize].as_slice(), &mut self.literals)?;
        Ok(())
    }

    /// Two more parts: gates.
    pub(crate) fn add_gates(&mut self, a: u32, b: u32) -> Result<(), AllocError>
        ensures { OnOk result (IsWithGates a b self.old self.new) }
    {
        self.stack.push(b)?;
        self.stack.push(a)?;
        Ok(())
    }
}
