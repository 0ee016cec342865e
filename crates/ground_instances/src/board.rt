//! Gates over inputs, as they are built.

ghost use Rattle.std.specs.Prelude.{◌≡◌, ◌<◌, Bool, List, ◌&&◌, ◌||◌, cond, length};
ghost use Rattle.std.specs.Prelude.{not, IfOk, OnOk};
ghost use Rattle.form_formula.specs.declared.node.Node.{Node as AnyNode};
ghost use Rattle.ground_gates.specs.Gates.{IsPlaced};
ghost use Rattle.form_terms.specs.GroundTerms.{GroundTerm};
ghost use Rattle.ground_instances.specs.Boards.{Grows, IsBlank, Means};
ghost use Rattle.ground_instances.specs.GroundAtoms.{GroundAtom};
ghost use Rattle.ground_instances.specs.Inputs.{IsInput, input_value};

use crate::input::Input;
use crate::inputs::Inputs;
use ground_gates::{Gate, Gates, Literal};
use ground_terms::TermArena;
use std::alloc::{AllocError, Global};

/// Numbered ground terms, the inputs that speak of them, and gates over these.
#[derive(Drop)]
pub(crate) struct Board {
    pub(crate) terms: TermArena,
    pub(crate) inputs: Inputs,
    pub(crate) gates: Gates,
}

impl Board {
    /// No inputs and no gates, over these terms.
    pub(crate) fn new(alloc: Global, terms: TermArena) -> Result<Board, AllocError>
        ensures { IfOk result (λ board. IsBlank terms board) }
    {
        Ok(Board {
            terms,
            inputs: Inputs::new(alloc)?,
            gates: Gates::new(alloc)?,
        })
    }

    /// The gate that is always true, or never.
    pub(crate) fn constant(&mut self, value: bool) -> Result<u32, AllocError>
        ensures grows { OnOk result (Grows self.old self.new) }
        ensures means { IfOk result (λ gate. (nodes : List AnyNode) →
            Means nodes self.new (λ is_there holds. value) gate) }
    {
        if value {
            let gate = self.gates.add(Gate::Yes)?;
            return Ok(gate);
        }
        let gate = self.gates.add(Gate::No)?;
        Ok(gate)
    }

    /// The gate that is true where an input is, or where it is not.
    pub(crate) fn input(&mut self, input: Input, plus: bool) -> Result<u32, AllocError>
        requires { IsInput self.old.terms input }
        ensures grows { OnOk result (Grows self.old self.new) }
        ensures means { IfOk result (λ gate. (nodes : List AnyNode) → Means nodes self.new
            (λ is_there holds. cond plus (input_value nodes self.old.terms is_there holds input)
            (not (input_value nodes self.old.terms is_there holds input))) gate) }
    {
        let var = self.inputs.add(input)?;
        let gate = self.gates.add(Gate::Input(Literal { var, plus }))?;
        Ok(gate)
    }

    /// The gate that is true where both are.
    pub(crate) fn both(&mut self, a: u32, b: u32) -> Result<u32, AllocError>
        requires { IsPlaced (length self.old.gates) (Gate.Both a b) }
        ensures grows { OnOk result (Grows self.old self.new) }
        ensures means { IfOk result (λ gate. (nodes : List AnyNode)
            (p q : (GroundTerm → Bool) → (GroundAtom → Bool) → Bool) →
            Means nodes self.old p a → Means nodes self.old q b → Means nodes self.new
            (λ is_there holds. p is_there holds && q is_there holds) gate) }
    {
        let gate = self.gates.add(Gate::Both(a, b))?;
        Ok(gate)
    }

    /// The gate that is true where one of them is.
    pub(crate) fn either(&mut self, a: u32, b: u32) -> Result<u32, AllocError>
        requires { IsPlaced (length self.old.gates) (Gate.Either a b) }
        ensures grows { OnOk result (Grows self.old self.new) }
        ensures means { IfOk result (λ gate. (nodes : List AnyNode)
            (p q : (GroundTerm → Bool) → (GroundAtom → Bool) → Bool) →
            Means nodes self.old p a → Means nodes self.old q b → Means nodes self.new
            (λ is_there holds. p is_there holds || q is_there holds) gate) }
    {
        let gate = self.gates.add(Gate::Either(a, b))?;
        Ok(gate)
    }
}
