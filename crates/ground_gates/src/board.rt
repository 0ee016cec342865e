//! The clauses and the variables so far.

ghost use Rattle.std.specs.Prelude.{◌≡◌, ◌<◌, ◌++◌, IfOk, OnOk, map, take};
ghost use Rattle.ground_gates.specs.Said.{HasGate, IsPushed, clauses_in};

use crate::Literal;
use crate::names::Names;
use std::alloc::{AllocError, Global};

/// The clauses so far, and their variables.
#[derive(Drop)]
pub(crate) struct Board {
    pub(crate) names: Names,
    pub(crate) clauses: Vec<Vec<Literal>>,
}

impl Board {
    /// Puts a clause at the end.
    pub(crate) fn push(&mut self, alloc: Global, clause: &[Literal]) -> Result<(), AllocError>
        ensures { OnOk result (IsPushed self.old self.new clause.now) }
    {
        let clause = Vec::from_slice(alloc, clause)?;
        self.clauses.push(clause)?;
        Ok(())
    }

    /// The variable of a gate, which is added if it has none.
    pub(crate) fn name_gate(&mut self, gate: u32) -> Result<u32, AllocError>
        requires { gate < self.old.names.places }
        ensures { IfOk result (HasGate gate self.old self.new) }
    {
        let variable = self.names.name_gate(gate)?;
        Ok(variable)
    }
}
