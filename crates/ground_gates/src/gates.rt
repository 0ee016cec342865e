//! Numbered gates.

ghost use Rattle.std.specs.Prelude.{
  ◌≡◌,
  ◌<◌,
  ◌^◌,
  [],
  length,
  slice_get,
  Some,
  IfOk,
  OnErr,
  IsTrue,
};
ghost use Rattle.ground_gates.specs.Gates.{ArePlaced, IsPlaced};
ghost use Rattle.ground_gates.specs.Added.{IsAdded};

use crate::gate::Gate;
use indexmap::IndexSet;
use std::alloc::{AllocError, Global};
use std::marker::Model;

/// Numbered gates, each after its parts. Equal gates are one. Contracts see the list of the gates.
#[derive(Drop)]
pub struct Gates {
    gates: IndexSet<Gate>,
}

impl Model for Gates {
    ghost use Rattle.std.specs.Prelude.{◌<◌, ◌^◌, List, length};
    ghost use Rattle.ground_gates.specs.declared.gate.Gate.{Gate};
    ghost use Rattle.ground_gates.specs.Gates.{ArePlaced};

    ghost Value = { List Gate };

    ghost view = { λ g. g.gates.keys };

    ghost invariant = { λ g. ArePlaced g.gates.keys × (length g.gates.keys < 2 ^ 32) };
}

impl Gates {
    /// No gates.
    pub fn new(alloc: Global) -> Result<Gates, AllocError>
        ensures { IfOk result (λ gates. gates ≡ []) }
    {
        Ok(Gates {
            gates: IndexSet::new(alloc),
        })
    }

    /// How many gates there are.
    pub fn len(&self) -> usize
        ensures len { result ≡ length self.now }
        ensures few { result < 2 ^ 32 }
        ensures placed { ArePlaced self.now }
    {
        self.gates.len()
    }

    /// The gates.
    pub fn as_slice(&self) -> &[Gate]
        ensures { result.now ≡ self.now }
    {
        self.gates.as_slice()
    }

    /// The number of the gate, which is added if there is none equal to it. Four thousand million
    /// gates count as memory that is not there.
    pub fn add(&mut self, gate: Gate) -> Result<u32, AllocError>
        requires { IsPlaced (length self.old) gate }
        ensures made { IfOk result (IsAdded self.old gate self.new) }
        ensures err { OnErr result (self.new ≡ self.old) }
    {
        if self.gates.len() >= u32::MAX as usize {
            return Err(AllocError);
        }
        let (place, _) = self.gates.insert_full(gate)?;
        Ok(place as u32)
    }
}
