//! The gates that become clauses.

use crate::{Gate, Gates};

/// Gates with the variables of their inputs' facts, and how often each gate is a part of others.
#[derive(Clone, Copy)]
pub(crate) struct Source<'a> {
    pub(crate) gates: &'a Gates,
    pub(crate) inputs: &'a [Vec<u32>],
    pub(crate) uses: &'a [u32],
    /// The gate of which clauses are made: those that get variables are below it.
    pub(crate) below: u32,
}

impl Source<'_> {
    /// Whether a gate has parts, and is one of several others.
    pub(crate) fn is_shared(&self, gate: u32) -> bool {
        let place = gate as usize;
        match (self.gates.as_slice().get(place), self.uses.get(place)) {
            (Some(Gate::Both(..) | Gate::Either(..)), Some(uses)) => *uses > 1,
            _ => false,
        }
    }
}
