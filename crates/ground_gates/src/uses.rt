//! How often a gate is a part of others.

use crate::{Gate, Gates};
use std::alloc::{AllocError, Global};

/// Counts one use more of a gate.
fn count(uses: &mut Vec<u32>, gate: u32) {
    let place = gate as usize;
    if place < uses.len() {
        uses[place] = uses[place].saturating_add(1);
    }
}

/// Of each gate how often it is a part of others. A hint: it decides which gates have variables.
pub(crate) fn uses_of(alloc: Global, gates: &Gates) -> Result<Vec<u32>, AllocError> {
    let mut uses = vec![in alloc; 0; gates.len()]?;
    for gate in gates.as_slice() {
        match gate {
            Gate::Both(a, b) | Gate::Either(a, b) => {
                count(&mut uses, *a);
                count(&mut uses, *b);
            }
            Gate::Yes | Gate::No | Gate::Input(_) => {}
        }
    }
    Ok(uses)
}
