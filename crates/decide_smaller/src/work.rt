//! How long the evaluation of a formula on a structure takes at most.

use crate::fitting::size_of;
use form_formula::{Arena, Node, Structure};
use std::alloc::{AllocError, Global};

/// How many pairs a set relation has.
fn pairs_of(structure: &Structure, relation: u32) -> u64 {
    match structure.sets.as_slice().get(relation as usize) {
        Some(pairs) => pairs.len() as u64,
        None => 0,
    }
}

/// The steps for a node, from those for the nodes before it. A set relation is read pair by pair.
fn steps(structure: &Structure, node: &Node, before: &[u64]) -> u64 {
    let of = |id: u32| before.get(id as usize).copied().unwrap_or(0);
    let below = match node {
        Node::App(_, a) | Node::Flag(_, a) | Node::Present(_, a) | Node::Not(a) => of(*a),
        Node::Eq(a, b) | Node::Less(a, b) | Node::And(a, b) | Node::Or(a, b) => {
            of(*a).saturating_add(of(*b))
        }
        Node::Has(relation, a, b) => of(*a)
            .saturating_add(of(*b))
            .saturating_add(pairs_of(structure, *relation)),
        Node::Exists(sort, a) | Node::Forall(sort, a) => {
            of(*a).saturating_mul(u64::from(size_of(structure, *sort)))
        }
        Node::Bound(..) | Node::Num(_) | Node::Str(_) | Node::Yes | Node::No => 0,
    };
    below.saturating_add(1)
}

/// The steps for the formula.
pub(crate) fn steps_of(
    alloc: Global,
    structure: &Structure,
    arena: &Arena,
    id: u32,
) -> Result<u64, AllocError> {
    let mut all: Vec<u64> = Vec::new(alloc);
    for place in 0..arena.len() {
        let count = steps(structure, arena.node(place as u32), all.as_slice());
        all.push(count)?;
    }
    Ok(all.as_slice().get(id as usize).copied().unwrap_or(u64::MAX))
}

/// The values and pairs of a structure.
pub(crate) fn cells_of(structure: &Structure) -> u64 {
    let mut cells: u64 = 0;
    for table in structure.funs.as_slice() {
        cells = cells.saturating_add(table.len() as u64);
    }
    for pairs in structure.sets.as_slice() {
        cells = cells.saturating_add(pairs.len() as u64);
    }
    cells
}
