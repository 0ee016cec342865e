//! How many nodes a formula has where each `forall` is written out over its terms.

ghost use Rattle.std.specs.Prelude.{◌+◌, ◌*◌, length, IfOk};
ghost use Rattle.form_formula.specs.Nodes.{IsBelow, IsFormula, formula_of};
ghost use Rattle.form_terms.specs.Counts.{nodes_over};
ghost use Rattle.ground_terms.specs.Counting.{IsAlike, count_in, node_size};

use crate::counts::count_of;
use form_formula::{Arena, Node};
use std::alloc::{AllocError, Global};

/// One more than two sizes together.
fn with_both(left: u64, right: u64) -> u64
    ensures { IsAlike result (1 + (left + right)) }
{
    left.saturating_add(right).saturating_add(1)
}

/// One more than so many times a size.
fn with_each(count: u64, size: u64) -> u64
    ensures { IsAlike result (1 + count * size) }
{
    count.saturating_mul(size).saturating_add(1)
}

/// The size of a node whose parts have these sizes.
fn size_of(node: &Node, sizes: &[u64], counts: &[u64]) -> u64
    requires { IsBelow (length sizes.now) node.now }
    ensures { IsAlike result (node_size (count_in counts.now) (count_in sizes.now) node.now) }
{
    match node {
        Node::Bound(..) | Node::Num(_) | Node::Str(_) | Node::Yes | Node::No => 1,
        Node::Eq(s, t) | Node::Less(s, t) | Node::Has(_, s, t) => {
            with_both(sizes[*s as usize], sizes[*t as usize])
        }
        Node::And(a, b) | Node::Or(a, b) => with_both(sizes[*a as usize], sizes[*b as usize]),
        Node::App(_, t) | Node::Flag(_, t) | Node::Present(_, t) => {
            sizes[*t as usize].saturating_add(1)
        }
        Node::Not(a) => sizes[*a as usize],
        Node::Exists(_, a) => sizes[*a as usize].saturating_add(1),
        Node::Forall(sort, a) => with_each(count_of(counts, *sort), sizes[*a as usize]),
    }
}

/// The size of a formula where each `forall` is written out over so many terms of its sort.
///
/// The size is that of the tree. It is found in one pass over the nodes, each of which is counted
/// once, however often it is shared.
pub(crate) fn nodes_over(
    alloc: Global,
    arena: &Arena,
    id: u32,
    counts: &[u64],
) -> Result<u64, AllocError>
    requires { IsFormula arena.now id }
    ensures { IfOk result (λ nodes. IsAlike nodes (nodes_over (count_in counts.now) (formula_of
        arena.now id))) }
{
    let _nodes = arena.len();
    let mut sizes = Vec::new(alloc);
    for at in 0..id {
        let size = size_of(arena.node(at), sizes.as_slice(), counts);
        sizes.push(size)?;
    }
    Ok(size_of(arena.node(id), sizes.as_slice(), counts))
}
