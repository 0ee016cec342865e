//! The edges of the terms in atoms.

ghost use Rattle.std.specs.Prelude.{◌≡◌, ◌++◌, true, slice_get, IfOk, OnOk};
ghost use Rattle.form_formula.specs.Nodes.{IsTerm, term_of};
ghost use Rattle.form_strata.specs.SortGraph.{is_dependent, term_edges, function_edge, range_edge};
ghost use Rattle.form_strata.specs.Dependence.{own_dependence};
ghost use Rattle.form_strata.specs.Visits.{free_ones};

use form_formula::{Arena, Node, Range, Signature};
use std::alloc::AllocError;

/// Adds the edges of a term, where all variables above are dependent but so many of the outermost.
pub(crate) fn add_term_edges(
    arena: &Arena,
    signature: &Signature,
    free: u32,
    id: u32,
    edges: &mut Vec<(u32, u32)>,
) -> Result<(), AllocError>
    requires { IsTerm arena.now id }
    ensures { OnOk result (edges.new.items
        ≡ edges.old.items ++ term_edges (free_ones free) signature.now (term_of arena.now id)) }
{
    if is_dependent(arena, free, id) {
        add_function_edges(arena, signature, free, id, edges)
    } else {
        Ok(())
    }
}

/// Adds an edge for each function on the way to the innermost part of a term, which is dependent.
fn add_function_edges(
    arena: &Arena,
    signature: &Signature,
    free: u32,
    id: u32,
    edges: &mut Vec<(u32, u32)>,
) -> Result<(), AllocError>
    requires term { IsTerm arena.now id }
    requires dependent { is_dependent (free_ones free) (term_of arena.now id) ≡ true }
    ensures { OnOk result (edges.new.items
        ≡ edges.old.items ++ term_edges (free_ones free) signature.now (term_of arena.now id)) }
{
    let mut at = id;
    while let Node::App(f, t) = arena.node(at) {
        add_edge(signature, *f, edges)?;
        at = *t;
    }
    Ok(())
}

/// Adds the edge of a function, if it gives elements.
fn add_edge(signature: &Signature, f: u32, edges: &mut Vec<(u32, u32)>) -> Result<(), AllocError>
    ensures { OnOk result (edges.new.items
        ≡ edges.old.items ++ function_edge (slice_get signature.now.funs f)) }
{
    match signature.funs.get(f as usize) {
        Some(function) => match function.to {
            Range::Rec(to) => {
                edges.push((function.from, to))?;
                Ok(())
            }
            Range::Flag | Range::Num | Range::Str => Ok(()),
        },
        None => Ok(()),
    }
}

/// Whether a term holds a dependent variable.
fn is_dependent(arena: &Arena, free: u32, id: u32) -> bool
    requires { IsTerm arena.now id }
    ensures { result ≡ is_dependent (free_ones free) (term_of arena.now id) }
{
    let mut at = id;
    loop {
        match arena.node(at) {
            Node::App(_, t) => at = *t,
            node => return is_dependent_node(free, node),
        }
    }
}

/// Whether a node that is no function at a term is a dependent variable.
fn is_dependent_node(free: u32, node: &Node) -> bool
    ensures { result ≡ own_dependence (free_ones free) node.now }
{
    match node {
        Node::Bound(_, depth) => *depth >= free,
        Node::Num(_)
        | Node::Str(_)
        | Node::App(..)
        | Node::Yes
        | Node::No
        | Node::Eq(..)
        | Node::Less(..)
        | Node::Has(..)
        | Node::Flag(..)
        | Node::Present(..)
        | Node::Not(_)
        | Node::And(..)
        | Node::Or(..)
        | Node::Exists(..)
        | Node::Forall(..) => false,
    }
}
