//! Formulas without quantifiers, and the terms of their atoms.

ghost use Rattle.std.specs.Prelude.{◌≡◌, ◌≤◌, ◌∷◌, ◌++◌, [], Some, true, IfOk, IsTrue, OnOk, length, map, slice_get};
ghost use Rattle.std.specs.List.{AllByRecursion};
ghost use Rattle.form_formula.specs.Nodes.{IsTerm, term_of};
ghost use Rattle.form_formula.specs.declared.node.Node.{Node as AnyNode};
ghost use Rattle.ground_terms.specs.Codes.{is_marked};
ghost use Rattle.ground_terms.specs.Matrices.{AnyTerm, AreMatrices, CameTo, IsMatrix};
ghost use Rattle.ground_terms.specs.Matrices.{IsPlainNode, matrix_parts, matrix_terms, terms_below};
ghost use Rattle.ground_terms.specs.Parts.{Thins};

use crate::needed::is_marked;
use form_formula::{Arena, Node};
use indexmap::IndexSet;
use std::alloc::{AllocError, Global};

/// Whether a node has no quantifier, where its parts are marked that have none.
fn is_plain(node: &Node, marks: &[bool]) -> bool
    ensures { IsTrue result → IsPlainNode (λ k. is_marked marks.now k ≡ true) node.now }
{
    match node {
        Node::Exists(..) | Node::Forall(..) => false,
        Node::Not(a) => is_marked(marks, *a),
        Node::And(a, b) | Node::Or(a, b) => is_marked(marks, *a) && is_marked(marks, *b),
        Node::Bound(..)
        | Node::Num(_)
        | Node::Str(_)
        | Node::App(..)
        | Node::Yes
        | Node::No
        | Node::Eq(..)
        | Node::Less(..)
        | Node::Has(..)
        | Node::Flag(..)
        | Node::Present(..) => true,
    }
}

/// For each formula below a number whether it has no quantifier. A term may be marked too.
pub(crate) fn matrices_below(
    alloc: Global,
    arena: &Arena,
    end: u32,
) -> Result<Vec<bool>, AllocError>
    requires { end ≤ length arena.now }
    ensures { IfOk result (λ marks. AreMatrices arena.now marks.items) }
{
    let _nodes = arena.len();
    let mut marks = Vec::new(alloc);
    for at in 0..end {
        let mark = is_plain(arena.node(at), marks.as_slice());
        marks.push(mark)?;
    }
    Ok(marks)
}

/// A walk over a formula without quantifiers, from its last part to its first.
#[derive(Drop)]
pub(crate) struct MatrixWalk {
    /// The formulas that the walk came to.
    pub(crate) seen: IndexSet<u32>,
    /// What is still to be walked over, the last part last.
    pub(crate) pending: Vec<u32>,
    /// The terms that were found, from the last one of the formula on.
    pub(crate) terms: Vec<u32>,
}

impl MatrixWalk {
    /// Adds two terms.
    fn add_two(&mut self, first: u32, second: u32) -> Result<(), AllocError>
        ensures seen { self.new.seen.keys ≡ self.old.seen.keys }
        ensures pending { self.new.pending.items ≡ self.old.pending.items }
        ensures terms { OnOk result (self.new.terms.items
            ≡ self.old.terms.items ++ first ∷ second ∷ []) }
    {
        self.terms.push(first)?;
        self.terms.push(second)?;
        Ok(())
    }

    /// Goes on to two formulas.
    fn enter_two(&mut self, first: u32, second: u32) -> Result<(), AllocError>
        ensures seen { self.new.seen.keys ≡ self.old.seen.keys }
        ensures pending { OnOk result (self.new.pending.items
            ≡ self.old.pending.items ++ first ∷ second ∷ []) }
        ensures terms { self.new.terms.items ≡ self.old.terms.items }
    {
        self.pending.push(first)?;
        self.pending.push(second)?;
        Ok(())
    }

    /// Adds the terms of an atom, or goes on to the parts of another formula.
    fn expand(&mut self, node: &Node) -> Result<(), AllocError>
        ensures seen { self.new.seen.keys ≡ self.old.seen.keys }
        ensures pending { OnOk result (self.new.pending.items
            ≡ self.old.pending.items ++ matrix_parts node.now) }
        ensures terms { OnOk result (self.new.terms.items
            ≡ self.old.terms.items ++ matrix_terms node.now) }
    {
        match node {
            Node::Eq(s, t) | Node::Less(s, t) | Node::Has(_, s, t) => self.add_two(*t, *s),
            Node::Flag(_, t) | Node::Present(_, t) => {
                self.terms.push(*t)?;
                Ok(())
            }
            Node::Not(a) => {
                self.pending.push(*a)?;
                Ok(())
            }
            Node::And(a, b) | Node::Or(a, b) => self.enter_two(*a, *b),
            Node::Yes
            | Node::No
            | Node::Bound(..)
            | Node::Num(_)
            | Node::Str(_)
            | Node::App(..)
            | Node::Exists(..)
            | Node::Forall(..) => Ok(()),
        }
    }

    /// Goes on from a formula, unless the walk came to it before.
    fn come_to(&mut self, arena: &Arena, id: u32) -> Result<(), AllocError>
        ghost node: { AnyNode }
        requires { slice_get arena.now id ≡ Some node }
        ensures { OnOk result (CameTo id node self.old self.new) }
    {
        if self.seen.insert(id)? {
            self.expand(arena.node(id))
        } else {
            Ok(())
        }
    }
}

/// The terms of the atoms of a formula without quantifiers, in reading order, but for those that
/// come again later in it.
///
/// The walk comes to each node once, without recursion.
pub(crate) fn terms_below(alloc: Global, arena: &Arena, id: u32) -> Result<Vec<u32>, AllocError>
    requires { IsMatrix arena.now id }
    ensures terms { IfOk result (λ terms. AllByRecursion (IsTerm arena.now) terms.items) }
    ensures thinned { IfOk result (λ terms. Thins AnyTerm (terms_below arena.now id)
        (map (term_of arena.now) terms.items)) }
{
    let _nodes = arena.len();
    let mut walk = MatrixWalk {
        seen: IndexSet::new(alloc),
        pending: Vec::new(alloc),
        terms: Vec::new(alloc),
    };
    walk.pending.push(id)?;
    'steps: while let Some(next) = walk.pending.pop() {
        walk.come_to(arena, next)?;
    }
    let MatrixWalk {
        seen: _,
        pending: _,
        mut terms,
    } = walk;
    terms.reverse();
    Ok(terms)
}
