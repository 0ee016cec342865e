//! The edges of a formula, by a walk over its nodes.

ghost use Rattle.std.specs.Prelude.{◌≡◌, ◌∷◌, [], ◌++◌, ◌+◌, ◌<◌, ◌^◌, map, Some};
ghost use Rattle.std.specs.Prelude.{slice_get, IfOk, OnOk};
ghost use Rattle.form_formula.specs.Nodes.{IsBelow, IsTerm, IsFormula, term_of, formula_of};
ghost use Rattle.form_formula.specs.declared.node.Node.{Node as AnyNode};
ghost use Rattle.form_strata.specs.SortGraph.{edges_of};
ghost use Rattle.form_strata.specs.Visits.{HaveSame, IsExpansion, Meets, below_exists, below_forall};
ghost use Rattle.form_strata.specs.Visits.{exists_edges, free_of, sought_of_term};

use crate::term_edges::add_term_edges;
use crate::visit::{Above, Visit};
use form_formula::{Arena, Node, Signature};
use indexmap::IndexSet;
use std::alloc::{AllocError, Global};

/// A walk over a formula.
#[derive(Drop)]
pub(crate) struct Walk {
    /// What the walk came to, each once. It goes on from the first ones first.
    pub(crate) visits: IndexSet<Visit>,
    pub(crate) edges: Vec<(u32, u32)>,
}

impl Walk {
    /// Adds the edges of a term that are sought.
    fn add_term(
        &mut self,
        arena: &Arena,
        signature: &Signature,
        above: Above,
        id: u32,
    ) -> Result<(), AllocError>
        requires { IsTerm arena.now id }
        ensures visits { self.new.visits.keys ≡ self.old.visits.keys }
        ensures edges { OnOk result (self.new.edges.items
            ≡ self.old.edges.items ++ sought_of_term signature.now above (term_of arena.now id)) }
    {
        match above {
            Above::Exists(free) | Above::Forall(free) => {
                add_term_edges(arena, signature, free, id, &mut self.edges)
            }
            Above::From(_) => Ok(()),
        }
    }

    /// Comes to a formula, unless it did before.
    fn come_to(&mut self, id: u32, above: Above) -> Result<(), AllocError>
        ensures visits { OnOk result (Meets (record { id = id; above = above } ∷ [])
            self.old.visits.keys self.new.visits.keys) }
        ensures edges { self.new.edges.items ≡ self.old.edges.items }
    {
        self.visits.insert(Visit { id, above })?;
        Ok(())
    }

    /// Comes to both parts.
    fn come_to_both(&mut self, left: u32, right: u32, above: Above) -> Result<(), AllocError>
        ensures visits { OnOk result (Meets
            (record { id = left; above = above } ∷ record { id = right; above = above } ∷ [])
            self.old.visits.keys self.new.visits.keys) }
        ensures edges { self.new.edges.items ≡ self.old.edges.items }
    {
        self.come_to(left, above)?;
        self.come_to(right, above)
    }

    /// Goes on below an `exists`, with the edge to it that is sought.
    fn enter_exists(&mut self, above: Above, sort: u32, body: u32) -> Result<(), AllocError>
        requires { free_of above + 1 < 2 ^ 32 }
        ensures visits { OnOk result (Meets
            (record { id = body; above = below_exists above } ∷ [])
            self.old.visits.keys self.new.visits.keys) }
        ensures edges { OnOk result (self.new.edges.items
            ≡ self.old.edges.items ++ exists_edges above sort) }
    {
        match above {
            Above::Exists(free) => self.come_to(body, Above::Exists(free + 1)),
            Above::Forall(free) => self.come_to(body, Above::Forall(free)),
            Above::From(from) => {
                self.edges.push((from, sort))?;
                self.come_to(body, Above::From(from))
            }
        }
    }

    /// Comes to the body of a `forall` for the edges from it, and for all others.
    fn come_to_forall(&mut self, free: u32, sort: u32, body: u32) -> Result<(), AllocError>
        ensures visits { OnOk result (Meets
            (record { id = body; above = Above.Forall free }
            ∷ record { id = body; above = Above.From sort } ∷ [])
            self.old.visits.keys self.new.visits.keys) }
        ensures edges { self.new.edges.items ≡ self.old.edges.items }
    {
        self.come_to(body, Above::Forall(free))?;
        self.come_to(body, Above::From(sort))
    }

    /// Goes on below a `forall`.
    fn enter_forall(&mut self, above: Above, sort: u32, body: u32) -> Result<(), AllocError>
        ensures visits { OnOk result (Meets
            (map (λ above. record { id = body; above = above }) (below_forall above sort))
            self.old.visits.keys self.new.visits.keys) }
        ensures edges { self.new.edges.items ≡ self.old.edges.items }
    {
        match above {
            Above::Exists(free) | Above::Forall(free) => self.come_to_forall(free, sort, body),
            Above::From(from) => self.come_to(body, Above::From(from)),
        }
    }
}

/// Takes one step of a walk: from a formula to what is below it.
fn expand(
    arena: &Arena,
    signature: &Signature,
    walk: &mut Walk,
    visit: Visit,
) -> Result<(), AllocError>
    ghost node: { AnyNode }
    requires node { slice_get arena.now visit.id ≡ Some node }
    requires room { free_of visit.above + visit.id < 2 ^ 32 }
    ensures { OnOk result (IsExpansion signature.now arena.now visit node walk.old walk.new) }
{
    let Visit { id, above } = visit;
    match arena.node(id) {
        Node::Eq(s, t) | Node::Less(s, t) | Node::Has(_, s, t) => {
            walk.add_term(arena, signature, above, *s)?;
            walk.add_term(arena, signature, above, *t)
        }
        Node::Flag(_, t) | Node::Present(_, t) => walk.add_term(arena, signature, above, *t),
        Node::Not(a) => walk.come_to(*a, above),
        Node::And(a, b) | Node::Or(a, b) => walk.come_to_both(*a, *b, above),
        Node::Exists(sort, a) => walk.enter_exists(above, *sort, *a),
        Node::Forall(sort, a) => walk.enter_forall(above, *sort, *a),
        Node::Yes | Node::No | Node::Bound(..) | Node::Num(_) | Node::Str(_) | Node::App(..) => {
            Ok(())
        }
    }
}

/// The edges of the sort graph of a formula. An edge may come more than once.
///
/// The walk comes to each node once for each that may stand above it, without recursion.
pub(crate) fn edges_of(
    alloc: Global,
    arena: &Arena,
    signature: &Signature,
    id: u32,
) -> Result<Vec<(u32, u32)>, AllocError>
    requires { IsFormula arena.now id }
    ensures { IfOk result (λ found. HaveSame found.items
        (edges_of signature.now (formula_of arena.now id))) }
{
    let _nodes = arena.len();
    let mut walk = Walk {
        visits: IndexSet::new(alloc),
        edges: Vec::new(alloc),
    };
    walk.come_to(id, Above::Exists(0))?;
    let mut next = 0;
    'steps: while next < walk.visits.len() {
        let visit = walk.visits.as_slice()[next];
        expand(arena, signature, &mut walk, visit)?;
        next += 1;
    }
    let Walk { visits: _, edges } = walk;
    Ok(edges)
}
