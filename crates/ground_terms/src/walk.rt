//! The parts of a formula, by a walk over it.

ghost use Rattle.std.specs.Prelude.{
  ◌≡◌,
  ◌∷◌,
  [],
  ◌++◌,
  ◌+◌,
  length,
  Some,
  None,
  slice_get,
  IfOk,
  OnOk,
};
ghost use Rattle.form_formula.specs.Nodes.{IsTerm, IsFormula, formula_of};
ghost use Rattle.form_formula.specs.declared.node.Node.{Node as AnyNode};
ghost use Rattle.form_terms.specs.Parts.{parts_of};
ghost use Rattle.ground_terms.specs.Matrices.{AddsMatrix, AreMatrices, IsMatrix};
ghost use Rattle.ground_terms.specs.Parts.{AreThinned, IsTermPart};
ghost use Rattle.ground_terms.specs.Walk.{IsExpansion, IsOnePart, IsStep, name_below};

use crate::matrix::{matrices_below, terms_below};
use crate::needed::is_marked;
use crate::part::{Name, Part, Variable, part_of};
use form_formula::{Arena, Node};
use sqlite_items::Items;
use std::alloc::{AllocError, Global};

/// A formula whose parts are to be found: its number, and how many quantifiers and how many of them
/// `forall`s stand above it.
#[derive(Clone, Copy, Debug)]
pub(crate) struct Pending {
    pub(crate) id: u32,
    pub(crate) quantifiers: usize,
    pub(crate) universals: usize,
}

/// A walk over a formula.
#[derive(Debug, Drop)]
pub(crate) struct Walk {
    /// What is still to be walked over.
    pub(crate) pending: Vec<Pending>,
    /// The ground terms of the variables above that have one, the outermost first.
    pub(crate) names: Vec<Option<Name>>,
    /// The sorts of the `forall`s above, the outermost first.
    pub(crate) above: Vec<u32>,
    /// The number of the next quantifier.
    pub(crate) number: u32,
    pub(crate) parts: Vec<Part>,
}

impl Walk {
    /// Adds the part that a term of an atom is.
    fn add_term(&mut self, arena: &Arena, id: u32) -> Result<(), AllocError>
        requires { IsTerm arena.now id }
        ensures pending { self.new.pending.items ≡ self.old.pending.items }
        ensures names { self.new.names.items ≡ self.old.names.items }
        ensures above { self.new.above.items ≡ self.old.above.items }
        ensures number { self.new.number ≡ self.old.number }
        ensures parts { OnOk result (IsOnePart arena.now self.old.names.items id
            self.old.parts.items self.new.parts.items) }
    {
        let part = part_of(arena, self.names.as_slice(), id);
        self.parts.push(part)?;
        Ok(())
    }

    /// Goes on to a part that no further quantifier stands above.
    fn enter(&mut self, whole: Pending, part: u32) -> Result<(), AllocError>
        ensures pending { OnOk result (self.new.pending.items ≡ self.old.pending.items ++ record
            whole { id = part } ∷ []) }
        ensures names { self.new.names.items ≡ self.old.names.items }
        ensures above { self.new.above.items ≡ self.old.above.items }
        ensures number { self.new.number ≡ self.old.number }
        ensures parts { self.new.parts.items ≡ self.old.parts.items }
    {
        self.pending.push(Pending { id: part, ..whole })?;
        Ok(())
    }

    /// Goes on to both parts.
    fn enter_both(&mut self, whole: Pending, left: u32, right: u32) -> Result<(), AllocError>
        ensures pending { OnOk result (self.new.pending.items ≡ self.old.pending.items ++ record
            whole { id = right } ∷ record whole { id = left } ∷ []) }
        ensures names { self.new.names.items ≡ self.old.names.items }
        ensures above { self.new.above.items ≡ self.old.above.items }
        ensures number { self.new.number ≡ self.old.number }
        ensures parts { self.new.parts.items ≡ self.old.parts.items }
    {
        self.enter(whole, right)?;
        self.enter(whole, left)
    }

    /// The number of the quantifier that is entered. Four thousand million quantifiers count as
    /// memory that is not there.
    fn next_number(&mut self) -> Result<u32, AllocError>
        ensures pending { self.new.pending.items ≡ self.old.pending.items }
        ensures names { self.new.names.items ≡ self.old.names.items }
        ensures above { self.new.above.items ≡ self.old.above.items }
        ensures parts { self.new.parts.items ≡ self.old.parts.items }
        ensures number { OnOk result (self.new.number ≡ self.old.number + 1) }
        ensures is { IfOk result (λ number. number ≡ self.old.number) }
    {
        let number = self.number;
        match number.checked_add(1) {
            Some(next) => {
                self.number = next;
                Ok(number)
            }
            None => Err(AllocError),
        }
    }

    /// Goes on below a quantifier.
    fn enter_below(&mut self, name: Option<Name>, body: u32) -> Result<(), AllocError>
        ensures pending { OnOk result (self.new.pending.items ≡ self.old.pending.items ++ record {
          id = body;
          quantifiers = length self.old.names.items + 1;
          universals = length
              self.old.above.items;
        } ∷ []) }
        ensures names { OnOk result (self.new.names.items ≡ self.old.names.items ++ name ∷ []) }
        ensures above { self.new.above.items ≡ self.old.above.items }
        ensures number { self.new.number ≡ self.old.number }
        ensures parts { self.new.parts.items ≡ self.old.parts.items }
    {
        self.names.push(name)?;
        self.pending.push(Pending {
            id: body,
            quantifiers: self.names.len(),
            universals: self.above.len(),
        })?;
        Ok(())
    }

    /// Adds an `exists` as a part, and says which ground term its variable has.
    fn add_exists(
        &mut self,
        alloc: Global,
        number: u32,
        sort: u32,
    ) -> Result<Option<Name>, AllocError>
        ensures pending { self.new.pending.items ≡ self.old.pending.items }
        ensures names { self.new.names.items ≡ self.old.names.items }
        ensures above { self.new.above.items ≡ self.old.above.items }
        ensures number { self.new.number ≡ self.old.number }
        ensures parts { OnOk result (self.new.parts.items ≡ self.old.parts.items ++
            Part.Existential (record {
              number = number;
              sort = sort;
              above = self.old.above.items;
            }) ∷ []) }
        ensures name { IfOk result (λ name. name ≡ name_below number sort self.old.above.items) }
    {
        let name = if self.above.is_empty() {
            Some(Name { number, sort })
        } else {
            None
        };
        let above = Items::from_slice(alloc, self.above.as_slice())?;
        self.parts.push(Part::Existential(Variable {
            number,
            sort,
            above,
        }))?;
        Ok(name)
    }

    /// Goes on below an `exists`.
    fn enter_exists(&mut self, alloc: Global, sort: u32, body: u32) -> Result<(), AllocError>
        ensures pending { OnOk result (self.new.pending.items ≡ self.old.pending.items ++ record {
          id = body;
          quantifiers = length self.old.names.items + 1;
          universals = length
              self.old.above.items;
        } ∷ []) }
        ensures names { OnOk result (self.new.names.items ≡ self.old.names.items ++ name_below
            self.old.number sort self.old.above.items ∷ []) }
        ensures above { self.new.above.items ≡ self.old.above.items }
        ensures number { OnOk result (self.new.number ≡ self.old.number + 1) }
        ensures parts { OnOk result (self.new.parts.items ≡ self.old.parts.items ++
            Part.Existential (record {
              number = self.old.number;
              sort = sort;
              above =
                  self.old.above.items;
            }) ∷ []) }
    {
        let number = self.next_number()?;
        let name = self.add_exists(alloc, number, sort)?;
        self.enter_below(name, body)
    }

    /// Goes on below a `forall`.
    fn enter_forall(&mut self, sort: u32, body: u32) -> Result<(), AllocError>
        ensures pending { OnOk result (self.new.pending.items ≡ self.old.pending.items ++ record {
          id = body;
          quantifiers = length self.old.names.items + 1;
          universals = length
              self.old.above.items + 1;
        } ∷ []) }
        ensures names { OnOk result (self.new.names.items ≡ self.old.names.items ++ None ∷ []) }
        ensures above { OnOk result (self.new.above.items ≡ self.old.above.items ++ sort ∷ []) }
        ensures number { OnOk result (self.new.number ≡ self.old.number + 1) }
        ensures parts { OnOk result (self.new.parts.items ≡ self.old.parts.items ++ Part.Universal
            sort ∷ []) }
    {
        self.next_number()?;
        self.parts.push(Part::Universal(sort))?;
        self.above.push(sort)?;
        self.enter_below(None, body)
    }
}

impl Walk {
    /// Adds the parts of a formula without quantifiers, but for those that come again later in it.
    fn add_matrix(&mut self, alloc: Global, arena: &Arena, id: u32) -> Result<(), AllocError>
        requires { IsMatrix arena.now id }
        ensures pending { self.new.pending.items ≡ self.old.pending.items }
        ensures names { self.new.names.items ≡ self.old.names.items }
        ensures above { self.new.above.items ≡ self.old.above.items }
        ensures number { self.new.number ≡ self.old.number }
        ensures parts { OnOk result (AddsMatrix arena.now self.old.names.items id
            self.old.parts.items self.new.parts.items) }
    {
        let terms = terms_below(alloc, arena, id)?;
        for term in &terms {
            self.add_term(arena, *term)?;
        }
        Ok(())
    }
}

/// Takes one step of a walk: the formula that was pending last.
fn expand(alloc: Global, arena: &Arena, walk: &mut Walk, whole: Pending) -> Result<(), AllocError>
    ghost node: { AnyNode }
    requires { slice_get arena.now whole.id ≡ Some node }
    ensures { OnOk result (IsExpansion arena.now whole node walk.old walk.new) }
{
    match arena.node(whole.id) {
        Node::Eq(s, t) | Node::Less(s, t) | Node::Has(_, s, t) => {
            walk.add_term(arena, *s)?;
            walk.add_term(arena, *t)
        }
        Node::Flag(_, t) | Node::Present(_, t) => walk.add_term(arena, *t),
        Node::Not(a) => walk.enter(whole, *a),
        Node::And(a, b) | Node::Or(a, b) => walk.enter_both(whole, *a, *b),
        Node::Exists(sort, a) => walk.enter_exists(alloc, *sort, *a),
        Node::Forall(sort, a) => walk.enter_forall(*sort, *a),
        Node::Yes | Node::No | Node::Bound(..) | Node::Num(_) | Node::Str(_) | Node::App(..) => {
            Ok(())
        }
    }
}

/// Takes one step of a walk: a formula without quantifiers, as its mark says, or another one.
fn advance(
    alloc: Global,
    arena: &Arena,
    matrices: &[bool],
    walk: &mut Walk,
    whole: Pending,
) -> Result<(), AllocError>
    ghost node: { AnyNode }
    requires node { slice_get arena.now whole.id ≡ Some node }
    requires formula { IsFormula arena.now whole.id }
    requires matrices { AreMatrices arena.now matrices.now }
    ensures { OnOk result (IsStep arena.now whole node walk.old walk.new) }
{
    if is_marked(matrices, whole.id) {
        walk.add_matrix(alloc, arena, whole.id)
    } else {
        expand(alloc, arena, walk, whole)
    }
}

/// The parts of a formula, in reading order, but for terms of atoms that come again later.
///
/// The walk is without recursion. It is over the formula as a tree down to formulas without
/// quantifiers, and comes to each node of one of these once.
pub(crate) fn parts_of(alloc: Global, arena: &Arena, id: u32) -> Result<Vec<Part>, AllocError>
    requires { IsFormula arena.now id }
    ensures { IfOk result (λ found. AreThinned arena.now (parts_of (formula_of arena.now id))
        found.items) }
{
    let _nodes = arena.len();
    let matrices = matrices_below(alloc, arena, id)?;
    let mut walk = Walk {
        pending: Vec::new(alloc),
        names: Vec::new(alloc),
        above: Vec::new(alloc),
        number: 0,
        parts: Vec::new(alloc),
    };
    walk.pending.push(Pending {
        id,
        quantifiers: 0,
        universals: 0,
    })?;
    'steps: while let Some(whole) = walk.pending.pop() {
        walk.names.truncate(whole.quantifiers);
        walk.above.truncate(whole.universals);
        advance(alloc, arena, matrices.as_slice(), &mut walk, whole)?;
    }
    let Walk {
        pending: _,
        names: _,
        above: _,
        number: _,
        parts,
    } = walk;
    Ok(parts)
}
