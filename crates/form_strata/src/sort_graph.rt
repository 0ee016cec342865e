//! The strata of a formula.

ghost use Rattle.std.specs.Prelude.{IfOk, []};
ghost use Rattle.form_formula.specs.Nodes.{IsFormula, formula_of};
ghost use Rattle.form_formula.specs.NormalForm.{IsNormal};
ghost use Rattle.form_formula.specs.Over.{IsOver};
ghost use Rattle.form_strata.specs.Strata.{IsStrata};

use crate::answer::Strata;
use crate::edges::edges_of;
use crate::order::{Sorted, sort};
use form_formula::{Arena, Signature};
use sqlite_items::Items;
use std::alloc::{AllocError, Global};

/// Gives an order of the sorts along which every edge of a formula's sort graph goes forward, or a
/// cycle of that graph.
///
/// The walk for the edges takes a step for each node and for each that may stand above it, as far
/// as edges depend on it, and sorting time with the sorts and the edges that it lists.
pub fn strata(
    alloc: Global,
    arena: &Arena,
    id: u32,
    signature: &Signature,
) -> Result<Strata, AllocError>
    requires formula { IsFormula arena.now id }
    requires over { IsOver signature.now [] (formula_of arena.now id) }
    requires normal { IsNormal (formula_of arena.now id) }
    ensures { IfOk result (IsStrata signature.now (formula_of arena.now id)) }
{
    let edges = edges_of(alloc, arena, signature, id)?;
    match sort(alloc, edges.as_slice(), signature.sorts)? {
        Sorted::Order(order) => Ok(Strata::Order(Items::from_vec(order))),
        Sorted::Cycle(cycle) => Ok(Strata::Cycle(Items::from_vec(cycle))),
    }
}
