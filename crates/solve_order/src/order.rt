//! The theory of difference constraints.
ghost use Rattle.std.specs.Prelude.{◌≡◌, ◌+◌, ◌-◌, ◌^◌, ◌<◌, ◌≤◌, ◌↔◌, ◌∷◌, [], ◌++◌, length, take};
ghost use Rattle.std.specs.Prelude.{IsTrue, IfOk};
ghost use Rattle.solve_theory.specs.Models.{IsModelOf, HasModel, IsCore};

use crate::diff::Diff;
use crate::edges::Edges;
use crate::frontier::Frontier;
use crate::repair::repair;
use crate::search::is_met_by;
use solve_theory::{LitBuf, Theory};
use sqlite_items::Items;
use std::alloc::{AllocError, Global};
use std::marker::Model;

/// Difference constraints over whole numbers in 64 bits.
///
/// A literal `Diff` says that `x - y <= c`. Variable 0 is zero; all others are whole numbers from
/// -2^63 to 2^63 - 1. A model is a column with the number of each variable.
///
/// It keeps a potential, which is a model of the literals so far, and repairs it where a new
/// literal breaks it (Cotton and Maler, 2006, Fast and flexible difference constraint propagation
/// for DPLL(T)).
#[derive(Drop)]
pub struct Order {
    edges: Edges,
    /// A model of the literals, or where they are refuted of all but the last one.
    values: Vec<i64>,
    /// Nothing is reached between calls.
    frontier: Frontier,
    /// Why the literals have no model, where they are refuted.
    core: LitBuf<u32>,
    refuted: bool,
    alloc: Global,
}

impl Model for Order {
    ghost use Rattle.solve_order.specs.Difference.{Constraints};
    ghost use Rattle.solve_order.specs.Order.{IsOrder};

    ghost Value = { Constraints };

    ghost view = { λ o. o.edges };

    ghost invariant = { λ o. IsOrder o.edges o.values.items o.frontier o.core o.refuted };
}

impl Order {
    /// No literals over that many variables, with room for `capacity` literals.
    pub fn new(alloc: Global, vars: usize, capacity: usize) -> Result<Order, AllocError>
        requires some { 0 < vars }
        requires few_variables { vars < 2 ^ 32 }
        requires few_literals { capacity < 2 ^ 32 }
        ensures { IfOk result
            (λ o. o ≡ record { variables = vars; capacity = capacity; literals = [] }) }
    {
        let edges = Edges::new(alloc, vars, capacity)?;
        let values = vec![in alloc; 0; vars]?;
        let frontier = Frontier::new(alloc, vars)?;
        let core = LitBuf::new(alloc, capacity)?;
        Ok(Order {
            edges,
            values,
            frontier,
            core,
            refuted: false,
            alloc,
        })
    }
}

/// Makes `to` hold what `from` holds.
fn copy(from: &LitBuf<u32>, to: &mut LitBuf<u32>)
    requires { length from.now.items ≤ to.old.capacity }
    ensures items { to.new.items ≡ from.now.items }
    ensures capacity { to.new.capacity ≡ to.old.capacity }
{
    to.clear();
    for position in from.items() {
        to.push(*position);
    }
}

impl Theory for Order {
    ghost use Rattle.solve_order.specs.Difference.{is_assignment, meets, is_literal};
    ghost use Rattle.solve_order.specs.Zero.{zero_is_model};

    type Lit = Diff;

    type Model = Items<i64>;

    ghost literals = { λ o. o.literals };

    ghost capacity = { λ o. o.capacity };

    ghost takes = { λ o. is_literal o.variables };

    ghost models = { λ o. is_assignment o.variables };

    ghost meets = { meets };

    fn assert(&mut self, l: Diff) -> bool {
        let repaired = repair(
            &self.edges,
            &mut self.values,
            &mut self.frontier,
            &mut self.core,
            l,
        );
        self.edges.push(l);
        self.refuted = !repaired;
        repaired
    }

    fn undo(&mut self, n: usize) {
        if n > 0 {
            self.edges.cut(n);
            self.refuted = false;
        }
    }

    fn asserted(&self) -> usize {
        self.edges.len()
    }

    fn conflict(&mut self, out: &mut LitBuf<u32>) {
        copy(&self.core, out);
    }

    fn model(&self) -> Result<Items<i64>, AllocError> {
        Items::from_slice(self.alloc, self.values.as_slice())
    }

    fn is_met(&self, l: Diff) -> bool {
        is_met_by(self.values.as_slice(), l)
    }

    ghost empty_has_model = { λ o. zero_is_model o.variables };
}

#[cfg(test)]
mod tests;
