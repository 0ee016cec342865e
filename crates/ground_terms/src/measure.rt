//! How large an instantiation is.

ghost use Rattle.std.specs.Prelude.{◌≡◌, ◌↔◌, [], IfOk, IsTrue};
ghost use Rattle.form_formula.specs.Nodes.{IsFormula, formula_of};
ghost use Rattle.form_formula.specs.Over.{IsOver};
ghost use Rattle.form_terms.specs.Counts.{IsTooLarge, count_after, counted, nodes_over};
ghost use Rattle.form_terms.specs.Counts.{terms_counted};
ghost use Rattle.ground_terms.specs.Basis.{IsBasis};

use crate::counts::{counts_within, total};
use crate::sizes::nodes_over;
use crate::terms::Basis;
use form_formula::{Arena, Signature};
use form_terms::limits::{MOST_GROUND_NODES, MOST_TERMS};
use std::alloc::{AllocError, Global};

/// How many terms and nodes an instantiation has. A count stays at the last number of 64 bits.
#[derive(Clone, Copy, Debug)]
pub(crate) struct Measure {
    pub(crate) terms: u64,
    pub(crate) nodes: u64,
}

impl Measure {
    /// Whether one of the counts is above its limit.
    pub(crate) fn is_too_large(self) -> bool
        ensures { IsTrue result ↔ IsTooLarge self.terms self.nodes }
    {
        self.terms > MOST_TERMS || self.nodes > MOST_GROUND_NODES
    }
}

/// Counts the terms that arise within so many rounds, and the nodes of the formula written out over
/// them. No term is listed for that.
pub(crate) fn measure_within(
    alloc: Global,
    arena: &Arena,
    id: u32,
    signature: &Signature,
    basis: &Basis,
    rounds: u32,
) -> Result<Measure, AllocError>
    requires formula { IsFormula arena.now id }
    requires over { IsOver signature.now [] (formula_of arena.now id) }
    requires basis { IsBasis signature.now (formula_of arena.now id) basis.now }
    ensures terms { IfOk result (λ measure. measure.terms ≡ counted (terms_counted signature.now
        (formula_of arena.now id) rounds)) }
    ensures nodes { IfOk result (λ measure. measure.nodes ≡ counted (nodes_over (count_after
        signature.now (formula_of arena.now id) rounds) (formula_of arena.now id))) }
{
    let counts = counts_within(alloc, signature, basis, rounds)?;
    let terms = total(counts.as_slice());
    let nodes = nodes_over(alloc, arena, id, counts.as_slice())?;
    Ok(Measure { terms, nodes })
}
