//! The terms over which a formula is instantiated, within the limits.

ghost use Rattle.std.specs.Prelude.{◌↔◌, [], IfErr, IfOk, IfSome, IsNone, OnOk};
ghost use Rattle.form_formula.specs.Nodes.{IsFormula, formula_of};
ghost use Rattle.form_formula.specs.Over.{IsOver};
ghost use Rattle.form_strata.specs.SortGraph.{IsStratified};
ghost use Rattle.form_terms.specs.Counts.{IsTooLarge, node_count, shallow_node_count};
ghost use Rattle.form_terms.specs.Counts.{shallow_term_count, term_count};
ghost use Rattle.form_terms.specs.Listing.{Lists};
ghost use Rattle.form_terms.specs.Universe.{IsHerbrandTerm, IsShallowTerm};
ghost use Rattle.ground_terms.specs.Limited.{IsLimited, IsRefusal};
ghost use Rattle.ground_terms.specs.TermLists.{terms_in};

use crate::ground_err::GroundErr;
use crate::measure::{Measure, measure_within};
use crate::term_list::Terms;
use crate::terms::{basis_of, terms_from};
use form_formula::{Arena, Signature};
use std::alloc::{AllocError, Global};

/// How many rounds of applying give the terms of a formula that is not stratified.
const SHALLOW_ROUNDS: u32 = 2;

/// The terms, or how large the instantiation would be.
#[derive(Drop)]
pub(crate) enum Limited {
    Listed(Terms),
    TooLarge(Measure),
}

/// Lists the terms that arise within so many rounds, unless a count is above its limit.
fn limited_terms(
    alloc: Global,
    arena: &Arena,
    id: u32,
    signature: &Signature,
    rounds: u32,
) -> Result<Limited, AllocError>
    requires formula { IsFormula arena.now id }
    requires over { IsOver signature.now [] (formula_of arena.now id) }
    ensures { IfOk result (IsLimited signature.now (formula_of arena.now id) rounds) }
{
    let basis = basis_of(alloc, arena, id, signature)?;
    let measure = measure_within(alloc, arena, id, signature, &basis, rounds)?;
    if measure.is_too_large() {
        return Ok(Limited::TooLarge(measure));
    }
    let terms = terms_from(alloc, signature, basis, rounds)?;
    Ok(Limited::Listed(terms))
}

/// Lists all ground terms of a stratified formula, each once: the terms over which it is
/// satisfiable if it is satisfiable at all (Ge and de Moura 2009; Abadi, Rabinovich and Sagiv
/// 2010).
///
/// There are at most 400 terms, and at most 1,000,000 nodes where each `forall` is written out over
/// its terms; else both are counted, and no term is listed for that. The counts are sums along the
/// rounds of applying.
pub fn herbrand(
    alloc: Global,
    arena: &Arena,
    id: u32,
    signature: &Signature,
) -> Result<Terms, GroundErr>
    requires formula { IsFormula arena.now id }
    requires over { IsOver signature.now [] (formula_of arena.now id) }
    requires stratified { IsStratified signature.now (formula_of arena.now id) }
    ensures listed { IfOk result (λ terms. Lists (IsHerbrandTerm signature.now (formula_of arena.now
        id)) (terms_in terms)) }
    ensures within { OnOk result (IsTooLarge (term_count signature.now (formula_of arena.now id))
        (node_count signature.now (formula_of arena.now id)) → ⊥) }
    ensures refused { IfErr result (IsRefusal signature.now (formula_of arena.now id)) }
{
    match limited_terms(alloc, arena, id, signature, signature.sorts)? {
        Limited::Listed(terms) => Ok(terms),
        Limited::TooLarge(Measure { terms, nodes }) => Err(GroundErr::TooLarge { terms, nodes }),
    }
}

/// Lists the ground terms of a formula that arise within two rounds of applying functions and
/// Skolem variables, each once; None exactly where they, or the nodes of the formula with each
/// `forall` written out over them, are more than [`herbrand`] takes.
pub fn shallow(
    alloc: Global,
    arena: &Arena,
    id: u32,
    signature: &Signature,
) -> Result<Option<Terms>, AllocError>
    requires formula { IsFormula arena.now id }
    requires over { IsOver signature.now [] (formula_of arena.now id) }
    ensures listed { IfOk result (λ found. IfSome found (λ terms. Lists (IsShallowTerm signature.now
        (formula_of arena.now id)) (terms_in terms))) }
    ensures exactly { IfOk result (λ found. IsNone found ↔ IsTooLarge (shallow_term_count
        signature.now (formula_of arena.now id)) (shallow_node_count signature.now (formula_of
        arena.now id))) }
{
    match limited_terms(alloc, arena, id, signature, SHALLOW_ROUNDS)? {
        Limited::Listed(terms) => Ok(Some(terms)),
        Limited::TooLarge(_) => Ok(None),
    }
}
