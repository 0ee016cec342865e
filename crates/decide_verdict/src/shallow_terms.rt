//! Formulas whose sort graph has a cycle.

ghost use Rattle.std.specs.Prelude.{◌≡◌, List, [], false, IfOk};
ghost use Rattle.form_formula.specs.NormalForm.{IsNormal};
ghost use Rattle.form_formula.specs.Nodes.{IsFormula, formula_of};
ghost use Rattle.form_formula.specs.Over.{IsOver};
ghost use Rattle.form_formula.specs.Trees.{Formula};
ghost use Rattle.form_formula.specs.Truth.{IsEquallyTrue};
ghost use Rattle.ground_terms.specs.TermLists.{terms_in};
ghost use Rattle.form_strata.specs.Order.{IsCycle};
ghost use Rattle.form_strata.specs.SortGraph.{IsStratified, edges_of};
ghost use Rattle.form_terms.specs.Counts.{IsTooLarge, shallow_node_count, shallow_term_count};
ghost use Rattle.form_terms.specs.GroundTerms.{GroundTerm};
ghost use Rattle.form_terms.specs.Listing.{Lists};
ghost use Rattle.form_terms.specs.Universe.{IsShallowTerm};
ghost use Rattle.decide_verdict.specs.Tried.{IsTriedOver};
ghost use Rattle.decide_verdict.specs.Verdicts.{IsVerdictOn};

use crate::trying::{Tried, try_terms};
use crate::verdict::Verdict;
use decide_smaller::picks_from;
use form_formula::{Arena, Signature};
use ground_terms::{Terms, shallow};
use sqlite_items::Items;
use std::alloc::{AllocError, Global};

/// The verdict on a formula that is not stratified, by a structure that passes it over its shallow
/// terms: the elements that the search found are tried first.
fn judged(
    alloc: Global,
    arena: &Arena,
    id: u32,
    signature: &Signature,
    cycle: Items<u32>,
    tried: Tried,
) -> Result<Verdict, AllocError>
    requires formula { IsFormula arena.now id }
    requires over { IsOver signature.now [] (formula_of arena.now id) }
    requires normal { IsNormal (formula_of arena.now id) }
    requires cyclic { IsStratified signature.now (formula_of arena.now id) → ⊥ }
    requires cycle { IsCycle (edges_of signature.now (formula_of arena.now id)) cycle }
    requires within { IsTooLarge (shallow_term_count signature.now (formula_of arena.now id))
        (shallow_node_count signature.now (formula_of arena.now id)) → ⊥ }
    ensures { IfOk result (λ verdict. (f : Formula) (terms : List GroundTerm) →
        IsEquallyTrue (formula_of arena.now id) f →
        Lists (IsShallowTerm signature.now (formula_of arena.now id)) terms →
        IsTriedOver signature.now (formula_of arena.now id) terms false tried →
        IsVerdictOn signature.now f (formula_of arena.now id) verdict) }
{
    let _sorts = signature.sorts;
    let Tried {
        structure,
        picks: own,
    } = tried;
    let picks = picks_from(alloc, &structure, arena, id, own)?;
    match picks {
        Some(picks) => Ok(Verdict::Found(structure, picks)),
        None => Ok(Verdict::Unknown(cycle, Some(structure))),
    }
}

/// The verdict on a formula that is not stratified, by its shallow terms.
fn decide_over(
    alloc: Global,
    arena: &Arena,
    id: u32,
    signature: &Signature,
    cycle: Items<u32>,
    terms: Terms,
) -> Result<Verdict, AllocError>
    requires formula { IsFormula arena.now id }
    requires over { IsOver signature.now [] (formula_of arena.now id) }
    requires normal { IsNormal (formula_of arena.now id) }
    requires cyclic { IsStratified signature.now (formula_of arena.now id) → ⊥ }
    requires cycle { IsCycle (edges_of signature.now (formula_of arena.now id)) cycle }
    requires within { IsTooLarge (shallow_term_count signature.now (formula_of arena.now id))
        (shallow_node_count signature.now (formula_of arena.now id)) → ⊥ }
    requires listed { Lists (IsShallowTerm signature.now (formula_of arena.now id)) (terms_in
        terms) }
    ensures { IfOk result (λ verdict. (f : Formula) → IsEquallyTrue (formula_of arena.now id) f →
        IsVerdictOn signature.now f (formula_of arena.now id) verdict) }
{
    match try_terms(alloc, arena, id, signature, terms, false)? {
        None => Ok(Verdict::Safe),
        Some(tried) => judged(alloc, arena, id, signature, cycle, tried),
    }
}

/// The verdict on a formula in negation normal form that is not stratified, by this cycle.
pub(crate) fn decide_shallow(
    alloc: Global,
    arena: &Arena,
    id: u32,
    signature: &Signature,
    cycle: Items<u32>,
) -> Result<Verdict, AllocError>
    requires formula { IsFormula arena.now id }
    requires over { IsOver signature.now [] (formula_of arena.now id) }
    requires normal { IsNormal (formula_of arena.now id) }
    requires cyclic { IsStratified signature.now (formula_of arena.now id) → ⊥ }
    requires cycle { IsCycle (edges_of signature.now (formula_of arena.now id)) cycle }
    ensures { IfOk result (λ verdict. (f : Formula) → IsEquallyTrue (formula_of arena.now id) f →
        IsVerdictOn signature.now f (formula_of arena.now id) verdict) }
{
    match shallow(alloc, arena, id, signature)? {
        None => Ok(Verdict::Unknown(cycle, None)),
        Some(terms) => decide_over(alloc, arena, id, signature, cycle, terms),
    }
}
