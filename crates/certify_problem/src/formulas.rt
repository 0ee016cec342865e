//! The clauses of a formula.

ghost use Rattle.std.specs.Prelude.{◌≡◌, ◌*◌, ◌≤◌, [], length, IfOk};
ghost use Rattle.form_formula.specs.Added.{Extends};
ghost use Rattle.form_formula.specs.NormalForm.{IsNormal, normal_form};
ghost use Rattle.form_formula.specs.Nodes.{IsFormula, formula_of};
ghost use Rattle.form_formula.specs.Over.{IsOver};
ghost use Rattle.form_formula.specs.Trees.{Formula};
ghost use Rattle.form_formula.specs.Truth.{IsEquallyTrue};
ghost use Rattle.form_formula.specs.declared.limits.TheConstants.{MOST_ARENA_NODES};
ghost use Rattle.form_formula.specs.declared.structure.Signature.{Signature as AnySignature};
ghost use Rattle.form_strata.specs.Order.{IsCycle};
ghost use Rattle.form_strata.specs.SortGraph.{IsStratified, edges_of};
ghost use Rattle.form_terms.specs.Counts.{IsTooLarge, node_count, term_count};
ghost use Rattle.form_terms.specs.Counts.{shallow_node_count, shallow_term_count};
ghost use Rattle.form_terms.specs.Listing.{Lists};
ghost use Rattle.form_terms.specs.Universe.{IsHerbrandTerm, IsShallowTerm};
ghost use Rattle.ground_terms.specs.Limited.{IsRefusal};
ghost use Rattle.ground_terms.specs.TermLists.{terms_in};
ghost use Rattle.certify_problem.specs.Grounded.{IsGrounded, IsProblemFor};
ghost use Rattle.certify_clauses.specs.InMemory.{problem_in};

use crate::grounded::Grounded;
use crate::problems::clauses_over;
use certify_clauses::ListedClauses;
use form_formula::{Arena, Signature, nnf};
use form_strata::{Strata, strata};
use ground_terms::{GroundErr, Terms, herbrand, shallow};
use sqlite_items::Items;
use std::alloc::{AllocError, Global};

/// The clauses of a stratified formula in negation normal form over its terms.
fn over_terms(
    alloc: Global,
    arena: &Arena,
    id: u32,
    signature: &Signature,
    terms: Terms,
) -> Result<ListedClauses, AllocError>
    requires formula { IsFormula arena.now id }
    requires over { IsOver signature.now [] (formula_of arena.now id) }
    requires normal { IsNormal (formula_of arena.now id) }
    requires stratified { IsStratified signature.now (formula_of arena.now id) }
    requires listed { Lists (IsHerbrandTerm signature.now (formula_of arena.now id)) (terms_in
        terms) }
    requires within { IsTooLarge (term_count signature.now (formula_of arena.now id)) (node_count
        signature.now (formula_of arena.now id)) → ⊥ }
    ensures { IfOk result (λ c. (f : Formula) → IsEquallyTrue (formula_of arena.now id) f →
        IsProblemFor signature.now f (formula_of arena.now id) (problem_in c)) }
{
    clauses_over(alloc, arena, id, signature, terms, true)
}

/// Why a stratified formula has no clauses.
fn refused(refusal: GroundErr) -> Result<Grounded, AllocError>
    ensures { IfOk result (λ grounded. (g : AnySignature) (f form : Formula) →
        IsStratified g form → IsRefusal g form refusal → IsGrounded g f form grounded) }
{
    match refusal {
        GroundErr::TooLarge { terms, nodes } => Ok(Grounded::TooLarge { terms, nodes }),
        GroundErr::OutOfMemory => Err(AllocError),
    }
}

/// Grounds a stratified formula in negation normal form.
fn ground_stratified(
    alloc: Global,
    arena: &Arena,
    id: u32,
    signature: &Signature,
) -> Result<Grounded, AllocError>
    requires formula { IsFormula arena.now id }
    requires over { IsOver signature.now [] (formula_of arena.now id) }
    requires normal { IsNormal (formula_of arena.now id) }
    requires stratified { IsStratified signature.now (formula_of arena.now id) }
    ensures { IfOk result (λ grounded. (f : Formula) → IsEquallyTrue (formula_of arena.now id) f →
        IsGrounded signature.now f (formula_of arena.now id) grounded) }
{
    match herbrand(alloc, arena, id, signature) {
        Ok(terms) => {
            let clauses = over_terms(alloc, arena, id, signature, terms)?;
            Ok(Grounded::Clauses(clauses))
        }
        Err(refusal) => refused(refusal),
    }
}

/// The clauses of a formula in negation normal form that is not stratified over its shallow terms.
fn over_shallow_terms(
    alloc: Global,
    arena: &Arena,
    id: u32,
    signature: &Signature,
    terms: Terms,
) -> Result<ListedClauses, AllocError>
    requires formula { IsFormula arena.now id }
    requires over { IsOver signature.now [] (formula_of arena.now id) }
    requires normal { IsNormal (formula_of arena.now id) }
    requires cyclic { IsStratified signature.now (formula_of arena.now id) → ⊥ }
    requires listed { Lists (IsShallowTerm signature.now (formula_of arena.now id)) (terms_in
        terms) }
    requires within { IsTooLarge (shallow_term_count signature.now (formula_of arena.now id))
        (shallow_node_count signature.now (formula_of arena.now id)) → ⊥ }
    ensures { IfOk result (λ c. (f : Formula) → IsEquallyTrue (formula_of arena.now id) f →
        IsProblemFor signature.now f (formula_of arena.now id) (problem_in c)) }
{
    clauses_over(alloc, arena, id, signature, terms, false)
}

/// Grounds a formula in negation normal form that is not stratified, by this cycle.
fn ground_cyclic(
    alloc: Global,
    arena: &Arena,
    id: u32,
    signature: &Signature,
    cycle: Items<u32>,
) -> Result<Grounded, AllocError>
    requires formula { IsFormula arena.now id }
    requires over { IsOver signature.now [] (formula_of arena.now id) }
    requires normal { IsNormal (formula_of arena.now id) }
    requires cyclic { IsStratified signature.now (formula_of arena.now id) → ⊥ }
    requires cycle { IsCycle (edges_of signature.now (formula_of arena.now id)) cycle }
    ensures { IfOk result (λ grounded. (f : Formula) → IsEquallyTrue (formula_of arena.now id) f →
        IsGrounded signature.now f (formula_of arena.now id) grounded) }
{
    match shallow(alloc, arena, id, signature)? {
        None => Ok(Grounded::Cyclic(cycle)),
        Some(terms) => {
            let clauses = over_shallow_terms(alloc, arena, id, signature, terms)?;
            Ok(Grounded::Clauses(clauses))
        }
    }
}

/// Grounds a formula in negation normal form.
fn ground_form(
    alloc: Global,
    arena: &Arena,
    id: u32,
    signature: &Signature,
) -> Result<Grounded, AllocError>
    requires formula { IsFormula arena.now id }
    requires over { IsOver signature.now [] (formula_of arena.now id) }
    requires normal { IsNormal (formula_of arena.now id) }
    ensures { IfOk result (λ grounded. (f : Formula) → IsEquallyTrue (formula_of arena.now id) f →
        IsGrounded signature.now f (formula_of arena.now id) grounded) }
{
    match strata(alloc, arena, id, signature)? {
        Strata::Order(_) => ground_stratified(alloc, arena, id, signature),
        Strata::Cycle(cycle) => ground_cyclic(alloc, arena, id, signature, cycle),
    }
}

/// Grounds a closed formula: the clauses of its normal form over its terms, or over its shallow
/// terms where its sort graph has a cycle. Where they have no lawful assignment, no finite
/// structure satisfies the formula.
///
/// The clauses and their numbers are the same for the same arena and signature.
pub fn ground_formula(
    alloc: Global,
    arena: &mut Arena,
    id: u32,
    signature: &Signature,
) -> Result<Grounded, AllocError>
    requires formula { IsFormula arena.old id }
    requires over { IsOver signature.now [] (formula_of arena.old id) }
    requires room { 3 * length arena.old ≤ MOST_ARENA_NODES }
    ensures grounded { IfOk result (IsGrounded signature.now (formula_of arena.old id)
        (normal_form (formula_of arena.old id))) }
    ensures kept { Extends arena.old arena.new }
{
    let form = nnf(arena, id)?;
    ground_form(alloc, arena, form, signature)
}
