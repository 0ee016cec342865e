//! Formulas whose sort graph has no cycle.

ghost use Rattle.std.specs.Prelude.{◌≡◌, [], IfOk};
ghost use Rattle.form_formula.specs.NormalForm.{IsNormal};
ghost use Rattle.form_formula.specs.Nodes.{IsFormula, formula_of};
ghost use Rattle.form_formula.specs.Over.{IsOver};
ghost use Rattle.form_formula.specs.Trees.{Formula};
ghost use Rattle.form_formula.specs.Truth.{IsEquallyTrue};
ghost use Rattle.form_strata.specs.SortGraph.{IsStratified};
ghost use Rattle.form_formula.specs.declared.structure.Signature.{Signature as AnySignature};
ghost use Rattle.ground_terms.specs.Limited.{IsRefusal};
ghost use Rattle.ground_terms.specs.TermLists.{terms_in};
ghost use Rattle.form_terms.specs.Counts.{IsTooLarge, node_count, term_count};
ghost use Rattle.form_terms.specs.Listing.{Lists};
ghost use Rattle.form_terms.specs.Universe.{IsHerbrandTerm};
ghost use Rattle.decide_verdict.specs.Verdicts.{IsVerdictOn};

use crate::trying::{Tried, try_terms};
use crate::verdict::Verdict;
use form_formula::{Arena, Signature};
use ground_terms::{GroundErr, Terms, herbrand};
use std::alloc::{AllocError, Global};

/// The verdict on a stratified formula in negation normal form, by its terms.
fn decide_over(
    alloc: Global,
    arena: &Arena,
    id: u32,
    signature: &Signature,
    terms: Terms,
) -> Result<Verdict, AllocError>
    requires formula { IsFormula arena.now id }
    requires over { IsOver signature.now [] (formula_of arena.now id) }
    requires normal { IsNormal (formula_of arena.now id) }
    requires stratified { IsStratified signature.now (formula_of arena.now id) }
    requires listed { Lists (IsHerbrandTerm signature.now (formula_of arena.now id)) (terms_in
        terms) }
    requires within { IsTooLarge (term_count signature.now (formula_of arena.now id)) (node_count
        signature.now (formula_of arena.now id)) → ⊥ }
    ensures { IfOk result (λ verdict. (f : Formula) → IsEquallyTrue (formula_of arena.now id) f →
        IsVerdictOn signature.now f (formula_of arena.now id) verdict) }
{
    match try_terms(alloc, arena, id, signature, terms, true)? {
        None => Ok(Verdict::Safe),
        Some(tried) => {
            let Tried { structure, picks } = tried;
            Ok(Verdict::Found(structure, picks))
        }
    }
}

/// The verdict on a stratified formula whose terms are not listed.
fn refused(refusal: GroundErr) -> Result<Verdict, AllocError>
    ensures { IfOk result (λ verdict. (g : AnySignature) (f form : Formula) → IsStratified g form →
        IsRefusal g form refusal → IsVerdictOn g f form verdict) }
{
    match refusal {
        GroundErr::TooLarge { terms, nodes } => Ok(Verdict::TooLarge(terms, nodes)),
        GroundErr::OutOfMemory => Err(AllocError),
    }
}

/// The verdict on a stratified formula in negation normal form.
pub(crate) fn decide_stratified(
    alloc: Global,
    arena: &Arena,
    id: u32,
    signature: &Signature,
) -> Result<Verdict, AllocError>
    requires formula { IsFormula arena.now id }
    requires over { IsOver signature.now [] (formula_of arena.now id) }
    requires normal { IsNormal (formula_of arena.now id) }
    requires stratified { IsStratified signature.now (formula_of arena.now id) }
    ensures { IfOk result (λ verdict. (f : Formula) → IsEquallyTrue (formula_of arena.now id) f →
        IsVerdictOn signature.now f (formula_of arena.now id) verdict) }
{
    match herbrand(alloc, arena, id, signature) {
        Ok(terms) => decide_over(alloc, arena, id, signature, terms),
        Err(refusal) => refused(refusal),
    }
}
