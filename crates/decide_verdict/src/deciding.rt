//! The verdict on a formula.

ghost use Rattle.std.specs.Prelude.{◌≡◌, ◌*◌, ◌≤◌, [], length, IfOk};
ghost use Rattle.form_formula.specs.Added.{Extends};
ghost use Rattle.form_formula.specs.NormalForm.{IsNormal};
ghost use Rattle.form_formula.specs.Nodes.{IsFormula, formula_of};
ghost use Rattle.form_formula.specs.Over.{IsOver};
ghost use Rattle.form_formula.specs.Trees.{Formula};
ghost use Rattle.form_formula.specs.Truth.{IsEquallyTrue};
ghost use Rattle.decide_verdict.specs.Verdicts.{IsVerdict, IsVerdictOn};
ghost use Rattle.form_formula.specs.declared.limits.TheConstants.{MOST_ARENA_NODES};

use crate::shallow_terms::decide_shallow;
use crate::stratified::decide_stratified;
use crate::verdict::Verdict;
use decide_smaller::smaller;
use form_formula::{Arena, Signature, nnf};
use form_strata::{Strata, strata};
use std::alloc::{AllocError, Global};

/// The verdict on a formula in negation normal form, by its terms.
fn decide_by_terms(
    alloc: Global,
    arena: &Arena,
    id: u32,
    signature: &Signature,
) -> Result<Verdict, AllocError>
    requires formula { IsFormula arena.now id }
    requires over { IsOver signature.now [] (formula_of arena.now id) }
    requires normal { IsNormal (formula_of arena.now id) }
    ensures { IfOk result (λ verdict. (f : Formula) → IsEquallyTrue (formula_of arena.now id) f →
        IsVerdictOn signature.now f (formula_of arena.now id) verdict) }
{
    match strata(alloc, arena, id, signature)? {
        Strata::Order(_) => decide_stratified(alloc, arena, id, signature),
        Strata::Cycle(cycle) => decide_shallow(alloc, arena, id, signature, cycle),
    }
}

/// The verdict, with a smaller structure where one was found.
fn shrink(
    alloc: Global,
    arena: &Arena,
    id: u32,
    signature: &Signature,
    verdict: Verdict,
) -> Result<Verdict, AllocError>
    requires formula { IsFormula arena.now id }
    requires over { IsOver signature.now [] (formula_of arena.now id) }
    requires normal { IsNormal (formula_of arena.now id) }
    requires verdict { IsVerdictOn signature.now
        (formula_of arena.now id) (formula_of arena.now id) verdict }
    ensures { IfOk result (λ less. (f : Formula) → IsEquallyTrue (formula_of arena.now id) f →
        IsVerdictOn signature.now f (formula_of arena.now id) verdict →
        IsVerdictOn signature.now f (formula_of arena.now id) less) }
{
    match verdict {
        Verdict::Found(structure, picks) => {
            let (structure, picks) = smaller(alloc, signature, arena, id, structure, picks)?;
            Ok(Verdict::Found(structure, picks))
        }
        Verdict::Safe => Ok(Verdict::Safe),
        Verdict::Unknown(cycle, tried) => Ok(Verdict::Unknown(cycle, tried)),
        Verdict::TooLarge(terms, nodes) => Ok(Verdict::TooLarge(terms, nodes)),
    }
}

/// The verdict on a formula in negation normal form.
fn decide_form(
    alloc: Global,
    arena: &Arena,
    id: u32,
    signature: &Signature,
) -> Result<Verdict, AllocError>
    requires formula { IsFormula arena.now id }
    requires over { IsOver signature.now [] (formula_of arena.now id) }
    requires normal { IsNormal (formula_of arena.now id) }
    ensures { IfOk result (λ verdict. (f : Formula) → IsEquallyTrue (formula_of arena.now id) f →
        IsVerdictOn signature.now f (formula_of arena.now id) verdict) }
{
    let verdict = decide_by_terms(alloc, arena, id, signature)?;
    shrink(alloc, arena, id, signature, verdict)
}

/// Decides a closed formula over all finite structures.
///
/// On a stratified formula within the limits the verdict is Safe or Found. On one that is not
/// stratified a structure is sought over its shallow terms: where there is none the verdict is
/// Safe, and else Found or Unknown, as the structure satisfies the formula or does not. A structure
/// that is found has fewer elements than terms where some can be left out and that takes not long.
pub fn decide(
    alloc: Global,
    arena: &mut Arena,
    id: u32,
    signature: &Signature,
) -> Result<Verdict, AllocError>
    requires formula { IsFormula arena.old id }
    requires over { IsOver signature.now [] (formula_of arena.old id) }
    requires room { 3 * length arena.old ≤ MOST_ARENA_NODES }
    ensures verdict { IfOk result (IsVerdict signature.now (formula_of arena.old id)) }
    ensures kept { Extends arena.old arena.new }
{
    let form = nnf(arena, id)?;
    decide_form(alloc, arena, form, signature)
}
