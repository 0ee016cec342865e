//! Structures over the terms of a formula.

ghost use Rattle.std.specs.Prelude.{◌≡◌, Bool, List, [], Contains, IfOk, IfSome, None};
ghost use Rattle.form_formula.specs.NormalForm.{IsNormal};
ghost use Rattle.form_formula.specs.Nodes.{IsFormula, formula_of};
ghost use Rattle.form_formula.specs.Over.{IsOver};
ghost use Rattle.ground_terms.specs.TermLists.{terms_in};
ghost use Rattle.form_tables.specs.Vocabulary.{AreFormed};
ghost use Rattle.form_terms.specs.GroundTerms.{GroundTerm};
ghost use Rattle.form_terms.specs.Passing.{IsSatisfiableOver};
ghost use Rattle.ground_problem.specs.Words.{IsWords};
ghost use Rattle.decide_search.specs.Tabled.{IsTabled};
ghost use Rattle.decide_verdict.specs.Tried.{IsTriedOver};

use decide_models::make_structure;
use decide_search::{Tabled, find_table};
use form_formula::{Arena, Signature, Structure};
use ground_terms::Terms;
use sqlite_items::Items;
use std::alloc::{AllocError, Global};

/// A structure, and the elements of a formula's first variables.
#[derive(Drop)]
pub(crate) struct Tried {
    pub(crate) structure: Structure,
    pub(crate) picks: Items<u32>,
}

/// The structure of a table.
fn tried_by(
    alloc: Global,
    arena: &Arena,
    id: u32,
    signature: &Signature,
    tabled: &Tabled,
) -> Result<Tried, AllocError>
    requires formula { IsFormula arena.now id }
    requires words { IsWords tabled.now.terms tabled.now.words }
    ensures { IfOk result (λ tried. (terms : List GroundTerm) (closed : Bool) →
        IsOver signature.now [] (formula_of arena.now id) → IsNormal (formula_of arena.now id) →
        IsTabled signature.now (formula_of arena.now id) terms closed tabled.now →
        IsTriedOver signature.now (formula_of arena.now id) terms closed tried) }
{
    let (structure, picks) = make_structure(
        alloc,
        arena,
        id,
        signature,
        &tabled.terms,
        &tabled.words,
        &tabled.found,
    )?;
    Ok(Tried { structure, picks })
}

/// Tries to find a structure that passes a formula over ground terms that are formed of each other;
/// None exactly where there is none.
pub(crate) fn try_terms(
    alloc: Global,
    arena: &Arena,
    id: u32,
    signature: &Signature,
    terms: Terms,
    closed: bool,
) -> Result<Option<Tried>, AllocError>
    requires formula { IsFormula arena.now id }
    requires over { IsOver signature.now [] (formula_of arena.now id) }
    requires normal { IsNormal (formula_of arena.now id) }
    requires formed { AreFormed signature.now (formula_of arena.now id) (terms_in terms) }
    ensures none { IfOk result (λ tried. tried ≡ None → IsSatisfiableOver signature.now (formula_of
        arena.now id) (Contains (terms_in terms)) → ⊥) }
    ensures some { IfOk result (λ tried. IfSome tried (IsTriedOver signature.now (formula_of
        arena.now id) (terms_in terms) closed)) }
{
    match find_table(alloc, arena, id, signature, terms, closed)? {
        None => Ok(None),
        Some(tabled) => {
            let tried = tried_by(alloc, arena, id, signature, &tabled)?;
            Ok(Some(tried))
        }
    }
}
