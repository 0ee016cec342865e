//! The terms of a formula.

ghost use Rattle.std.specs.Prelude.{◌≡◌, [], IfOk};
ghost use Rattle.form_formula.specs.Nodes.{IsFormula, formula_of};
ghost use Rattle.form_formula.specs.Over.{IsOver};
ghost use Rattle.form_formula.specs.Trees.{Formula};
ghost use Rattle.form_terms.specs.Listing.{Lists, terms_after};
ghost use Rattle.form_strata.specs.SortGraph.{IsStratified};
ghost use Rattle.form_terms.specs.Universe.{ArisesWithin, IsHerbrandTerm};
ghost use Rattle.ground_terms.specs.Basis.{IsBasis};
ghost use Rattle.ground_terms.specs.Standing.{AreOnes};
ghost use Rattle.ground_terms.specs.TermLists.{terms_in};

use crate::TermArena;
use crate::applied::applied_functions;
use crate::first::{first_terms, plain_terms};
use crate::needed::needed_sorts;
use crate::part::Part;
use crate::rounds::{Start, all_rounds};
use crate::term_list::Terms;
use crate::walk::parts_of;
use form_formula::{Arena, Signature};
use std::alloc::{AllocError, Global};

/// What the terms of a formula are found from.
#[derive(Drop)]
pub(crate) struct Basis {
    pub(crate) parts: Vec<Part>,
    pub(crate) arena: TermArena,
    /// The functions that are applied.
    pub(crate) functions: Vec<u32>,
    pub(crate) first: Vec<u32>,
    /// The first terms whose outermost function is none of these.
    pub(crate) plain: Vec<u32>,
}

/// The first terms of a formula, and the functions and variables that are applied to them.
pub(crate) fn basis_of(
    alloc: Global,
    arena: &Arena,
    id: u32,
    signature: &Signature,
) -> Result<Basis, AllocError>
    requires { IsFormula arena.now id }
    ensures { IfOk result (IsBasis signature.now (formula_of arena.now id)) }
{
    let parts = parts_of(alloc, arena, id)?;
    let needed = needed_sorts(alloc, arena, signature, parts.as_slice())?;
    let functions = applied_functions(alloc, arena, signature, parts.as_slice())?;
    let mut terms = TermArena::new(alloc)?;
    let first = first_terms(
        alloc,
        arena,
        signature,
        &mut terms,
        needed.as_slice(),
        parts.as_slice(),
    )?;
    let plain = plain_terms(alloc, &terms, functions.as_slice(), first.as_slice())?;
    Ok(Basis {
        parts,
        arena: terms,
        functions,
        first,
        plain,
    })
}

/// The terms that arise within so many rounds.
#[tactic(auto, using(crate::proofs::Standing::one_there))]
pub(crate) fn terms_from(
    alloc: Global,
    signature: &Signature,
    basis: Basis,
    rounds: u32,
) -> Result<Terms, AllocError>
    requires first { AreOnes basis.arena basis.first.items }
    requires plain { AreOnes basis.arena basis.plain.items }
    ensures { IfOk result (λ terms. (f : Formula) → IsBasis signature.now f basis → terms_in terms
        ≡ terms_after signature.now f rounds) }
{
    let Basis {
        parts,
        mut arena,
        functions,
        first,
        plain,
    } = basis;
    let start = Start {
        parts: parts.as_slice(),
        functions: functions.as_slice(),
        plain: plain.as_slice(),
    };
    let ids = all_rounds(alloc, signature, &mut arena, start, first, rounds)?;
    Ok(Terms { arena, ids })
}

/// Lists the ground terms of a formula that arise within so many rounds of applying functions and
/// Skolem variables, each once.
///
/// Two rounds give the shallow terms, and as many as there are sorts all terms of a formula that is
/// stratified (Ge and de Moura 2009; Abadi, Rabinovich and Sagiv 2010). The walk for the first
/// terms is over the formula as a tree, down to formulas without quantifiers. A round that gives
/// what it began with is the last. No limit is set on how many terms there are.
pub fn terms_within(
    alloc: Global,
    arena: &Arena,
    id: u32,
    signature: &Signature,
    rounds: u32,
) -> Result<Terms, AllocError>
    requires formula { IsFormula arena.now id }
    requires over { IsOver signature.now [] (formula_of arena.now id) }
    ensures terms { IfOk result (λ terms. terms_in terms ≡ terms_after signature.now (formula_of
        arena.now id) rounds) }
    ensures listed { IfOk result (λ terms. Lists (ArisesWithin signature.now (formula_of arena.now
        id) rounds) (terms_in terms)) }
    ensures all { IfOk result (λ terms. IsStratified signature.now (formula_of arena.now id) →
        rounds ≡ signature.now.sorts → Lists (IsHerbrandTerm signature.now (formula_of arena.now
        id)) (terms_in terms)) }
{
    let basis = basis_of(alloc, arena, id, signature)?;
    let terms = terms_from(alloc, signature, basis, rounds)?;
    Ok(terms)
}
