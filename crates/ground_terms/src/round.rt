//! Rounds of applying functions and Skolem variables.

ghost use Rattle.std.specs.Prelude.{◌≡◌, ℕ, ◌∷◌, [], ◌++◌, List, IfOk, OnOk};
ghost use Rattle.std.specs.List.{flat_map};
ghost use Rattle.form_terms.specs.Listing.{with_each};
ghost use Rattle.form_terms.specs.GroundTerms.{source_of};
ghost use Rattle.ground_terms.specs.Nodes.{Extends};
ghost use Rattle.ground_terms.specs.Standing.{terms_at, lists_at, AreOnes, AreLists, AreListed};
ghost use Rattle.ground_terms.specs.Standing.{AreListsListed};
ghost use Rattle.ground_terms.specs.Applying.{fields_of, choices, code_skolems, of_sort_in};

use crate::listing::{list_fields, list_skolems, list_with, of_sort};
use crate::part::Part;
use crate::{TermArena, TermNode};
use form_formula::Signature;
use std::alloc::{AllocError, Global};

/// The sort that a function is applied to.
pub(crate) fn source_of(signature: &Signature, f: u32) -> Option<u32>
    ensures { result ≡ source_of signature.now f }
{
    match signature.funs.get(f as usize) {
        Some(sig) => Some(sig.from),
        None => None,
    }
}

/// Lists a function at each of the terms of its source among these.
fn list_function(
    alloc: Global,
    signature: &Signature,
    terms: &mut TermArena,
    h: u32,
    current: &[u32],
    listed: &mut Vec<u32>,
) -> Result<(), AllocError>
    requires { AreOnes terms.old current.now }
    ensures { OnOk result (AreListed (fields_of signature.now (terms_at terms.old current.now) h)
        terms.old terms.new listed.old.items listed.new.items) }
{
    match source_of(signature, h) {
        None => Ok(()),
        Some(sort) => {
            let arguments = of_sort(alloc, signature, terms, current, sort)?;
            list_fields(terms, h, arguments.as_slice(), listed)?;
            Ok(())
        }
    }
}

/// Lists each function at each of the terms of its source among these.
fn list_functions(
    alloc: Global,
    signature: &Signature,
    terms: &mut TermArena,
    functions: &[u32],
    current: &[u32],
    listed: &mut Vec<u32>,
) -> Result<(), AllocError>
    requires { AreOnes terms.old current.now }
    ensures { OnOk result (AreListed (flat_map (fields_of signature.now (terms_at terms.old
        current.now)) functions.now) terms.old terms.new listed.old.items listed.new.items) }
{
    for h in functions {
        list_function(alloc, signature, terms, *h, current, listed)?;
    }
    Ok(())
}

/// Lists each of some terms before each of some lists of terms.
fn list_each(
    terms: &mut TermArena,
    firsts: &[u32],
    rests: &[u32],
    listed: &mut Vec<u32>,
) -> Result<(), AllocError>
    requires ones { AreOnes terms.old firsts.now }
    requires lists { AreLists terms.old rests.now }
    ensures { OnOk result (AreListsListed (with_each (terms_at terms.old firsts.now) (lists_at
        terms.old rests.now)) terms.old terms.new listed.old.items listed.new.items) }
{
    for first in firsts {
        list_with(terms, *first, rests, listed)?;
    }
    Ok(())
}

/// Each of the terms of a sort among these, before each of some lists of terms.
fn longer_lists(
    alloc: Global,
    signature: &Signature,
    terms: &mut TermArena,
    current: &[u32],
    sort: u32,
    rests: &[u32],
) -> Result<Vec<u32>, AllocError>
    requires ones { AreOnes terms.old current.now }
    requires lists { AreLists terms.old rests.now }
    ensures { IfOk result (λ lists. AreListsListed (with_each (of_sort_in signature.now (terms_at
        terms.old current.now) sort) (lists_at terms.old rests.now)) terms.old terms.new []
        lists.items) }
{
    let firsts = of_sort(alloc, signature, terms, current, sort)?;
    let mut lists = Vec::new(alloc);
    list_each(terms, firsts.as_slice(), rests, &mut lists)?;
    Ok(lists)
}

/// Each choice of terms for each of some sorts among these.
fn choices(
    alloc: Global,
    signature: &Signature,
    terms: &mut TermArena,
    current: &[u32],
    sorts: &[u32],
) -> Result<Vec<u32>, AllocError>
    requires { AreOnes terms.old current.now }
    ensures { IfOk result (λ lists. AreListsListed (choices signature.now (terms_at terms.old
        current.now) sorts.now) terms.old terms.new [] lists.items) }
{
    let empty = terms.add(TermNode::Empty)?;
    let mut lists = vec![in alloc; empty]?;
    let mut left = sorts.len();
    'left: while left > 0 {
        left -= 1;
        lists = longer_lists(
            alloc,
            signature,
            terms,
            current,
            sorts[left],
            lists.as_slice(),
        )?;
    }
    Ok(lists)
}

/// Lists the variable of an `exists` below a `forall` at each choice of arguments among these.
fn list_part(
    alloc: Global,
    signature: &Signature,
    terms: &mut TermArena,
    part: &Part,
    current: &[u32],
    listed: &mut Vec<u32>,
) -> Result<(), AllocError>
    requires { AreOnes terms.old current.now }
    ensures { OnOk result (AreListed (code_skolems signature.now (terms_at terms.old current.now)
        part.now) terms.old terms.new listed.old.items listed.new.items) }
{
    match part {
        Part::Existential(v) => {
            if v.above.is_empty() {
                return Ok(());
            }
            let arguments = choices(alloc, signature, terms, current, v.above.as_slice())?;
            list_skolems(terms, v.number, v.sort, arguments.as_slice(), listed)?;
            Ok(())
        }
        Part::Universal(_) | Part::Named(..) | Part::Dependent(_) | Part::Literal(_) => Ok(()),
    }
}

/// Lists each such variable of the parts.
fn list_parts(
    alloc: Global,
    signature: &Signature,
    terms: &mut TermArena,
    parts: &[Part],
    current: &[u32],
    listed: &mut Vec<u32>,
) -> Result<(), AllocError>
    requires { AreOnes terms.old current.now }
    ensures { OnOk result (AreListed (flat_map (code_skolems signature.now (terms_at terms.old
        current.now)) parts.now) terms.old terms.new listed.old.items listed.new.items) }
{
    for part in parts {
        list_part(alloc, signature, terms, part, current, listed)?;
    }
    Ok(())
}

// Six beside the allocator: a round reads a signature and four lists, and adds to the terms.
/// What one round of applying gives from some terms.
pub(crate) fn next_round(
    alloc: Global,
    signature: &Signature,
    terms: &mut TermArena,
    parts: &[Part],
    functions: &[u32],
    plain: &[u32],
    current: &[u32],
) -> Result<Vec<u32>, AllocError>
    requires plain { AreOnes terms.old plain.now }
    requires current { AreOnes terms.old current.now }
    ensures { IfOk result (λ next. AreListed (terms_at terms.old plain.now ++ (flat_map (fields_of
        signature.now (terms_at terms.old current.now)) functions.now ++ flat_map (code_skolems
        signature.now (terms_at terms.old current.now)) parts.now)) terms.old terms.new []
        next.items) }
{
    let mut next = Vec::from_slice(alloc, plain)?;
    list_functions(alloc, signature, terms, functions, current, &mut next)?;
    list_parts(alloc, signature, terms, parts, current, &mut next)?;
    Ok(next)
}
