//! The terms before functions and Skolem variables are applied.

ghost use Rattle.std.specs.Prelude.{◌≡◌, ◌==◌, ◌++◌, ◌∷◌, [], map, IfOk, OnOk};
ghost use Rattle.std.specs.List.{filter, flat_map, list_any, range_with_len};
ghost use Rattle.form_terms.specs.GroundTerms.{constant};
ghost use Rattle.form_terms.specs.Listing.{unique, is_same_term};
ghost use Rattle.ground_terms.specs.Nodes.{IsOne, term_of};
ghost use Rattle.ground_terms.specs.Codes.{is_marked, code_names, code_terms};
ghost use Rattle.ground_terms.specs.Applying.{is_plain_in};
ghost use Rattle.ground_terms.specs.Parts.{HaveTerms};
ghost use Rattle.ground_terms.specs.Standing.{terms_at, AreOnes, AreListed, AreTermsAt};

use crate::chain::{list_names, list_terms};
use crate::listing::list_term;
use crate::needed::is_marked;
use crate::part::Part;
use crate::unique::unique;
use crate::{TermArena, TermNode};
use form_formula::{Arena, Signature};
use std::alloc::{AllocError, Global};

/// Lists the constant of a sort, if it is needed.
fn list_constant(
    terms: &mut TermArena,
    needed: &[bool],
    sort: u32,
    listed: &mut Vec<u32>,
) -> Result<(), AllocError>
    ensures { OnOk result (AreListed (map constant (filter (is_marked needed.now) (sort ∷ [])))
        terms.old terms.new listed.old.items listed.new.items) }
{
    if !is_marked(needed, sort) {
        return Ok(());
    }
    list_term(terms, TermNode::Constant(sort), listed)?;
    Ok(())
}

/// Lists the constants of the needed sorts below a number.
fn list_constants(
    terms: &mut TermArena,
    needed: &[bool],
    sorts: u32,
    listed: &mut Vec<u32>,
) -> Result<(), AllocError>
    ensures { OnOk result (AreListed (map constant (filter (is_marked needed.now) (range_with_len 0
        sorts))) terms.old terms.new listed.old.items listed.new.items) }
{
    for sort in 0..sorts {
        list_constant(terms, needed, sort, listed)?;
    }
    Ok(())
}

/// The terms without functions and Skolem variables that are applied.
pub(crate) fn first_terms(
    alloc: Global,
    arena: &Arena,
    signature: &Signature,
    terms: &mut TermArena,
    needed: &[bool],
    parts: &[Part],
) -> Result<Vec<u32>, AllocError>
    requires { HaveTerms arena.now parts.now }
    ensures { IfOk result (λ first. AreListed (map constant (filter (is_marked needed.now)
        (range_with_len 0 signature.now.sorts)) ++ unique is_same_term (flat_map code_names
        parts.now ++ flat_map (code_terms signature.now arena.now) parts.now)) terms.old terms.new
        [] first.items) }
{
    let mut found = Vec::new(alloc);
    list_names(terms, parts, &mut found)?;
    list_terms(alloc, arena, signature, terms, parts, &mut found)?;
    let rest = unique(alloc, found.as_slice(), terms.len())?;
    let mut first = Vec::new(alloc);
    list_constants(terms, needed, signature.sorts, &mut first)?;
    first.extend_from_slice(rest.as_slice())?;
    Ok(first)
}

/// Whether a function is one of these.
fn contains(functions: &[u32], h: u32) -> bool
    ensures { result ≡ list_any (λ k. k == h) functions.now }
{
    functions.iter().any(|k| *k == h)
}

/// Whether the outermost function of a term is none of these.
fn is_plain(terms: &TermArena, functions: &[u32], id: u32) -> bool
    requires { IsOne terms.now id }
    ensures { result ≡ is_plain_in functions.now (term_of terms.now id) }
{
    match terms.node(id) {
        TermNode::Field(h, _) => !contains(functions, h),
        TermNode::Constant(_) | TermNode::Skolem(..) | TermNode::Empty | TermNode::Cons(..) => true,
    }
}

/// The terms whose outermost function is none of these.
pub(crate) fn plain_terms(
    alloc: Global,
    terms: &TermArena,
    functions: &[u32],
    listed: &[u32],
) -> Result<Vec<u32>, AllocError>
    requires { AreOnes terms.now listed.now }
    ensures { IfOk result (λ found. AreTermsAt terms.now found.items (filter (is_plain_in
        functions.now) (terms_at terms.now listed.now))) }
{
    let mut found = Vec::new(alloc);
    for id in listed {
        if is_plain(terms, functions, *id) {
            found.push(*id)?;
        }
    }
    Ok(found)
}
