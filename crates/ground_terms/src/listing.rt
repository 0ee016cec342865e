//! Lists of numbered terms.

ghost use Rattle.std.specs.Prelude.{◌≡◌, ◌∷◌, [], ◌++◌, true, map, IfOk, OnOk};
ghost use Rattle.std.specs.List.{filter};
ghost use Rattle.form_terms.specs.GroundTerms.{field, skolem, term_and, sort_of, is_number};
ghost use Rattle.ground_terms.specs.Nodes.{
  term_of,
  list_of,
  term_part,
  tree_from,
  trees_of,
  is_one,
};
ghost use Rattle.ground_terms.specs.Nodes.{IsOne, IsList, IsPlaced};
ghost use Rattle.ground_terms.specs.Standing.{terms_at, lists_at, AreOnes, AreLists, AreTermsAt};
ghost use Rattle.ground_terms.specs.Standing.{AreListed, AreListsListed};

use crate::needed::target_of;
use crate::{TermArena, TermNode};
use form_formula::Signature;
use std::alloc::{AllocError, Global};

/// Lists a term, which is added if it is not there.
pub(crate) fn list_term(
    terms: &mut TermArena,
    node: TermNode,
    listed: &mut Vec<u32>,
) -> Result<(), AllocError>
    requires placed { IsPlaced terms.old node }
    requires one { is_one node ≡ true }
    ensures { OnOk result (AreListed (term_part (tree_from (trees_of terms.old) node) ∷ [])
        terms.old terms.new listed.old.items listed.new.items) }
{
    let id = terms.add(node)?;
    listed.push(id)?;
    Ok(())
}

/// The sort of a term.
pub fn sort_of(signature: &Signature, terms: &TermArena, id: u32) -> Option<u32>
    requires { IsOne terms.now id }
    ensures { result ≡ sort_of signature.now (term_of terms.now id) }
{
    match terms.node(id) {
        TermNode::Constant(sort) | TermNode::Skolem(_, sort, _) => Some(sort),
        TermNode::Field(h, _) => target_of(signature, h),
        TermNode::Empty | TermNode::Cons(..) => None,
    }
}

/// Whether a term has this sort.
fn has_sort(signature: &Signature, terms: &TermArena, id: u32, sort: u32) -> bool
    requires { IsOne terms.now id }
    ensures { result ≡ is_number (sort_of signature.now (term_of terms.now id)) sort }
{
    match sort_of(signature, terms, id) {
        Some(own) => own == sort,
        None => false,
    }
}

/// The terms of a sort among these.
pub fn of_sort(
    alloc: Global,
    signature: &Signature,
    terms: &TermArena,
    listed: &[u32],
    sort: u32,
) -> Result<Vec<u32>, AllocError>
    requires { AreOnes terms.now listed.now }
    ensures { IfOk result (λ found. AreTermsAt terms.now found.items (filter (λ t. is_number
        (sort_of signature.now t) sort) (terms_at terms.now listed.now))) }
{
    let mut found = Vec::new(alloc);
    for id in listed {
        if has_sort(signature, terms, *id, sort) {
            found.push(*id)?;
        }
    }
    Ok(found)
}

/// Lists a function at each of some terms.
pub(crate) fn list_fields(
    terms: &mut TermArena,
    h: u32,
    arguments: &[u32],
    listed: &mut Vec<u32>,
) -> Result<(), AllocError>
    requires { AreOnes terms.old arguments.now }
    ensures { OnOk result (AreListed (map (field h) (terms_at terms.old arguments.now)) terms.old
        terms.new listed.old.items listed.new.items) }
{
    for t in arguments {
        list_term(terms, TermNode::Field(h, *t), listed)?;
    }
    Ok(())
}

/// Lists a Skolem variable at each of some lists of terms.
pub(crate) fn list_skolems(
    terms: &mut TermArena,
    number: u32,
    sort: u32,
    arguments: &[u32],
    listed: &mut Vec<u32>,
) -> Result<(), AllocError>
    requires { AreLists terms.old arguments.now }
    ensures { OnOk result (AreListed (map (skolem number sort) (lists_at terms.old arguments.now))
        terms.old terms.new listed.old.items listed.new.items) }
{
    for ts in arguments {
        list_term(terms, TermNode::Skolem(number, sort, *ts), listed)?;
    }
    Ok(())
}

/// Lists a term before each of some lists of terms.
pub(crate) fn list_with(
    terms: &mut TermArena,
    first: u32,
    rests: &[u32],
    listed: &mut Vec<u32>,
) -> Result<(), AllocError>
    requires one { IsOne terms.old first }
    requires lists { AreLists terms.old rests.now }
    ensures { OnOk result (AreListsListed (map (term_and (term_of terms.old first)) (lists_at
        terms.old rests.now)) terms.old terms.new listed.old.items listed.new.items) }
{
    for rest in rests {
        let id = terms.add(TermNode::Cons(first, *rest))?;
        listed.push(id)?;
    }
    Ok(())
}
