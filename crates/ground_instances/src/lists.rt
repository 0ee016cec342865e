//! Lists of ground terms, by their numbers.

ghost use Rattle.std.specs.Prelude.{IfOk};
ghost use Rattle.form_terms.specs.GroundTerms.{list_of};
ghost use Rattle.ground_terms.specs.Nodes.{IsList, list_of as list_at};
ghost use Rattle.ground_terms.specs.Standing.{AreOnes, AreTermsAt, terms_at};
ghost use Rattle.ground_instances.specs.Lists.{IsListOf};

use ground_terms::{TermArena, TermNode};
use std::alloc::{AllocError, Global};

/// The numbers of the terms in a list.
pub(crate) fn items_of(alloc: Global, terms: &TermArena, list: u32) -> Result<Vec<u32>, AllocError>
    requires { IsList terms.now list }
    ensures { IfOk result (λ ids. AreTermsAt terms.now ids.items (list_of
        (list_at terms.now list))) }
{
    let mut ids = Vec::new(alloc);
    let mut at = list;
    'down: loop {
        match terms.node(at) {
            TermNode::Cons(t, ts) => {
                ids.push(t)?;
                at = ts;
            }
            _ => return Ok(ids),
        }
    }
}

/// The number of the list of these terms.
pub(crate) fn list_from(terms: &mut TermArena, ids: &[u32]) -> Result<u32, AllocError>
    requires { AreOnes terms.old ids.now }
    ensures { IfOk result (IsListOf (terms_at terms.old ids.now) terms.old terms.new) }
{
    let mut list = terms.add(TermNode::Empty)?;
    let mut left = ids.len();
    'left: while left > 0 {
        left -= 1;
        list = terms.add(TermNode::Cons(ids[left], list))?;
    }
    Ok(list)
}
