//! What terms may have.

ghost use Rattle.std.specs.Prelude.{◌≡◌, Some, IfSome};
ghost use Rattle.ground_terms.specs.Nodes.{IsOne, term_of};
ghost use Rattle.form_tables.specs.Consistent.{range_of};

use form_formula::{Range, Signature};
use ground_terms::{TermArena, TermNode};

/// What a term may have, if the number is that of a term.
pub fn range_at(signature: &Signature, terms: &TermArena, id: u32) -> Option<Range>
    ensures one { IfSome result (λ _. IsOne terms.now id) }
    ensures range { IfSome result (λ range. range_of signature.now (term_of terms.now id) ≡ Some
        range) }
    ensures all { IsOne terms.now id → result ≡ range_of signature.now (term_of terms.now id) }
{
    if id as usize >= terms.len() {
        return None;
    }
    match terms.node(id) {
        TermNode::Constant(sort) | TermNode::Skolem(_, sort, _) => Some(Range::Rec(sort)),
        TermNode::Field(h, _) => {
            let sig = signature.funs.get(h as usize)?;
            Some(sig.to)
        }
        TermNode::Empty | TermNode::Cons(..) => None,
    }
}
