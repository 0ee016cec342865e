//! The terms that tell of a function.

ghost use Rattle.std.specs.Prelude.{◌≡◌, ◌<◌, All, length, slice_get, IfOk};
ghost use Rattle.std.specs.Option.{option_to_list};
ghost use Rattle.decide_models.specs.Columns.{class_at, tellers_in, tellers_at};

use crate::classes::class_at;
use crate::found::Found;
use ground_terms::{TermArena, TermNode};
use std::alloc::{AllocError, Global};

/// A term that is a function at an element.
#[derive(Clone, Copy, Debug)]
pub(crate) struct Teller {
    /// The number of the element.
    pub(crate) class: u32,
    /// The number of the term.
    pub(crate) term: u32,
}

/// What a term tells of a function, if it is the function at an element.
fn teller_of(terms: &TermArena, found: &Found, h: u32, id: u32) -> Option<Teller>
    requires { id < length terms.now }
    ensures { option_to_list result ≡ tellers_in found.now.values h id (slice_get terms.now id) }
{
    match terms.node(id) {
        TermNode::Field(own, t) if own == h => {
            let class = class_at(found, t)?;
            Some(Teller { class, term: id })
        }
        TermNode::Constant(_)
        | TermNode::Skolem(..)
        | TermNode::Field(..)
        | TermNode::Empty
        | TermNode::Cons(..) => None,
    }
}

/// The terms among some that tell of a function, each with the number of its argument.
pub(crate) fn tellers_at(
    alloc: Global,
    terms: &TermArena,
    found: &Found,
    told: &[u32],
    h: u32,
) -> Result<Vec<Teller>, AllocError>
    requires { All (λ id. id < length terms.now) told.now }
    ensures { IfOk result (λ tellers. tellers.items ≡ tellers_at found.now.values h terms.now
        told.now) }
{
    let mut tellers = Vec::new(alloc);
    for id in told {
        if let Some(teller) = teller_of(terms, found, h, *id) {
            tellers.push(teller)?;
        }
    }
    Ok(tellers)
}
