//! Atoms at ground terms.

ghost use Rattle.std.specs.Prelude.{IfOk};
ghost use Rattle.form_formula.specs.Nodes.{IsFormula, IsTerm, formula_of, term_of};
ghost use Rattle.ground_terms.specs.Standing.{AreOnes, terms_at};
ghost use Rattle.ground_instances.specs.GroundAtoms.{ground_value};
ghost use Rattle.ground_instances.specs.Inputs.{HasInput, HasValues};

use crate::input::{Input, Value};
use crate::values::value_of;
use form_formula::{Arena, Node};
use ground_terms::TermArena;
use std::alloc::{AllocError, Global};

/// What two terms are where the variables above are these ground terms.
fn values_of(
    alloc: Global,
    arena: &Arena,
    terms: &mut TermArena,
    env: &[u32],
    s: u32,
    t: u32,
) -> Result<(Value, Value), AllocError>
    requires left { IsTerm arena.now s }
    requires right { IsTerm arena.now t }
    requires env { AreOnes terms.old env.now }
    ensures { IfOk result (λ pair. HasValues arena.now terms.old terms.new
        (ground_value (terms_at terms.old env.now) (term_of arena.now s))
        (ground_value (terms_at terms.old env.now) (term_of arena.now t)) pair.0 pair.1) }
{
    let left = value_of(alloc, arena, terms, env, s)?;
    let right = value_of(alloc, arena, terms, env, t)?;
    Ok((left, right))
}

// Long, since each form of an atom has its own arm.
/// The input that says whether a formula holds where the variables above are these ground terms, if
/// the formula is an atom.
pub(crate) fn input_of(
    alloc: Global,
    arena: &Arena,
    terms: &mut TermArena,
    env: &[u32],
    id: u32,
) -> Result<Option<Input>, AllocError>
    requires formula { IsFormula arena.now id }
    requires env { AreOnes terms.old env.now }
    ensures { IfOk result (HasInput arena.now terms.old terms.new (terms_at terms.old env.now)
        (formula_of arena.now id)) }
{
    match arena.node(id) {
        Node::Eq(s, t) => {
            let (left, right) = values_of(alloc, arena, terms, env, *s, *t)?;
            Ok(Some(Input::Equal(left, right)))
        }
        Node::Less(s, t) => {
            let (left, right) = values_of(alloc, arena, terms, env, *s, *t)?;
            Ok(Some(Input::Less(left, right)))
        }
        Node::Has(r, s, t) => {
            let (left, right) = values_of(alloc, arena, terms, env, *s, *t)?;
            Ok(Some(Input::Has(*r, left, right)))
        }
        Node::Flag(h, t) => {
            let value = value_of(alloc, arena, terms, env, *t)?;
            Ok(Some(Input::Flag(*h, value)))
        }
        Node::Present(h, t) => {
            let value = value_of(alloc, arena, terms, env, *t)?;
            Ok(Some(Input::Present(*h, value)))
        }
        Node::Yes
        | Node::No
        | Node::Not(_)
        | Node::And(..)
        | Node::Or(..)
        | Node::Exists(..)
        | Node::Forall(..)
        | Node::Bound(..)
        | Node::Num(_)
        | Node::Str(_)
        | Node::App(..) => Ok(None),
    }
}
