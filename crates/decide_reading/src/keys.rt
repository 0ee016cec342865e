//! What the values of terms and of pairs are functions of.

ghost use Rattle.std.specs.Prelude.{◌≡◌, IfOk, Option};
ghost use Rattle.std.specs.Option.{option_map};
ghost use Rattle.form_formula.specs.declared.structure.SVal.{SVal as AnyValue};
ghost use Rattle.form_terms.specs.GroundTerms.{GroundTerm};
ghost use Rattle.ground_terms.specs.Nodes.{IsList, IsOne, list_of, term_of};
ghost use Rattle.ground_problem.specs.Words.{pair_at};
ghost use Rattle.decide_reading.specs.Keys.{HaveValues, class_of, classes_of, key_of, pair_key_of};
ghost use Rattle.decide_reading.specs.Keys.{value_at};

use crate::classes::Classes;
use decide_models::Found;
use form_formula::SVal;
use ground_problem::PairNode;
use ground_terms::{TermArena, TermNode};
use std::alloc::{AllocError, Global};

/// A function and the class of its argument, or a variable and those of its arguments: what the
/// value of a term is a function of.
#[derive(Debug, PartialEq, Eq, Hash, Drop)]
pub(crate) enum Key {
    Function(u32, u32),
    Variable(u32, u32, Classes),
}

/// A set relation and two classes.
#[derive(Clone, Copy, Debug, PartialEq, Eq, Hash)]
pub(crate) struct PairKey {
    pub(crate) relation: u32,
    pub(crate) holder: u32,
    pub(crate) member: u32,
}

/// What was found of numbered terms.
#[derive(Clone, Copy)]
pub(crate) struct Source<'a> {
    pub(crate) terms: &'a TermArena,
    pub(crate) found: &'a Found,
}

/// The class of what a term has, if it is there.
fn class_at(found: &Found, id: u32) -> Option<u32>
    ensures { result ≡ option_map class_of (value_at found.now id) }
{
    match found.values.get(id as usize) {
        Some(Some(SVal::Rec(x))) => Some(*x),
        Some(Some(SVal::Flag(_) | SVal::Num(_) | SVal::Str(_))) => Some(0),
        Some(None) | None => None,
    }
}

/// The classes of what the terms of a list have, if all of these are there.
fn classes_at(alloc: Global, source: Source<'_>, list: u32) -> Result<Option<Classes>, AllocError>
    requires { IsList source.terms.now list }
    ensures { IfOk result (λ classes. (values : GroundTerm → Option AnyValue) →
        HaveValues source.entry.terms.now source.entry.found.now values →
        classes ≡ classes_of values (list_of source.entry.terms.now list)) }
{
    let mut at = list;
    let mut classes = Classes::new(alloc);
    'down: loop {
        let TermNode::Cons(t, rest) = source.terms.node(at) else {
            return Ok(Some(classes));
        };
        let Some(class) = class_at(source.found, t) else {
            return Ok(None);
        };
        classes.push(class)?;
        at = rest;
    }
}

/// The key of a term, if it has arguments and all of these are there.
pub(crate) fn key_at(alloc: Global, source: Source<'_>, id: u32) -> Result<Option<Key>, AllocError>
    requires { IsOne source.terms.now id }
    ensures { IfOk result (λ key. (values : GroundTerm → Option AnyValue) →
        HaveValues source.entry.terms.now source.entry.found.now values →
        key ≡ key_of values (term_of source.entry.terms.now id)) }
{
    match source.terms.node(id) {
        TermNode::Skolem(number, sort, list) => {
            let classes = classes_at(alloc, source, list)?;
            Ok(classes.map(|classes| Key::Variable(number, sort, classes)))
        }
        TermNode::Field(h, t) => {
            let class = class_at(source.found, t);
            Ok(class.map(|class| Key::Function(h, class)))
        }
        TermNode::Constant(_) | TermNode::Empty | TermNode::Cons(..) => Ok(None),
    }
}

/// The key of a pair, if both of its terms are there.
pub(crate) fn pair_key_at(source: Source<'_>, pair: PairNode) -> Option<PairKey>
    requires holder { IsOne source.terms.now pair.holder }
    requires member { IsOne source.terms.now pair.member }
    ensures { (values : GroundTerm → Option AnyValue) →
        HaveValues source.entry.terms.now source.entry.found.now values →
        result ≡ pair_key_of values (pair_at source.entry.terms.now pair) }
{
    let holder = class_at(source.found, pair.holder)?;
    let member = class_at(source.found, pair.member)?;
    Some(PairKey {
        relation: pair.relation,
        holder,
        member,
    })
}
