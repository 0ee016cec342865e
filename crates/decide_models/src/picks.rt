//! The elements of the variables that a formula begins with.

ghost use Rattle.std.specs.Prelude.{◌≡◌, ◌==◌, ◌<◌, All, IfOk, length, slice_get, unwrap_or, option_and_then};
ghost use Rattle.std.specs.List.{find};
ghost use Rattle.form_formula.specs.Nodes.{IsFormula, formula_of};
ghost use Rattle.form_terms.specs.Satisfying.{leading_elements};
ghost use Rattle.decide_models.specs.Columns.{choice_by, element_in, is_no_list, is_variable_at};

use crate::places::element_or_first;
use form_formula::{Arena, Node};
use ground_terms::{TermArena, TermNode};
use sqlite_items::Items;
use std::alloc::{AllocError, Global};

/// Whether a node is the list without terms.
fn is_no_list(terms: &TermArena, id: u32) -> bool
    requires { id < length terms.now }
    ensures { result ≡ is_no_list (slice_get terms.now id) }
{
    match terms.node(id) {
        TermNode::Empty => true,
        TermNode::Constant(_) | TermNode::Skolem(..) | TermNode::Field(..) | TermNode::Cons(..) => {
            false
        }
    }
}

/// Whether a term is the variable of an `exists` below no `forall`, by its number.
fn is_variable_at(terms: &TermArena, number: u32, id: u32) -> bool
    requires { id < length terms.now }
    ensures { result ≡ is_variable_at terms.now number id }
{
    match terms.node(id) {
        TermNode::Skolem(own, _, list) => own == number && is_no_list(terms, list),
        TermNode::Constant(_) | TermNode::Field(..) | TermNode::Empty | TermNode::Cons(..) => false,
    }
}

/// The first of some terms that is the variable of an `exists` below no `forall`.
fn variable_of(terms: &TermArena, named: &[u32], number: u32) -> Option<u32>
    requires { All (λ id. id < length terms.now) named.now }
    ensures { result ≡ find (is_variable_at terms.now number) named.now }
{
    for id in named {
        if is_variable_at(terms, number, *id) {
            return Some(*id);
        }
    }
    None
}

/// The element of the variable of an `exists` below no `forall`, or the first one.
fn pick_of(terms: &TermArena, elements: &Items<Option<u32>>, named: &[u32], number: u32) -> u32
    requires { All (λ id. id < length terms.now) named.now }
    ensures { result ≡ unwrap_or (option_and_then (element_in elements.now) (find (is_variable_at
        terms.now number) named.now)) 0 }
{
    match variable_of(terms, named, number) {
        Some(id) => element_or_first(elements, id),
        None => 0,
    }
}

/// The elements of the variables of the `exists` that a formula begins with.
pub(crate) fn picks(
    alloc: Global,
    arena: &Arena,
    id: u32,
    terms: &TermArena,
    elements: &Items<Option<u32>>,
    named: &[u32],
) -> Result<Items<u32>, AllocError>
    requires formula { IsFormula arena.now id }
    requires below { All (λ id. id < length terms.now) named.now }
    ensures { IfOk result (λ picks. picks ≡ leading_elements (choice_by terms.now named.now
        elements.now) 0 (formula_of arena.now id)) }
{
    let mut picks = Items::new(alloc);
    let mut at = id;
    let mut number = 0;
    'down: while let Node::Exists(_, body) = arena.node(at) {
        picks.push(pick_of(terms, elements, named, number))?;
        number += 1;
        at = *body;
    }
    Ok(picks)
}
