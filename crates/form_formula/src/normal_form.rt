//! The negation normal form.

ghost use Rattle.std.specs.Prelude.{◌≡◌, ℕ, Bool, ◌+◌, ◌*◌, ◌<◌, ◌≤◌, length, slice_get, true};
ghost use Rattle.std.specs.Prelude.{false, IfOk, OnErr, Some};
ghost use Rattle.form_formula.specs.Nodes.{IsFormula, formula_of, IsPlaced, ArePlaced, IsBelow};
ghost use Rattle.form_formula.specs.Added.{Extends};
ghost use Rattle.form_formula.specs.NormalForm.{signed_form, normal_form, IsNormal};
ghost use Rattle.form_formula.specs.Marks.{ArePassedOn};
ghost use Rattle.form_formula.specs.Truth.{IsEquallyTrue};
ghost use Rattle.form_formula.specs.Forms.{HasParts, AreFormsOf, AreForms, is_wanted, step_of};
ghost use Rattle.form_formula.specs.Forms.{IsTaken, CanTake};
ghost use Rattle.form_formula.specs.Nodes.{StandsFor};
ghost use Rattle.form_formula.specs.declared.node.Node.{Node as AnyNode};
ghost use Rattle.form_formula.specs.declared.limits.TheConstants.{MOST_ARENA_NODES};

use crate::arena::Arena;
use crate::marks::{Wanted, marks_for};
use crate::node::Node;
use std::alloc::{AllocError, Global};

/// The numbers of the normal forms of a formula and of its negation, each where it is wanted.
#[derive(Clone, Copy, Debug)]
pub(crate) struct Forms {
    pub(crate) positive: u32,
    pub(crate) negative: u32,
}

/// Gives the number of the negation normal form of a formula: only atoms are negated in it, and it
/// is true on the same structures. It is one tree with the definition, so sizes can be counted on
/// it. Each node is visited once for the formula and once for its negation, without recursion.
pub fn nnf(arena: &mut Arena, id: u32) -> Result<u32, AllocError>
    requires formula { IsFormula arena.old id }
    requires room { 3 * length arena.old ≤ MOST_ARENA_NODES }
    ensures form { IfOk result
        (λ form. StandsFor arena.new form (normal_form (formula_of arena.old id))) }
    ensures normal { IfOk result (λ form. IsNormal (formula_of arena.new form)) }
    ensures same_truth { IfOk result
        (λ form. IsEquallyTrue (formula_of arena.new form) (formula_of arena.old id)) }
    ensures kept { Extends arena.old arena.new }
    ensures size { length arena.new ≤ 3 * length arena.old }
{
    let alloc = arena.allocator();
    let marks = marks_for(alloc, arena, id)?;
    let forms = forms_for(alloc, arena, marks.as_slice())?;
    Ok(forms[id as usize].positive)
}

/// The normal forms that are wanted of the first nodes.
fn forms_for(alloc: Global, arena: &mut Arena, marks: &[Wanted]) -> Result<Vec<Forms>, AllocError>
    requires passed_on { ArePassedOn arena.old marks.now 0 }
    requires within { length marks.now ≤ length arena.old }
    requires room { 3 * length arena.old ≤ MOST_ARENA_NODES }
    ensures kept { Extends arena.old arena.new }
    ensures size { length arena.new ≤ 3 * length arena.old }
    ensures length { IfOk result (λ forms. length forms.items ≡ length marks.now) }
    ensures forms { IfOk result (λ forms. AreForms arena.new marks.now forms.items) }
{
    let mut forms = Vec::with_capacity(alloc, marks.len())?;
    for wanted in marks {
        let _ = arena.len();
        let next = convert(arena, forms.len() as u32, *wanted, forms.as_slice())?;
        forms.push(next)?;
    }
    Ok(forms)
}

/// The normal form of a formula, from those of its parts.
fn positive_form(arena: &mut Arena, id: u32, forms: &[Forms]) -> Result<u32, AllocError>
    ghost node: { AnyNode }
    requires there { slice_get arena.old id ≡ Some node }
    requires below { IsBelow (length forms.now) node }
    requires placed { CanTake (step_of forms.now id true node) arena.old }
    requires room { length arena.old < MOST_ARENA_NODES }
    ensures taken { IfOk result (IsTaken (step_of forms.now id true node) arena.old arena.new) }
    ensures err { OnErr result (arena.new ≡ arena.old) }
{
    match arena.node(id) {
        Node::Not(a) => Ok(forms[*a as usize].negative),
        Node::And(a, b) => {
            let (a, b) = (forms[*a as usize], forms[*b as usize]);
            arena.mk_and(a.positive, b.positive)
        }
        Node::Or(a, b) => {
            let (a, b) = (forms[*a as usize], forms[*b as usize]);
            arena.mk_or(a.positive, b.positive)
        }
        Node::Exists(sort, a) => {
            let (sort, a) = (*sort, forms[*a as usize]);
            arena.mk_exists(sort, a.positive)
        }
        Node::Forall(sort, a) => {
            let (sort, a) = (*sort, forms[*a as usize]);
            arena.mk_forall(sort, a.positive)
        }
        Node::Bound(..)
        | Node::Num(_)
        | Node::Str(_)
        | Node::App(..)
        | Node::Yes
        | Node::No
        | Node::Eq(..)
        | Node::Less(..)
        | Node::Has(..)
        | Node::Flag(..)
        | Node::Present(..) => Ok(id),
    }
}

/// The normal form of the negation of a formula, from those of the negations of its parts.
fn negative_form(arena: &mut Arena, id: u32, forms: &[Forms]) -> Result<u32, AllocError>
    ghost node: { AnyNode }
    requires there { slice_get arena.old id ≡ Some node }
    requires below { IsBelow (length forms.now) node }
    requires placed { CanTake (step_of forms.now id false node) arena.old }
    requires room { length arena.old < MOST_ARENA_NODES }
    ensures taken { IfOk result (IsTaken (step_of forms.now id false node) arena.old arena.new) }
    ensures err { OnErr result (arena.new ≡ arena.old) }
{
    match arena.node(id) {
        Node::Not(a) => Ok(forms[*a as usize].positive),
        Node::And(a, b) => {
            let (a, b) = (forms[*a as usize], forms[*b as usize]);
            arena.mk_or(a.negative, b.negative)
        }
        Node::Or(a, b) => {
            let (a, b) = (forms[*a as usize], forms[*b as usize]);
            arena.mk_and(a.negative, b.negative)
        }
        Node::Exists(sort, a) => {
            let (sort, a) = (*sort, forms[*a as usize]);
            arena.mk_forall(sort, a.negative)
        }
        Node::Forall(sort, a) => {
            let (sort, a) = (*sort, forms[*a as usize]);
            arena.mk_exists(sort, a.negative)
        }
        Node::Yes => arena.mk_no(),
        Node::No => arena.mk_yes(),
        Node::Eq(..) | Node::Less(..) | Node::Has(..) | Node::Flag(..) | Node::Present(..) => {
            arena.mk_not(id)
        }
        Node::Bound(..) | Node::Num(_) | Node::Str(_) | Node::App(..) => Ok(id),
    }
}

/// The normal form of a formula, where it is wanted.
fn positive_if(arena: &mut Arena, id: u32, wanted: bool, forms: &[Forms]) -> Result<u32, AllocError>
    ghost node: { AnyNode }
    requires there { slice_get arena.old id ≡ Some node }
    requires all { ArePlaced arena.old }
    requires below { IsBelow (length forms.now) node }
    requires parts { wanted ≡ true → HasParts arena.old forms.now true node }
    requires room { length arena.old < MOST_ARENA_NODES }
    ensures kept { Extends arena.old arena.new }
    ensures one_more { length arena.new ≤ length arena.old + 1 }
    ensures form { IfOk result (λ form. wanted ≡ true → IsFormula arena.old id →
        StandsFor arena.new form (signed_form true (formula_of arena.old id))) }
{
    if wanted {
        positive_form(arena, id, forms)
    } else {
        Ok(id)
    }
}

/// The normal form of the negation of a formula, where it is wanted.
fn negative_if(arena: &mut Arena, id: u32, wanted: bool, forms: &[Forms]) -> Result<u32, AllocError>
    ghost node: { AnyNode }
    requires there { slice_get arena.old id ≡ Some node }
    requires all { ArePlaced arena.old }
    requires below { IsBelow (length forms.now) node }
    requires parts { wanted ≡ true → HasParts arena.old forms.now false node }
    requires room { length arena.old < MOST_ARENA_NODES }
    ensures kept { Extends arena.old arena.new }
    ensures one_more { length arena.new ≤ length arena.old + 1 }
    ensures form { IfOk result (λ form. wanted ≡ true → IsFormula arena.old id →
        StandsFor arena.new form (signed_form false (formula_of arena.old id))) }
{
    if wanted {
        negative_form(arena, id, forms)
    } else {
        Ok(id)
    }
}

/// The normal forms of a formula and of its negation, each where it is wanted.
fn convert(arena: &mut Arena, id: u32, wanted: Wanted, forms: &[Forms]) -> Result<Forms, AllocError>
    ghost node: { AnyNode }
    requires there { slice_get arena.old id ≡ Some node }
    requires all { ArePlaced arena.old }
    requires placed { IsPlaced arena.old node }
    requires below { IsBelow (length forms.now) node }
    requires parts { (sign : Bool) → is_wanted sign wanted ≡ true →
        HasParts arena.old forms.now sign node }
    requires room { length arena.old + 1 < MOST_ARENA_NODES }
    ensures kept { Extends arena.old arena.new }
    ensures two_more { length arena.new ≤ length arena.old + 2 }
    ensures forms { IfOk result (λ forms. IsFormula arena.old id →
        AreFormsOf arena.new wanted id forms) }
{
    let positive = positive_if(arena, id, wanted.positive, forms)?;
    let _ = arena.len();
    let negative = negative_if(arena, id, wanted.negative, forms)?;
    Ok(Forms { positive, negative })
}
