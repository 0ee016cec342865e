//! The elements with which a formula is true that begins with `exists`.

ghost use Rattle.std.specs.Prelude.{◌≡◌, ◌∷◌, ◌++◌, [], false, true, IfOk, IfSome, None, OnOk};
ghost use Rattle.std.specs.List.{list_any};
ghost use Rattle.form_formula.specs.Nodes.{IsFormula, formula_of};
ghost use Rattle.form_formula.specs.Truth.{elements, size_of, truth};
ghost use Rattle.form_terms.specs.Satisfying.{AreElements, body_of, leading_sorts};
ghost use Rattle.decide_smaller.specs.Picks.{ArePicks, IsPick};

use form_formula::{Arena, Node, Structure, holds, holds_at};
use sqlite_items::Items;
use std::alloc::{AllocError, Global};

/// How many elements a sort has.
fn size_of(structure: &Structure, sort: u32) -> u32
    ensures { result ≡ size_of structure.now sort }
{
    match structure.sizes.as_slice().get(sort as usize) {
        Some(size) => *size,
        None => 0,
    }
}

/// Puts behind some elements the first one of a sort with which a formula is true there.
fn pick(
    alloc: Global,
    structure: &Structure,
    arena: &Arena,
    sort: u32,
    body: u32,
    picks: &mut Vec<u32>,
) -> Result<(), AllocError>
    requires formula { IsFormula arena.now body }
    requires some { list_any (λ x. truth structure.now (picks.old.items ++ x ∷ [])
        (formula_of arena.now body)) (elements structure.now sort) ≡ true }
    ensures { OnOk result (IsPick structure.now sort (formula_of arena.now body)
        picks.old.items picks.new.items) }
{
    for element in 0..size_of(structure, sort) {
        picks.push(element)?;
        if holds_at(alloc, structure, arena, body, picks.as_slice())? {
            return Ok(());
        }
        picks.pop();
    }
    unreachable!()
}

/// The elements with which a formula is true that is true on the structure.
fn picks_in(
    alloc: Global,
    structure: &Structure,
    arena: &Arena,
    id: u32,
) -> Result<Items<u32>, AllocError>
    requires formula { IsFormula arena.now id }
    requires true_there { truth structure.now [] (formula_of arena.now id) ≡ true }
    ensures { IfOk result (ArePicks structure.now (formula_of arena.now id)) }
{
    let mut picks = Vec::new(alloc);
    let mut at = id;
    'down: while let Node::Exists(sort, body) = arena.node(at) {
        pick(alloc, structure, arena, *sort, *body, &mut picks)?;
        at = *body;
    }
    Ok(Items::from_vec(picks))
}

/// The elements with which a closed formula is true on a structure, for the `exists` that it begins
/// with, the first ones for the first; None exactly where it is false.
pub(crate) fn picks_on(
    alloc: Global,
    structure: &Structure,
    arena: &Arena,
    id: u32,
) -> Result<Option<Items<u32>>, AllocError>
    requires { IsFormula arena.now id }
    ensures none { IfOk result (λ picks. picks ≡ None
        → truth structure.now [] (formula_of arena.now id) ≡ false) }
    ensures some { IfOk result (λ picks. IfSome picks
        (ArePicks structure.now (formula_of arena.now id))) }
{
    if !holds(alloc, structure, arena, id)? {
        return Ok(None);
    }
    let picks = picks_in(alloc, structure, arena, id)?;
    Ok(Some(picks))
}

/// What stands below the `exists` that a formula begins with, if these are elements for them.
fn body_below(structure: &Structure, arena: &Arena, id: u32, picks: &[u32]) -> Option<u32>
    requires { IsFormula arena.now id }
    ensures formula { IfSome result (IsFormula arena.now) }
    ensures elements { IfSome result (λ _. AreElements structure.now
        (leading_sorts (formula_of arena.now id)) picks.now) }
    ensures body { IfSome result (λ body. formula_of arena.now body
        ≡ body_of (formula_of arena.now id)) }
{
    let mut at = id;
    for pick in picks {
        let Node::Exists(sort, body) = arena.node(at) else {
            return None;
        };
        if *pick >= size_of(structure, *sort) {
            return None;
        }
        at = *body;
    }
    match arena.node(at) {
        Node::Exists(..) => None,
        _ => Some(at),
    }
}

/// Whether a formula is true with these elements for the `exists` that it begins with.
fn are_picks(
    alloc: Global,
    structure: &Structure,
    arena: &Arena,
    id: u32,
    picks: &[u32],
) -> Result<bool, AllocError>
    requires { IsFormula arena.now id }
    ensures { IfOk result (λ are. are ≡ true
        → ArePicks structure.now (formula_of arena.now id) picks.now) }
{
    match body_below(structure, arena, id, picks) {
        Some(body) => holds_at(alloc, structure, arena, body, picks),
        None => Ok(false),
    }
}

/// The elements with which a closed formula is true on a structure, for the `exists` that it begins
/// with: these where it is true with them, and else the first ones for the first; None exactly where
/// it is false.
///
/// With elements that are at hand the formula is evaluated once, and else for each choice of them.
pub fn picks_from(
    alloc: Global,
    structure: &Structure,
    arena: &Arena,
    id: u32,
    own: Items<u32>,
) -> Result<Option<Items<u32>>, AllocError>
    requires { IsFormula arena.now id }
    ensures none { IfOk result (λ picks. picks ≡ None
        → truth structure.now [] (formula_of arena.now id) ≡ false) }
    ensures some { IfOk result (λ picks. IfSome picks
        (ArePicks structure.now (formula_of arena.now id))) }
{
    // Without any, one evaluation tells both.
    if !own.is_empty() && are_picks(alloc, structure, arena, id, own.as_slice())? {
        return Ok(Some(own));
    }
    picks_on(alloc, structure, arena, id)
}
