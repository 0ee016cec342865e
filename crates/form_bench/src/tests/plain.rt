//! A plain reading of formulas, as slow as it is short.

ghost use Rattle.std.specs.Prelude.{◌<◌, length};

use form_formula::{Arena, Node, SVal, Structure};
use std::alloc::AllocError;

/// What a term is, but for texts.
#[derive(Clone, Copy)]
enum Seen {
    Element(u32),
    Number(i64),
    Truth(bool),
}

/// The value of a function at what a term is.
fn entry(structure: &Structure, function: u32, at: Option<Seen>) -> Option<Seen> {
    let Some(Seen::Element(x)) = at else {
        return None;
    };
    let table = structure.funs.as_slice().get(function as usize)?;
    match table.as_slice().get(x as usize)? {
        Some(SVal::Rec(y)) => Some(Seen::Element(*y)),
        Some(SVal::Flag(b)) => Some(Seen::Truth(*b)),
        Some(SVal::Num(n)) => Some(Seen::Number(*n)),
        Some(SVal::Str(_)) => None,
        None => None,
    }
}

/// What a term is, where variables are these elements.
fn term(arena: &Arena, id: u32, structure: &Structure, elements: &[u32]) -> Option<Seen>
    requires { id < length arena.now }
{
    match arena.node(id) {
        Node::Bound(_, depth) => Some(Seen::Element(*elements.get(*depth as usize)?)),
        Node::Num(n) => Some(Seen::Number(*n)),
        Node::App(f, t) => entry(structure, *f, term(arena, *t, structure, elements)),
        _ => None,
    }
}

/// Whether two things are the same.
fn are_same(left: Option<Seen>, right: Option<Seen>) -> bool {
    match (left, right) {
        (Some(Seen::Element(x)), Some(Seen::Element(y))) => x == y,
        (Some(Seen::Number(x)), Some(Seen::Number(y))) => x == y,
        _ => false,
    }
}

/// Whether both are numbers, the first below the second.
fn is_less(left: Option<Seen>, right: Option<Seen>) -> bool {
    match (left, right) {
        (Some(Seen::Number(x)), Some(Seen::Number(y))) => x < y,
        _ => false,
    }
}

/// Whether the relation has the pair.
fn has(structure: &Structure, relation: u32, left: Option<Seen>, right: Option<Seen>) -> bool {
    let (Some(Seen::Element(x)), Some(Seen::Element(y))) = (left, right) else {
        return false;
    };
    match structure.sets.as_slice().get(relation as usize) {
        Some(pairs) => pairs.as_slice().contains(&(x, y)),
        None => false,
    }
}

/// How many elements a sort has.
fn size(structure: &Structure, sort: u32) -> u32 {
    match structure.sizes.as_slice().get(sort as usize) {
        Some(size) => *size,
        None => 0,
    }
}

/// Whether the formula is true for some element of a sort (or, where `each`, for each).
#[cycle(reading)]
fn quantified(
    arena: &Arena,
    id: u32,
    structure: &Structure,
    elements: &mut Vec<u32>,
    sort: u32,
    each: bool,
) -> Result<bool, AllocError>
    requires { id < length arena.now }
{
    let mut found = each;
    for x in 0..size(structure, sort) {
        elements.push(x)?;
        let is_met = is_true(arena, id, structure, elements)?;
        elements.pop();
        found = if each {
            found && is_met
        } else {
            found || is_met
        };
    }
    Ok(found)
}

/// Whether a formula is true on the structure, where the variables above are these elements.
#[cycle(reading)]
pub fn is_true(
    arena: &Arena,
    id: u32,
    structure: &Structure,
    elements: &mut Vec<u32>,
) -> Result<bool, AllocError>
    requires { id < length arena.now }
{
    let value = |t: u32| term(arena, t, structure, elements.as_slice());
    match arena.node(id) {
        Node::Yes => Ok(true),
        Node::Eq(s, t) => Ok(are_same(value(*s), value(*t))),
        Node::Less(s, t) => Ok(is_less(value(*s), value(*t))),
        Node::Has(r, s, t) => Ok(has(structure, *r, value(*s), value(*t))),
        Node::Flag(f, t) => Ok(matches!(entry(structure, *f, value(*t)), Some(Seen::Truth(true)))),
        Node::Present(f, t) => Ok(entry(structure, *f, value(*t)).is_some()),
        Node::Not(a) => Ok(!is_true(arena, *a, structure, elements)?),
        Node::And(a, b) => {
            let left = is_true(arena, *a, structure, elements)?;
            Ok(is_true(arena, *b, structure, elements)? && left)
        }
        Node::Or(a, b) => {
            let left = is_true(arena, *a, structure, elements)?;
            Ok(is_true(arena, *b, structure, elements)? || left)
        }
        Node::Exists(sort, a) => quantified(arena, *a, structure, elements, *sort, false),
        Node::Forall(sort, a) => quantified(arena, *a, structure, elements, *sort, true),
        _ => Ok(false),
    }
}
