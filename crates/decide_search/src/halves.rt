//! Equalities of numbers, as their halves: one number is below the other, or the other below it.

ghost use Rattle.std.specs.Prelude.{◌≡◌, ◌+◌, [], ◌∷◌, ◌++◌, true, IfOk, IfSome, OnOk, map};
ghost use Rattle.decide_search.specs.Encoding.{AreLinked, AreSameNumbers, IsNumeric};
ghost use Rattle.decide_search.specs.Encoding.{link_clauses};
ghost use Rattle.decide_search.specs.Halving.{GoesOnHalving, HasHalves};

use crate::sides::{Reader, Side, side_of};
use ground_instances::Value;
use ground_problem::FactNode;
use solve_solver::PLit;
use std::alloc::{AllocError, Global};

/// The halves of equalities, whose variables begin behind all others, and the clauses that link
/// these.
#[derive(Drop)]
pub(crate) struct Halves {
    pub(crate) facts: Vec<FactNode>,
    pub(crate) links: Vec<Vec<PLit>>,
}

/// Whether a value is a number.
fn is_number(reader: Reader<'_>, value: Value) -> Result<bool, AllocError>
    ensures { IfOk result (λ yes. yes ≡ true → IsNumeric reader.entry.signature.now
        reader.entry.arena.now reader.entry.terms.now reader.entry.words.now
        reader.entry.texts.now value) }
{
    match side_of(reader, value)? {
        Side::Number(..) => Ok(true),
        Side::Element(..) | Side::Text(_) => Ok(false),
    }
}

/// Puts a clause at the end.
fn push_link(alloc: Global, literals: &[PLit], links: &mut Vec<Vec<PLit>>) -> Result<(), AllocError>
    ensures { OnOk result (map (λ c. c.items) links.new.items
        ≡ map (λ c. c.items) links.old.items ++ literals.now ∷ []) }
{
    let clause = Vec::from_slice(alloc, literals)?;
    links.push(clause)?;
    Ok(())
}

/// Puts the clauses that link an equality to its halves at the end.
fn push_links(alloc: Global, x: u32, e: u32, links: &mut Vec<Vec<PLit>>) -> Result<(), AllocError>
    ensures { OnOk result (map (λ c. c.items) links.new.items ≡ map (λ c. c.items) links.old.items
        ++ link_clauses x e) }
{
    if e == u32::MAX {
        return Err(AllocError);
    }
    let same = PLit { var: x, plus: true };
    let below = PLit { var: e, plus: true };
    let above = PLit {
        var: e + 1,
        plus: true,
    };
    let not_same = PLit {
        var: x,
        plus: false,
    };
    let not_below = PLit {
        var: e,
        plus: false,
    };
    let not_above = PLit {
        var: e + 1,
        plus: false,
    };
    push_link(alloc, &[same, below, above], links)?;
    push_link(alloc, &[not_same, not_below], links)?;
    push_link(alloc, &[not_same, not_above], links)
}

/// The variable of the fact at a place.
pub(crate) fn variable_at(place: usize) -> Result<u32, AllocError>
    ensures { IfOk result (λ var. var ≡ place) }
{
    if place > u32::MAX as usize {
        return Err(AllocError);
    }
    Ok(place as u32)
}

/// The number of a place behind some variables.
fn behind(vars: u32, place: usize) -> Result<u32, AllocError>
    ensures { IfOk result (λ number. number ≡ vars + place) }
{
    let Some(number) = (vars as usize).checked_add(place) else {
        return Err(AllocError);
    };
    if number > u32::MAX as usize {
        return Err(AllocError);
    }
    Ok(number as u32)
}

/// Puts the halves of the equality of two numbers at the end, with the clauses that link them.
fn push_halves(
    alloc: Global,
    v: Value,
    u: Value,
    x: u32,
    vars: u32,
    halves: &mut Halves,
) -> Result<(), AllocError>
    ensures { OnOk result (HasHalves v u x vars halves.old halves.new) }
{
    let e = behind(vars, halves.facts.len())?;
    halves.facts.push(FactNode::Below(v, u))?;
    halves.facts.push(FactNode::Below(u, v))?;
    push_links(alloc, x, e, &mut halves.links)
}

/// Whether a fact is an equality of numbers, and of which.
fn numbers_of(reader: Reader<'_>, fact: FactNode) -> Result<Option<(Value, Value)>, AllocError>
    ensures { IfOk result (λ both. IfSome both (λ p. AreSameNumbers reader.entry.signature.now
        reader.entry.arena.now reader.entry.terms.now reader.entry.words.now
        reader.entry.texts.now fact p.0 p.1)) }
{
    match fact {
        FactNode::Same(v, u) => {
            let left = is_number(reader, v)?;
            let right = is_number(reader, u)?;
            if left && right {
                Ok(Some((v, u)))
            } else {
                Ok(None)
            }
        }
        FactNode::There(_)
        | FactNode::Below(..)
        | FactNode::Raised(_)
        | FactNode::Related(_)
        | FactNode::Empty(_) => Ok(None),
    }
}

/// Takes the halves of a fact, whose variable is this one, if it is an equality of numbers.
fn halve_one(
    alloc: Global,
    reader: Reader<'_>,
    fact: FactNode,
    x: u32,
    vars: u32,
    halves: &mut Halves,
) -> Result<(), AllocError>
    ensures { OnOk result (GoesOnHalving reader.entry.signature.now reader.entry.arena.now
        reader.entry.terms.now reader.entry.words.now reader.entry.texts.now fact x vars
        halves.old halves.new) }
{
    match numbers_of(reader, fact)? {
        Some((v, u)) => push_halves(alloc, v, u, x, vars, halves),
        None => Ok(()),
    }
}

/// The halves of all equalities of numbers among facts, which are the first variables, and the
/// clauses that link them.
pub(crate) fn halves_of(
    alloc: Global,
    reader: Reader<'_>,
    vars: u32,
    facts: &[FactNode],
) -> Result<Halves, AllocError>
    ensures { IfOk result (λ halves. AreLinked reader.entry.signature.now reader.entry.arena.now
        reader.entry.terms.now reader.entry.words.now reader.entry.texts.now vars facts.now
        halves.facts.items (map (λ c. c.items) halves.links.items)) }
{
    let mut halves = Halves {
        facts: Vec::new(alloc),
        links: Vec::new(alloc),
    };
    for k in 0..facts.len() {
        let x = variable_at(k)?;
        halve_one(alloc, reader, facts[k], x, vars, &mut halves)?;
    }
    Ok(halves)
}
