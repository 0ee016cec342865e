//! Clauses that say that numbers are ordered.

ghost use Rattle.std.specs.Prelude.{◌≡◌, ◌++◌, ◌∷◌, [], true, IfOk, OnOk, map};
ghost use Rattle.certify_atoms.specs.Orders.{AreOrders, IsNumber, is_not_so, is_so, order_clauses};

use crate::sides::{Reader, Side, side_of};
use ground_instances::Value;
use ground_problem::{FactLiteral, FactNode};
use std::alloc::{AllocError, Global};

/// Whether a value is a number.
fn is_number(reader: Reader<'_>, value: Value) -> bool
    ensures { result ≡ true → IsNumber reader.entry.signature.now reader.entry.arena.now
        reader.entry.terms.now reader.entry.words.now reader.entry.texts.now value }
{
    match side_of(reader, value) {
        Some(Side::Number(..)) => true,
        Some(Side::Element(..) | Side::Text(_)) | None => false,
    }
}

/// The literal that a fact is one.
fn so(fact: FactNode) -> FactLiteral
    ensures { result ≡ is_so fact }
{
    FactLiteral { fact, plus: true }
}

/// The literal that a fact is none.
fn not_so(fact: FactNode) -> FactLiteral
    ensures { result ≡ is_not_so fact }
{
    FactLiteral { fact, plus: false }
}

/// Puts a clause at the end.
fn push_clause(
    alloc: Global,
    literals: &[FactLiteral],
    clauses: &mut Vec<Vec<FactLiteral>>,
) -> Result<(), AllocError>
    ensures { OnOk result (map (λ c. c.items) clauses.new.items
        ≡ map (λ c. c.items) clauses.old.items ++ literals.now ∷ []) }
{
    let clause = Vec::from_slice(alloc, literals)?;
    clauses.push(clause)?;
    Ok(())
}

/// Puts the clauses on the order of two numbers at the end.
fn push_orders(
    alloc: Global,
    v: Value,
    u: Value,
    clauses: &mut Vec<Vec<FactLiteral>>,
) -> Result<(), AllocError>
    ensures { OnOk result (map (λ c. c.items) clauses.new.items
        ≡ map (λ c. c.items) clauses.old.items ++ order_clauses v u) }
{
    let same = FactNode::Same(v, u);
    let below = FactNode::Below(v, u);
    let above = FactNode::Below(u, v);
    push_clause(alloc, &[so(same), so(below), so(above)], clauses)?;
    push_clause(alloc, &[not_so(same), not_so(below)], clauses)?;
    push_clause(alloc, &[not_so(same), not_so(above)], clauses)
}

/// Puts the clauses on the order of the numbers at the end that a fact makes equal, if it does.
fn push_orders_of(
    alloc: Global,
    reader: Reader<'_>,
    fact: FactNode,
    clauses: &mut Vec<Vec<FactLiteral>>,
) -> Result<(), AllocError>
    ensures { OnOk result (AreOrders reader.entry.signature.now reader.entry.arena.now
        reader.entry.terms.now reader.entry.words.now reader.entry.texts.now
        (map (λ c. c.items) clauses.old.items) →
        AreOrders reader.entry.signature.now reader.entry.arena.now
        reader.entry.terms.now reader.entry.words.now reader.entry.texts.now
        (map (λ c. c.items) clauses.new.items)) }
{
    match fact {
        FactNode::Same(v, u) => {
            if is_number(reader, v) && is_number(reader, u) {
                push_orders(alloc, v, u, clauses)
            } else {
                Ok(())
            }
        }
        FactNode::There(_)
        | FactNode::Below(..)
        | FactNode::Raised(_)
        | FactNode::Related(_)
        | FactNode::Empty(_) => Ok(()),
    }
}

/// Clauses on facts, three for each equality of two numbers among some facts: these are the same or
/// one is below the other, and the same are not below one another. No atom says that two numbers
/// are the same; with these clauses comparisons do.
pub fn orders_of(
    alloc: Global,
    reader: Reader<'_>,
    facts: &[FactNode],
) -> Result<Vec<Vec<FactLiteral>>, AllocError>
    ensures { IfOk result (λ clauses. AreOrders reader.entry.signature.now
        reader.entry.arena.now reader.entry.terms.now reader.entry.words.now
        reader.entry.texts.now (map (λ c. c.items) clauses.items)) }
{
    let mut clauses = Vec::new(alloc);
    for fact in facts {
        push_orders_of(alloc, reader, *fact, &mut clauses)?;
    }
    Ok(clauses)
}
