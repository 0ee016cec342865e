//! The clauses of congruence on two terms.

ghost use Rattle.std.specs.Prelude.{◌≡◌, ◌++◌, ◌∷◌, [], false, map, true, IfOk, OnOk};
ghost use Rattle.form_tables.specs.Clauses.{all_same, alike_clauses, element_clauses};
ghost use Rattle.form_tables.specs.Clauses.{relation_clauses, value_clauses};
ghost use Rattle.form_tables.specs.Facts.{implied, same, so, term, there};
ghost use Rattle.form_terms.specs.GroundTerms.{field, skolem};
ghost use Rattle.ground_terms.specs.Nodes.{IsList, IsOne, list_of, term_of};
ghost use Rattle.ground_problem.specs.Words.{pair_at};
ghost use Rattle.ground_problem.specs.Congruence.{AddsPremises, apart_literals, value_literals};
ghost use Rattle.ground_problem.specs.Facts.{AreAdded};

use crate::PairNode;
use crate::facts::{FactLiteral, FactNode, not_so, push_clause, so};
use crate::terms::Source;
use form_formula::Range;
use ground_instances::Value;
use ground_terms::TermNode;
use std::alloc::{AllocError, Global};

/// The fact that two terms are the same.
fn same(t: u32, u: u32) -> FactNode
    ensures { result ≡ FactNode.Same (Value.Term t) (Value.Term u) }
{
    FactNode::Same(Value::Term(t), Value::Term(u))
}

/// Puts that two terms are not both there and the same at the end.
fn push_apart(t: u32, u: u32, literals: &mut Vec<FactLiteral>) -> Result<(), AllocError>
    ensures { OnOk result (literals.new.items ≡ literals.old.items ++ apart_literals t u) }
{
    literals.push(not_so(FactNode::There(t)))?;
    literals.push(not_so(FactNode::There(u)))?;
    literals.push(not_so(same(t, u)))?;
    Ok(())
}

/// Puts that the terms of two lists are not all there and the same at the end.
fn push_all_apart(
    source: Source<'_>,
    ts: u32,
    us: u32,
    literals: &mut Vec<FactLiteral>,
) -> Result<(), AllocError>
    requires left { IsList source.terms.now ts }
    requires right { IsList source.terms.now us }
    ensures { OnOk result (AddsPremises source.entry.arena.now source.entry.terms.now
        literals.old.items literals.new.items (all_same (list_of source.entry.terms.now ts)
        (list_of source.entry.terms.now us))) }
{
    let mut left = ts;
    let mut right = us;
    'down: loop {
        let TermNode::Cons(t, rest) = source.terms.node(left) else {
            return Ok(());
        };
        let TermNode::Cons(u, others) = source.terms.node(right) else {
            return Ok(());
        };
        push_apart(t, u, literals)?;
        left = rest;
        right = others;
    }
}

/// The literals that a fact is none, and that two terms are not both there and the same.
fn premises(alloc: Global, whole: FactNode, t: u32, u: u32) -> Result<Vec<FactLiteral>, AllocError>
    ensures { IfOk result (λ literals. literals.items
        ≡ record { fact = whole; plus = false } ∷ apart_literals t u) }
{
    let mut literals = vec![in alloc; not_so(whole)]?;
    push_apart(t, u, &mut literals)?;
    Ok(literals)
}

/// Puts the clause of these literals and one more at the end.
fn push_with(
    alloc: Global,
    premises: &[FactLiteral],
    conclusion: FactNode,
    clauses: &mut Vec<Vec<FactLiteral>>,
) -> Result<(), AllocError>
    ensures { OnOk result (map (λ c. c.items) clauses.new.items ≡ map (λ c. c.items)
        clauses.old.items ++ (premises.now ++ record { fact = conclusion; plus = true } ∷ [])
        ∷ []) }
{
    let mut literals = Vec::from_slice(alloc, premises)?;
    literals.push(so(conclusion))?;
    clauses.push(literals)?;
    Ok(())
}

// Six beside the allocator: what is read, a term and its two parts, the other one, and the clauses.
/// Puts the clause that a function is there at a term, if it is there at another that is the same,
/// at the end.
fn push_alike_field(
    alloc: Global,
    source: Source<'_>,
    x: u32,
    h: u32,
    t: u32,
    y: u32,
    clauses: &mut Vec<Vec<FactLiteral>>,
) -> Result<(), AllocError>
    requires one { IsOne source.terms.now y }
    requires is { term_of source.terms.now x ≡ field h (term_of source.terms.now t) }
    ensures { OnOk result (AreAdded source.entry.arena.now source.entry.terms.now
        (map (λ c. c.items) clauses.old.items) (map (λ c. c.items) clauses.new.items)
        (alike_clauses source.entry.signature.now (term_of source.entry.terms.now x)
        (term_of source.entry.terms.now y))) }
{
    match source.terms.node(y) {
        TermNode::Field(k, u) => {
            if h != k {
                return Ok(());
            }
            let literals = premises(alloc, FactNode::There(x), t, u)?;
            push_with(alloc, literals.as_slice(), FactNode::There(y), clauses)
        }
        _ => Ok(()),
    }
}

/// Puts that clause, if a term is a function at one, at the end.
pub(crate) fn push_alike(
    alloc: Global,
    source: Source<'_>,
    x: u32,
    y: u32,
    clauses: &mut Vec<Vec<FactLiteral>>,
) -> Result<(), AllocError>
    requires first { IsOne source.terms.now x }
    requires second { IsOne source.terms.now y }
    ensures { OnOk result (AreAdded source.entry.arena.now source.entry.terms.now
        (map (λ c. c.items) clauses.old.items) (map (λ c. c.items) clauses.new.items)
        (alike_clauses source.entry.signature.now (term_of source.entry.terms.now x)
        (term_of source.entry.terms.now y))) }
{
    match source.terms.node(x) {
        TermNode::Field(h, t) => push_alike_field(alloc, source, x, h, t, y, clauses),
        _ => Ok(()),
    }
}

// Six beside the allocator: what is read, a term and its two parts, the other one, and the clauses.
/// Puts the clause that a function names one element at terms that are the same at the end.
fn push_element_field(
    alloc: Global,
    source: Source<'_>,
    x: u32,
    h: u32,
    t: u32,
    y: u32,
    clauses: &mut Vec<Vec<FactLiteral>>,
) -> Result<(), AllocError>
    requires one { IsOne source.terms.now y }
    requires is { term_of source.terms.now x ≡ field h (term_of source.terms.now t) }
    ensures { OnOk result (AreAdded source.entry.arena.now source.entry.terms.now
        (map (λ c. c.items) clauses.old.items) (map (λ c. c.items) clauses.new.items)
        (element_clauses source.entry.signature.now (term_of source.entry.terms.now x)
        (term_of source.entry.terms.now y))) }
{
    match source.terms.node(y) {
        TermNode::Field(k, u) => {
            if h != k {
                return Ok(());
            }
            let literals = premises(alloc, FactNode::There(x), t, u)?;
            push_with(alloc, literals.as_slice(), same(x, y), clauses)
        }
        _ => Ok(()),
    }
}

// Six beside the allocator: what is read, two terms and their lists, and the clauses.
/// Puts the two clauses that a variable is there at terms and names one element, where it is there
/// at others that are the same, at the end.
fn push_two_variables(
    alloc: Global,
    source: Source<'_>,
    x: u32,
    ts: u32,
    y: u32,
    us: u32,
    clauses: &mut Vec<Vec<FactLiteral>>,
) -> Result<(), AllocError>
    requires left { IsList source.terms.now ts }
    requires right { IsList source.terms.now us }
    ensures { OnOk result (AreAdded source.entry.arena.now source.entry.terms.now
        (map (λ c. c.items) clauses.old.items) (map (λ c. c.items) clauses.new.items)
        (implied (there (term_of source.entry.terms.now x) ∷ all_same (list_of
        source.entry.terms.now ts) (list_of source.entry.terms.now us)) (so (there (term_of
        source.entry.terms.now y))) ∷ implied (there (term_of source.entry.terms.now x)
        ∷ all_same (list_of source.entry.terms.now ts) (list_of source.entry.terms.now us))
        (so (same (term (term_of source.entry.terms.now x)) (term (term_of
        source.entry.terms.now y)))) ∷ [])) }
{
    let mut literals = vec![in alloc; not_so(FactNode::There(x))]?;
    push_all_apart(source, ts, us, &mut literals)?;
    push_with(alloc, literals.as_slice(), FactNode::There(y), clauses)?;
    push_with(alloc, literals.as_slice(), same(x, y), clauses)?;
    Ok(())
}

/// Puts the clauses that a variable is there at terms and names one element, where it is there at
/// others that are the same, at the end.
fn push_element_variable(
    alloc: Global,
    source: Source<'_>,
    x: u32,
    variable: (u32, u32, u32),
    y: u32,
    clauses: &mut Vec<Vec<FactLiteral>>,
) -> Result<(), AllocError>
    requires list { IsList source.terms.now variable.2 }
    requires one { IsOne source.terms.now y }
    requires is { term_of source.terms.now x ≡ skolem variable.0 variable.1
        (list_of source.terms.now variable.2) }
    ensures { OnOk result (AreAdded source.entry.arena.now source.entry.terms.now
        (map (λ c. c.items) clauses.old.items) (map (λ c. c.items) clauses.new.items)
        (element_clauses source.entry.signature.now (term_of source.entry.terms.now x)
        (term_of source.entry.terms.now y))) }
{
    match source.terms.node(y) {
        TermNode::Skolem(number, sort, us) => {
            if variable.0 != number {
                return Ok(());
            }
            if variable.1 != sort {
                return Ok(());
            }
            push_two_variables(alloc, source, x, variable.2, y, us, clauses)
        }
        _ => Ok(()),
    }
}

/// Puts the clauses that two terms name one element, where they are one function or one variable at
/// terms that are the same, at the end.
pub(crate) fn push_element(
    alloc: Global,
    source: Source<'_>,
    x: u32,
    y: u32,
    clauses: &mut Vec<Vec<FactLiteral>>,
) -> Result<(), AllocError>
    requires first { IsOne source.terms.now x }
    requires second { IsOne source.terms.now y }
    ensures { OnOk result (AreAdded source.entry.arena.now source.entry.terms.now
        (map (λ c. c.items) clauses.old.items) (map (λ c. c.items) clauses.new.items)
        (element_clauses source.entry.signature.now (term_of source.entry.terms.now x)
        (term_of source.entry.terms.now y))) }
{
    match source.terms.node(x) {
        TermNode::Field(h, t) => push_element_field(alloc, source, x, h, t, y, clauses),
        TermNode::Skolem(number, sort, ts) => {
            push_element_variable(alloc, source, x, (number, sort, ts), y, clauses)
        }
        _ => Ok(()),
    }
}

/// Puts the clause that two values of a function that gives this are the same, where its arguments
/// are, at the end.
fn push_values(
    alloc: Global,
    to: Range,
    x: u32,
    y: u32,
    premises: &[FactLiteral],
    clauses: &mut Vec<Vec<FactLiteral>>,
) -> Result<(), AllocError>
    ensures { OnOk result (map (λ c. c.items) clauses.new.items ≡ map (λ c. c.items)
        clauses.old.items ++ value_literals to x y premises.now) }
{
    match to {
        Range::Rec(_) => Ok(()),
        Range::Flag => {
            let mut literals = vec![in alloc; not_so(FactNode::Raised(x))]?;
            literals.extend_from_slice(premises)?;
            push_with(alloc, literals.as_slice(), FactNode::Raised(y), clauses)
        }
        Range::Num | Range::Str => push_with(alloc, premises, same(x, y), clauses),
    }
}

// Six beside the allocator: what is read, a term and its two parts, the other one, and the clauses.
/// Puts the clause that a function has one value at terms that are the same at the end.
fn push_value_field(
    alloc: Global,
    source: Source<'_>,
    x: u32,
    h: u32,
    t: u32,
    y: u32,
    clauses: &mut Vec<Vec<FactLiteral>>,
) -> Result<(), AllocError>
    requires one { IsOne source.terms.now y }
    requires is { term_of source.terms.now x ≡ field h (term_of source.terms.now t) }
    ensures { OnOk result (AreAdded source.entry.arena.now source.entry.terms.now
        (map (λ c. c.items) clauses.old.items) (map (λ c. c.items) clauses.new.items)
        (value_clauses source.entry.signature.now (term_of source.entry.terms.now x)
        (term_of source.entry.terms.now y))) }
{
    match source.terms.node(y) {
        TermNode::Field(k, u) => {
            if h != k {
                return Ok(());
            }
            let Some(sig) = source.signature.funs.get(h as usize) else {
                return Ok(());
            };
            let literals = premises(alloc, FactNode::There(x), t, u)?;
            push_values(alloc, sig.to, x, y, literals.as_slice(), clauses)
        }
        _ => Ok(()),
    }
}

/// Puts that clause, if a term is a function at one, at the end.
pub(crate) fn push_value(
    alloc: Global,
    source: Source<'_>,
    x: u32,
    y: u32,
    clauses: &mut Vec<Vec<FactLiteral>>,
) -> Result<(), AllocError>
    requires first { IsOne source.terms.now x }
    requires second { IsOne source.terms.now y }
    ensures { OnOk result (AreAdded source.entry.arena.now source.entry.terms.now
        (map (λ c. c.items) clauses.old.items) (map (λ c. c.items) clauses.new.items)
        (value_clauses source.entry.signature.now (term_of source.entry.terms.now x)
        (term_of source.entry.terms.now y))) }
{
    match source.terms.node(x) {
        TermNode::Field(h, t) => push_value_field(alloc, source, x, h, t, y, clauses),
        _ => Ok(()),
    }
}

/// Puts the clause that a set relation holds of terms that are the same as others of which it holds
/// at the end.
pub(crate) fn push_relation(
    alloc: Global,
    source: Source<'_>,
    p: PairNode,
    q: PairNode,
    clauses: &mut Vec<Vec<FactLiteral>>,
) -> Result<(), AllocError>
    ensures { OnOk result (AreAdded source.entry.arena.now source.entry.terms.now
        (map (λ c. c.items) clauses.old.items) (map (λ c. c.items) clauses.new.items)
        (relation_clauses source.entry.signature.now (pair_at source.entry.terms.now p)
        (pair_at source.entry.terms.now q))) }
{
    if p.relation != q.relation {
        return Ok(());
    }
    let mut literals = premises(alloc, FactNode::Related(p), p.holder, q.holder)?;
    push_apart(p.member, q.member, &mut literals)?;
    push_with(alloc, literals.as_slice(), FactNode::Related(q), clauses)
}
