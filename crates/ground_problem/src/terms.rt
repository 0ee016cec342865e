//! The clauses of a table on one term.

ghost use Rattle.std.specs.Prelude.{◌≡◌, ◌∷◌, [], map, OnOk, slice_get};
ghost use Rattle.ground_terms.specs.Nodes.{IsList, IsOne, list_of as list_at, term_of};
ghost use Rattle.form_tables.specs.Clauses.{function_clauses, pair_clauses, sort_clauses};
ghost use Rattle.form_tables.specs.Clauses.{term_clauses, total_clauses};
ghost use Rattle.form_tables.specs.Facts.{implied, so, there};
ghost use Rattle.form_terms.specs.GroundTerms.{field, list_of};
ghost use Rattle.ground_problem.specs.Words.{pair_at};
ghost use Rattle.ground_problem.specs.Facts.{AreAdded};

use crate::PairNode;
use crate::facts::{FactLiteral, FactNode, not_so, push_clause, push_implied, so};
use form_formula::{Arena, FunSig, Range, Signature};
use ground_terms::{TermArena, TermNode, sort_of};
use std::alloc::{AllocError, Global};

/// What the terms of clauses stand for.
#[derive(Clone, Copy)]
pub(crate) struct Source<'a> {
    pub(crate) arena: &'a Arena,
    pub(crate) signature: &'a Signature,
    pub(crate) terms: &'a TermArena,
}

/// Puts the clause that a term is there only where another is at the end.
fn push_argument(
    alloc: Global,
    source: Source<'_>,
    id: u32,
    t: u32,
    clauses: &mut Vec<Vec<FactLiteral>>,
) -> Result<(), AllocError>
    ensures { OnOk result (AreAdded source.entry.arena.now source.entry.terms.now
        (map (λ c. c.items) clauses.old.items) (map (λ c. c.items) clauses.new.items)
        (implied (there (term_of source.entry.terms.now id) ∷ [])
        (so (there (term_of source.entry.terms.now t))) ∷ [])) }
{
    push_implied(alloc, FactNode::There(id), so(FactNode::There(t)), clauses)
}

/// Puts the clauses that a variable is there only where the terms of a list are at the end.
fn push_arguments(
    alloc: Global,
    source: Source<'_>,
    id: u32,
    list: u32,
    clauses: &mut Vec<Vec<FactLiteral>>,
) -> Result<(), AllocError>
    requires { IsList source.terms.now list }
    ensures { OnOk result (AreAdded source.entry.arena.now source.entry.terms.now
        (map (λ c. c.items) clauses.old.items) (map (λ c. c.items) clauses.new.items)
        (map (λ t. implied (there (term_of source.entry.terms.now id) ∷ []) (so (there t)))
        (list_of (list_at source.entry.terms.now list)))) }
{
    let mut at = list;
    'down: loop {
        match source.terms.node(at) {
            TermNode::Cons(t, ts) => {
                push_argument(alloc, source, id, t, clauses)?;
                at = ts;
            }
            _ => return Ok(()),
        }
    }
}

/// Puts the clause that a total function is there where its argument is at the end.
fn push_total(
    alloc: Global,
    source: Source<'_>,
    id: u32,
    h: u32,
    t: u32,
    clauses: &mut Vec<Vec<FactLiteral>>,
) -> Result<(), AllocError>
    requires { term_of source.terms.now id ≡ field h (term_of source.terms.now t) }
    ensures { OnOk result (AreAdded source.entry.arena.now source.entry.terms.now
        (map (λ c. c.items) clauses.old.items) (map (λ c. c.items) clauses.new.items)
        (total_clauses source.entry.signature.now (slice_get source.entry.signature.now.funs h) h
        (term_of source.entry.terms.now t))) }
{
    match source.signature.funs.get(h as usize) {
        None => Ok(()),
        Some(sig) => {
            if sig.partial {
                return Ok(());
            }
            push_implied(alloc, FactNode::There(t), so(FactNode::There(id)), clauses)
        }
    }
}

/// Puts the clauses on when a term is there at the end.
pub(crate) fn push_term(
    alloc: Global,
    source: Source<'_>,
    id: u32,
    clauses: &mut Vec<Vec<FactLiteral>>,
) -> Result<(), AllocError>
    requires { IsOne source.terms.now id }
    ensures { OnOk result (AreAdded source.entry.arena.now source.entry.terms.now
        (map (λ c. c.items) clauses.old.items) (map (λ c. c.items) clauses.new.items)
        (term_clauses source.entry.signature.now (term_of source.entry.terms.now id))) }
{
    let whole = FactNode::There(id);
    match source.terms.node(id) {
        TermNode::Constant(sort) => {
            push_clause(alloc, &[so(whole), so(FactNode::Empty(sort))], clauses)
        }
        TermNode::Skolem(_, _, list) => push_arguments(alloc, source, id, list, clauses),
        TermNode::Field(h, t) => {
            push_implied(alloc, whole, so(FactNode::There(t)), clauses)?;
            push_total(alloc, source, id, h, t, clauses)
        }
        TermNode::Empty | TermNode::Cons(..) => Ok(()),
    }
}

/// Puts the clause that a term makes its sort not empty at the end.
pub(crate) fn push_sort(
    alloc: Global,
    source: Source<'_>,
    id: u32,
    clauses: &mut Vec<Vec<FactLiteral>>,
) -> Result<(), AllocError>
    requires { IsOne source.terms.now id }
    ensures { OnOk result (AreAdded source.entry.arena.now source.entry.terms.now
        (map (λ c. c.items) clauses.old.items) (map (λ c. c.items) clauses.new.items)
        (sort_clauses source.entry.signature.now (term_of source.entry.terms.now id))) }
{
    match sort_of(source.signature, source.terms, id) {
        None => Ok(()),
        Some(sort) => push_implied(
            alloc,
            FactNode::There(id),
            not_so(FactNode::Empty(sort)),
            clauses,
        ),
    }
}

/// Puts the clauses that a set relation holds only of terms that are there at the end.
pub(crate) fn push_pair(
    alloc: Global,
    source: Source<'_>,
    pair: PairNode,
    clauses: &mut Vec<Vec<FactLiteral>>,
) -> Result<(), AllocError>
    ensures { OnOk result (AreAdded source.entry.arena.now source.entry.terms.now
        (map (λ c. c.items) clauses.old.items) (map (λ c. c.items) clauses.new.items)
        (pair_clauses source.entry.signature.now (pair_at source.entry.terms.now pair))) }
{
    let whole = FactNode::Related(pair);
    push_implied(alloc, whole, so(FactNode::There(pair.holder)), clauses)?;
    push_implied(alloc, whole, so(FactNode::There(pair.member)), clauses)
}

/// Puts the clause that an element of a total function's source makes its target not empty at the
/// end.
pub(crate) fn push_function(
    alloc: Global,
    source: Source<'_>,
    sig: FunSig,
    clauses: &mut Vec<Vec<FactLiteral>>,
) -> Result<(), AllocError>
    ensures { OnOk result (AreAdded source.entry.arena.now source.entry.terms.now
        (map (λ c. c.items) clauses.old.items) (map (λ c. c.items) clauses.new.items)
        (function_clauses source.entry.signature.now sig)) }
{
    if sig.partial {
        return Ok(());
    }
    match sig.to {
        Range::Rec(sort) => push_implied(
            alloc,
            FactNode::Empty(sort),
            so(FactNode::Empty(sig.from)),
            clauses,
        ),
        Range::Flag | Range::Num | Range::Str => Ok(()),
    }
}
