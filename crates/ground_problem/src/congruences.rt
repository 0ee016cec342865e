//! All clauses of congruence.

ghost use Rattle.std.specs.Prelude.{◌≡◌, map, IfOk, OnOk};
ghost use Rattle.std.specs.List.{flat_map};
ghost use Rattle.ground_terms.specs.Standing.{AreOnes, terms_at};
ghost use Rattle.form_tables.specs.Clauses.{alike_clauses, congruence_clauses, element_clauses};
ghost use Rattle.form_tables.specs.Clauses.{for_pairs, relation_clauses, value_clauses};
ghost use Rattle.ground_terms.specs.Nodes.{IsOne, term_of};
ghost use Rattle.ground_problem.specs.Words.{IsWords, pair_at, vocabulary_at};
ghost use Rattle.ground_problem.specs.Facts.{AreAdded, clauses_at};

use crate::base::told_of;
use crate::congruence::{push_alike, push_element, push_relation, push_value};
use crate::facts::FactLiteral;
use crate::terms::Source;
use crate::{PairNode, Words};
use form_formula::{Arena, Signature};
use ground_terms::TermArena;
use std::alloc::{AllocError, Global};

/// Puts the clauses that a function is there at a term and at each of some others at the end.
fn push_alikes_of(
    alloc: Global,
    source: Source<'_>,
    x: u32,
    ids: &[u32],
    clauses: &mut Vec<Vec<FactLiteral>>,
) -> Result<(), AllocError>
    requires one { IsOne source.terms.now x }
    requires ones { AreOnes source.terms.now ids.now }
    ensures { OnOk result (AreAdded source.entry.arena.now source.entry.terms.now
        (map (λ c. c.items) clauses.old.items) (map (λ c. c.items) clauses.new.items)
        (flat_map (alike_clauses source.entry.signature.now (term_of source.entry.terms.now x))
        (terms_at source.entry.terms.now ids.now))) }
{
    for y in ids {
        push_alike(alloc, source, x, *y, clauses)?;
    }
    Ok(())
}

/// Puts those clauses of each two of some terms at the end.
fn push_alikes(
    alloc: Global,
    source: Source<'_>,
    ids: &[u32],
    clauses: &mut Vec<Vec<FactLiteral>>,
) -> Result<(), AllocError>
    requires { AreOnes source.terms.now ids.now }
    ensures { OnOk result (AreAdded source.entry.arena.now source.entry.terms.now
        (map (λ c. c.items) clauses.old.items) (map (λ c. c.items) clauses.new.items)
        (for_pairs source.entry.signature.now (alike_clauses source.entry.signature.now)
        (terms_at source.entry.terms.now ids.now))) }
{
    for x in ids {
        push_alikes_of(alloc, source, *x, ids, clauses)?;
    }
    Ok(())
}

/// Puts the clauses that a term and each of some others name one element at the end.
fn push_elements_of(
    alloc: Global,
    source: Source<'_>,
    x: u32,
    ids: &[u32],
    clauses: &mut Vec<Vec<FactLiteral>>,
) -> Result<(), AllocError>
    requires one { IsOne source.terms.now x }
    requires ones { AreOnes source.terms.now ids.now }
    ensures { OnOk result (AreAdded source.entry.arena.now source.entry.terms.now
        (map (λ c. c.items) clauses.old.items) (map (λ c. c.items) clauses.new.items)
        (flat_map (element_clauses source.entry.signature.now (term_of source.entry.terms.now x))
        (terms_at source.entry.terms.now ids.now))) }
{
    for y in ids {
        push_element(alloc, source, x, *y, clauses)?;
    }
    Ok(())
}

/// Puts those clauses of each two of some terms at the end.
fn push_elements(
    alloc: Global,
    source: Source<'_>,
    ids: &[u32],
    clauses: &mut Vec<Vec<FactLiteral>>,
) -> Result<(), AllocError>
    requires { AreOnes source.terms.now ids.now }
    ensures { OnOk result (AreAdded source.entry.arena.now source.entry.terms.now
        (map (λ c. c.items) clauses.old.items) (map (λ c. c.items) clauses.new.items)
        (for_pairs source.entry.signature.now (element_clauses source.entry.signature.now)
        (terms_at source.entry.terms.now ids.now))) }
{
    for x in ids {
        push_elements_of(alloc, source, *x, ids, clauses)?;
    }
    Ok(())
}

/// Puts the clauses that a term and each of some others have one value at the end.
fn push_values_of(
    alloc: Global,
    source: Source<'_>,
    x: u32,
    ids: &[u32],
    clauses: &mut Vec<Vec<FactLiteral>>,
) -> Result<(), AllocError>
    requires one { IsOne source.terms.now x }
    requires ones { AreOnes source.terms.now ids.now }
    ensures { OnOk result (AreAdded source.entry.arena.now source.entry.terms.now
        (map (λ c. c.items) clauses.old.items) (map (λ c. c.items) clauses.new.items)
        (flat_map (value_clauses source.entry.signature.now (term_of source.entry.terms.now x))
        (terms_at source.entry.terms.now ids.now))) }
{
    for y in ids {
        push_value(alloc, source, x, *y, clauses)?;
    }
    Ok(())
}

/// Puts those clauses of each two of some terms at the end.
fn push_values(
    alloc: Global,
    source: Source<'_>,
    ids: &[u32],
    clauses: &mut Vec<Vec<FactLiteral>>,
) -> Result<(), AllocError>
    requires { AreOnes source.terms.now ids.now }
    ensures { OnOk result (AreAdded source.entry.arena.now source.entry.terms.now
        (map (λ c. c.items) clauses.old.items) (map (λ c. c.items) clauses.new.items)
        (for_pairs source.entry.signature.now (value_clauses source.entry.signature.now)
        (terms_at source.entry.terms.now ids.now))) }
{
    for x in ids {
        push_values_of(alloc, source, *x, ids, clauses)?;
    }
    Ok(())
}

/// Puts the clauses that a set relation holds of two terms where it holds of others that are the
/// same at the end.
fn push_relations_of(
    alloc: Global,
    source: Source<'_>,
    p: PairNode,
    pairs: &[PairNode],
    clauses: &mut Vec<Vec<FactLiteral>>,
) -> Result<(), AllocError>
    ensures { OnOk result (AreAdded source.entry.arena.now source.entry.terms.now
        (map (λ c. c.items) clauses.old.items) (map (λ c. c.items) clauses.new.items)
        (flat_map (relation_clauses source.entry.signature.now
        (pair_at source.entry.terms.now p)) (map (pair_at source.entry.terms.now) pairs.now))) }
{
    for q in pairs {
        push_relation(alloc, source, p, *q, clauses)?;
    }
    Ok(())
}

/// Puts those clauses of each two of some pairs at the end.
fn push_relations(
    alloc: Global,
    source: Source<'_>,
    pairs: &[PairNode],
    clauses: &mut Vec<Vec<FactLiteral>>,
) -> Result<(), AllocError>
    ensures { OnOk result (AreAdded source.entry.arena.now source.entry.terms.now
        (map (λ c. c.items) clauses.old.items) (map (λ c. c.items) clauses.new.items)
        (for_pairs source.entry.signature.now (relation_clauses source.entry.signature.now)
        (map (pair_at source.entry.terms.now) pairs.now))) }
{
    for p in pairs {
        push_relations_of(alloc, source, *p, pairs, clauses)?;
    }
    Ok(())
}

/// All clauses of congruence of a table, written out. They go with the square of the terms of one
/// function or variable, and of the pairs of one set relation.
pub fn congruence_clauses(
    alloc: Global,
    arena: &Arena,
    signature: &Signature,
    terms: &TermArena,
    words: &Words,
) -> Result<Vec<Vec<FactLiteral>>, AllocError>
    requires { IsWords terms.now words.now }
    ensures { IfOk result (λ clauses. clauses_at arena.now terms.now
        (map (λ c. c.items) clauses.items)
        ≡ congruence_clauses signature.now (vocabulary_at terms.now words.now)) }
{
    let source = Source {
        arena,
        signature,
        terms,
    };
    let told = told_of(alloc, words)?;
    let mut clauses = Vec::new(alloc);
    push_alikes(alloc, source, told.as_slice(), &mut clauses)?;
    push_elements(alloc, source, words.named.as_slice(), &mut clauses)?;
    push_values(alloc, source, words.others.as_slice(), &mut clauses)?;
    push_relations(alloc, source, words.pairs.as_slice(), &mut clauses)?;
    Ok(clauses)
}
