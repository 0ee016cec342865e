//! All clauses of a table but those of congruence.

ghost use Rattle.std.specs.Prelude.{◌≡◌, ◌++◌, map, IfOk, OnOk};
ghost use Rattle.std.specs.List.{flat_map};
ghost use Rattle.ground_terms.specs.Standing.{AreOnes, terms_at};
ghost use Rattle.form_tables.specs.Clauses.{base_clauses, function_clauses, pair_clauses};
ghost use Rattle.form_tables.specs.Clauses.{sort_clauses, term_clauses};
ghost use Rattle.ground_problem.specs.Words.{IsWords, pair_at, vocabulary_at};
ghost use Rattle.ground_problem.specs.Facts.{AreAdded, clauses_at};

use crate::facts::FactLiteral;
use crate::terms::{Source, push_function, push_pair, push_sort, push_term};
use crate::{PairNode, Words};
use form_formula::{Arena, Signature};
use ground_terms::TermArena;
use std::alloc::{AllocError, Global};

/// Puts the clauses on when some terms are there at the end.
fn push_terms(
    alloc: Global,
    source: Source<'_>,
    ids: &[u32],
    clauses: &mut Vec<Vec<FactLiteral>>,
) -> Result<(), AllocError>
    requires { AreOnes source.terms.now ids.now }
    ensures { OnOk result (AreAdded source.entry.arena.now source.entry.terms.now
        (map (λ c. c.items) clauses.old.items) (map (λ c. c.items) clauses.new.items)
        (flat_map (term_clauses source.entry.signature.now)
        (terms_at source.entry.terms.now ids.now))) }
{
    for id in ids {
        push_term(alloc, source, *id, clauses)?;
    }
    Ok(())
}

/// Puts the clauses that some terms make their sorts not empty at the end.
fn push_sorts(
    alloc: Global,
    source: Source<'_>,
    ids: &[u32],
    clauses: &mut Vec<Vec<FactLiteral>>,
) -> Result<(), AllocError>
    requires { AreOnes source.terms.now ids.now }
    ensures { OnOk result (AreAdded source.entry.arena.now source.entry.terms.now
        (map (λ c. c.items) clauses.old.items) (map (λ c. c.items) clauses.new.items)
        (flat_map (sort_clauses source.entry.signature.now)
        (terms_at source.entry.terms.now ids.now))) }
{
    for id in ids {
        push_sort(alloc, source, *id, clauses)?;
    }
    Ok(())
}

/// Puts the clauses of some set relations at two terms at the end.
fn push_pairs(
    alloc: Global,
    source: Source<'_>,
    pairs: &[PairNode],
    clauses: &mut Vec<Vec<FactLiteral>>,
) -> Result<(), AllocError>
    ensures { OnOk result (AreAdded source.entry.arena.now source.entry.terms.now
        (map (λ c. c.items) clauses.old.items) (map (λ c. c.items) clauses.new.items)
        (flat_map (pair_clauses source.entry.signature.now)
        (map (pair_at source.entry.terms.now) pairs.now))) }
{
    for pair in pairs {
        push_pair(alloc, source, *pair, clauses)?;
    }
    Ok(())
}

/// Puts the clauses of all functions at the end.
fn push_functions(
    alloc: Global,
    source: Source<'_>,
    clauses: &mut Vec<Vec<FactLiteral>>,
) -> Result<(), AllocError>
    ensures { OnOk result (AreAdded source.entry.arena.now source.entry.terms.now
        (map (λ c. c.items) clauses.old.items) (map (λ c. c.items) clauses.new.items)
        (flat_map (function_clauses source.entry.signature.now)
        source.entry.signature.now.funs)) }
{
    let sigs = source.signature.funs.as_slice();
    for sig in sigs {
        push_function(alloc, source, *sig, clauses)?;
    }
    Ok(())
}

/// All terms of which words tell.
pub(crate) fn told_of(alloc: Global, words: &Words) -> Result<Vec<u32>, AllocError>
    ensures { IfOk result (λ told. told.items ≡ words.now.named.items ++ words.now.others.items) }
{
    let mut told = Vec::from_slice(alloc, words.named.as_slice())?;
    told.extend_from_slice(words.others.as_slice())?;
    Ok(told)
}

/// The clauses of a table but those of congruence: on when terms are there, which sorts are not
/// empty, and of what set relations hold. They go with the terms, the pairs and the functions.
pub fn base_clauses(
    alloc: Global,
    arena: &Arena,
    signature: &Signature,
    terms: &TermArena,
    words: &Words,
) -> Result<Vec<Vec<FactLiteral>>, AllocError>
    requires { IsWords terms.now words.now }
    ensures { IfOk result (λ clauses. clauses_at arena.now terms.now
        (map (λ c. c.items) clauses.items)
        ≡ base_clauses signature.now (vocabulary_at terms.now words.now)) }
{
    let source = Source {
        arena,
        signature,
        terms,
    };
    let told = told_of(alloc, words)?;
    let mut clauses = Vec::new(alloc);
    push_terms(alloc, source, told.as_slice(), &mut clauses)?;
    push_sorts(alloc, source, told.as_slice(), &mut clauses)?;
    push_pairs(alloc, source, words.pairs.as_slice(), &mut clauses)?;
    push_functions(alloc, source, &mut clauses)?;
    Ok(clauses)
}
