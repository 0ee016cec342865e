//! The clauses of congruence of few words that what was found breaks.

ghost use Rattle.std.specs.Prelude.{◌<◌, ◌∷◌, ◌++◌, [], OnOk, length, map};
ghost use Rattle.ground_problem.specs.Words.{IsWords};
ghost use Rattle.decide_reading.specs.Congruent.{AreCongruences};
ghost use Rattle.decide_reading.specs.Few.{AreBrokenOnes, IsPart};
ghost use Rattle.decide_reading.specs.Settled.{AreRivals, IsRivals};

use crate::broken_terms::Rivals;
use crate::keys::Source;
use crate::told::is_broken;
use decide_models::Found;
use form_formula::{Arena, Signature};
use ground_problem::{FactLiteral, Words, congruence_clauses};
use ground_terms::TermArena;
use std::alloc::{AllocError, Global};

/// What clauses are made of, and what was found.
#[derive(Clone, Copy)]
pub(crate) struct Speech<'a> {
    pub(crate) arena: &'a Arena,
    pub(crate) signature: &'a Signature,
    pub(crate) terms: &'a TermArena,
    pub(crate) words: &'a Words,
    pub(crate) found: &'a Found,
}

/// Adds the term at a place, where those that name elements come first.
fn add_term(words: &Words, place: usize, few: &mut Words) -> Result<(), AllocError>
    requires { place < length (words.now.named.items ++ words.now.others.items) }
    ensures { OnOk result (IsPart words.now few.old → IsPart words.now few.new) }
{
    if place < words.named.len() {
        few.named.push(words.named[place])?;
    } else {
        few.others.push(words.others[place - words.named.len()])?;
    }
    Ok(())
}

/// Adds the pair at a place.
fn add_pair(words: &Words, place: usize, few: &mut Words) -> Result<(), AllocError>
    requires { place < length words.now.pairs.items }
    ensures { OnOk result (IsPart words.now few.old → IsPart words.now few.new) }
{
    few.pairs.push(words.pairs[place])?;
    Ok(())
}

/// No words.
fn no_words(alloc: Global) -> Words
    ensures { (words : Words) → IsPart words result }
{
    Words {
        named: Vec::new(alloc),
        others: Vec::new(alloc),
        pairs: Vec::new(alloc),
    }
}

/// Puts a clause at the end, if what was found breaks it.
fn push_broken(
    alloc: Global,
    speech: Speech<'_>,
    rivals: Rivals,
    clause: &[FactLiteral],
    clauses: &mut Vec<Vec<FactLiteral>>,
) -> Result<(), AllocError>
    requires { AreCongruences speech.signature.now speech.arena.now speech.terms.now
        speech.words.now (clause.now ∷ []) }
    ensures { OnOk result (AreBrokenOnes speech.entry.signature.now speech.entry.arena.now
        speech.entry.terms.now speech.entry.words.now speech.entry.found.now (map (λ c. c.items)
        clauses.old.items) → AreBrokenOnes speech.entry.signature.now speech.entry.arena.now
        speech.entry.terms.now speech.entry.words.now speech.entry.found.now (map (λ c. c.items)
        clauses.new.items)) }
{
    let Speech {
        arena: _,
        signature: _,
        terms,
        words,
        found,
    } = speech;
    let source = Source { terms, found };
    if !is_broken(source, words.pairs.as_slice(), rivals, clause) {
        return Ok(());
    }
    let own = Vec::from_slice(alloc, clause)?;
    clauses.push(own)?;
    Ok(())
}

/// Puts the clauses of few words that what was found breaks at the end, where these are two rivals.
fn push_few(
    alloc: Global,
    speech: Speech<'_>,
    rivals: Rivals,
    few: &Words,
    clauses: &mut Vec<Vec<FactLiteral>>,
) -> Result<(), AllocError>
    requires words { IsWords speech.terms.now speech.words.now }
    requires part { IsPart speech.words.now few.now }
    ensures { OnOk result (AreBrokenOnes speech.entry.signature.now speech.entry.arena.now
        speech.entry.terms.now speech.entry.words.now speech.entry.found.now (map (λ c. c.items)
        clauses.old.items) → AreBrokenOnes speech.entry.signature.now speech.entry.arena.now
        speech.entry.terms.now speech.entry.words.now speech.entry.found.now (map (λ c. c.items)
        clauses.new.items)) }
{
    let Speech {
        arena,
        signature,
        terms,
        words: _,
        found: _,
    } = speech;
    let more = congruence_clauses(alloc, arena, signature, terms, few)?;
    for clause in more.as_slice() {
        push_broken(alloc, speech, rivals, clause.as_slice(), clauses)?;
    }
    Ok(())
}

/// Puts the broken clauses of two terms at the end.
fn push_terms(
    alloc: Global,
    speech: Speech<'_>,
    rivals: Rivals,
    clauses: &mut Vec<Vec<FactLiteral>>,
) -> Result<(), AllocError>
    requires words { IsWords speech.terms.now speech.words.now }
    requires within { IsRivals (length (speech.words.now.named.items ++ speech.words.now.others.items)) rivals }
    ensures { OnOk result (AreBrokenOnes speech.entry.signature.now speech.entry.arena.now
        speech.entry.terms.now speech.entry.words.now speech.entry.found.now (map (λ c. c.items)
        clauses.old.items) → AreBrokenOnes speech.entry.signature.now speech.entry.arena.now
        speech.entry.terms.now speech.entry.words.now speech.entry.found.now (map (λ c. c.items)
        clauses.new.items)) }
{
    let mut few = no_words(alloc);
    add_term(speech.words, rivals.first, &mut few)?;
    add_term(speech.words, rivals.one, &mut few)?;
    push_few(alloc, speech, rivals, &few, clauses)
}

/// Puts the broken clauses of two pairs at the end.
fn push_pairs(
    alloc: Global,
    speech: Speech<'_>,
    rivals: Rivals,
    clauses: &mut Vec<Vec<FactLiteral>>,
) -> Result<(), AllocError>
    requires words { IsWords speech.terms.now speech.words.now }
    requires within { IsRivals (length speech.words.now.pairs.items) rivals }
    ensures { OnOk result (AreBrokenOnes speech.entry.signature.now speech.entry.arena.now
        speech.entry.terms.now speech.entry.words.now speech.entry.found.now (map (λ c. c.items)
        clauses.old.items) → AreBrokenOnes speech.entry.signature.now speech.entry.arena.now
        speech.entry.terms.now speech.entry.words.now speech.entry.found.now (map (λ c. c.items)
        clauses.new.items)) }
{
    let mut few = no_words(alloc);
    add_pair(speech.words, rivals.first, &mut few)?;
    add_pair(speech.words, rivals.one, &mut few)?;
    push_few(alloc, speech, rivals, &few, clauses)
}

/// Puts the broken clauses of each two terms at the end.
pub(crate) fn push_each_terms(
    alloc: Global,
    speech: Speech<'_>,
    rivals: &[Rivals],
    clauses: &mut Vec<Vec<FactLiteral>>,
) -> Result<(), AllocError>
    requires words { IsWords speech.terms.now speech.words.now }
    requires within { AreRivals (length (speech.words.now.named.items ++ speech.words.now.others.items)) rivals.now }
    ensures { OnOk result (AreBrokenOnes speech.entry.signature.now speech.entry.arena.now
        speech.entry.terms.now speech.entry.words.now speech.entry.found.now (map (λ c. c.items)
        clauses.old.items) → AreBrokenOnes speech.entry.signature.now speech.entry.arena.now
        speech.entry.terms.now speech.entry.words.now speech.entry.found.now (map (λ c. c.items)
        clauses.new.items)) }
{
    for two in rivals {
        push_terms(alloc, speech, *two, clauses)?;
    }
    Ok(())
}

/// Puts the broken clauses of each two pairs at the end.
pub(crate) fn push_each_pairs(
    alloc: Global,
    speech: Speech<'_>,
    rivals: &[Rivals],
    clauses: &mut Vec<Vec<FactLiteral>>,
) -> Result<(), AllocError>
    requires words { IsWords speech.terms.now speech.words.now }
    requires within { AreRivals (length speech.words.now.pairs.items) rivals.now }
    ensures { OnOk result (AreBrokenOnes speech.entry.signature.now speech.entry.arena.now
        speech.entry.terms.now speech.entry.words.now speech.entry.found.now (map (λ c. c.items)
        clauses.old.items) → AreBrokenOnes speech.entry.signature.now speech.entry.arena.now
        speech.entry.terms.now speech.entry.words.now speech.entry.found.now (map (λ c. c.items)
        clauses.new.items)) }
{
    for two in rivals {
        push_pairs(alloc, speech, *two, clauses)?;
    }
    Ok(())
}
