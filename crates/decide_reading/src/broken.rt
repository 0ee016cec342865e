//! The clauses of congruence that what was found breaks.

ghost use Rattle.std.specs.Prelude.{◌≡◌, ◌≢◌, ◌++◌, [], All, None, IfOk, IfSome, length, map, true};
ghost use Rattle.form_formula.specs.declared.structure.Signature.{Signature as AnySignature};
ghost use Rattle.form_tables.specs.Table.{Table};
ghost use Rattle.decide_models.specs.Found.{IsFound};
ghost use Rattle.ground_problem.specs.Words.{IsWords, vocabulary_at};
ghost use Rattle.decide_reading.specs.Broken.{IsBroken};
ghost use Rattle.decide_reading.specs.Congruent.{AreCongruences, IsCongruent};
ghost use Rattle.decide_reading.specs.Few.{AreBrokenOnes};
ghost use Rattle.decide_reading.specs.Settled.{AreRivals};

use crate::broken_pairs::pair_rivals_among;
use crate::broken_terms::{Rivals, rivals_among};
use crate::few::{Speech, push_each_pairs, push_each_terms};
use crate::keys::Source;
use decide_models::Found;
use form_formula::{Arena, Signature};
use ground_problem::{FactLiteral, Words};
use ground_terms::TermArena;
use std::alloc::{AllocError, Global};

/// All terms of which words tell.
fn told_of(alloc: Global, words: &Words) -> Result<Vec<u32>, AllocError>
    ensures { IfOk result (λ told. told.items ≡ words.now.named.items ++ words.now.others.items) }
{
    let mut told = Vec::from_slice(alloc, words.named.as_slice())?;
    told.extend_from_slice(words.others.as_slice())?;
    Ok(told)
}

/// Whether there are no rivals.
fn are_none(terms: &[Rivals], pairs: &[Rivals]) -> bool
    ensures terms { result ≡ true → terms.now ≡ [] }
    ensures pairs { result ≡ true → pairs.now ≡ [] }
{
    terms.is_empty() && pairs.is_empty()
}

/// The broken clauses of some terms and pairs.
fn clauses_on(
    alloc: Global,
    speech: Speech<'_>,
    terms: &[Rivals],
    pairs: &[Rivals],
) -> Result<Vec<Vec<FactLiteral>>, AllocError>
    requires words { IsWords speech.terms.now speech.words.now }
    requires terms { AreRivals (length (speech.words.now.named.items ++
        speech.words.now.others.items)) terms.now }
    requires pairs { AreRivals (length speech.words.now.pairs.items) pairs.now }
    ensures { IfOk result (λ clauses. AreBrokenOnes speech.entry.signature.now
        speech.entry.arena.now speech.entry.terms.now speech.entry.words.now
        speech.entry.found.now (map (λ c. c.items) clauses.items)) }
{
    let mut clauses = Vec::new(alloc);
    push_each_terms(alloc, speech, terms, &mut clauses)?;
    push_each_pairs(alloc, speech, pairs, &mut clauses)?;
    Ok(clauses)
}

/// The clauses, if there are any. That none is broken, though terms or pairs are rivals, counts as
/// memory that is not there.
fn some_of(clauses: Vec<Vec<FactLiteral>>) -> Result<Vec<Vec<FactLiteral>>, AllocError>
    ensures same { IfOk result (λ own. own ≡ clauses) }
    ensures some { IfOk result (λ own. own.items ≢ []) }
{
    if clauses.is_empty() {
        return Err(AllocError);
    }
    Ok(clauses)
}

/// Some clauses of congruence that what was found breaks, of the terms and the pairs of which it is
/// not a function of their keys; None only where it is congruent. Time and memory go with the terms
/// and the pairs, not with their square.
pub fn broken_congruences(
    alloc: Global,
    arena: &Arena,
    signature: &Signature,
    terms: &TermArena,
    words: &Words,
    found: &Found,
) -> Result<Option<Vec<Vec<FactLiteral>>>, AllocError>
    requires { IsWords terms.now words.now }
    ensures none { IfOk result (λ broken. broken ≡ None → (g : AnySignature) (table : Table) →
        IsFound g terms.now words.now.pairs.items found.now table →
        IsCongruent (vocabulary_at terms.now words.now) table) }
    ensures some { IfOk result (λ broken. IfSome broken (λ clauses. AreCongruences signature.now
        arena.now terms.now words.now (map (λ c. c.items) clauses.items))) }
    ensures broken { IfOk result (λ broken. IfSome broken (λ clauses. All (IsBroken terms.now
        found.now words.now.pairs.items) (map (λ c. c.items) clauses.items))) }
    ensures full { IfOk result (λ broken. IfSome broken (λ clauses. clauses.items ≢ [])) }
{
    let source = Source { terms, found };
    let told = told_of(alloc, words)?;
    let rivals = rivals_among(alloc, source, told.as_slice())?;
    let pair_rivals = pair_rivals_among(alloc, source, words.pairs.as_slice())?;
    if are_none(rivals.as_slice(), pair_rivals.as_slice()) {
        return Ok(None);
    }
    let speech = Speech {
        arena,
        signature,
        terms,
        words,
        found,
    };
    let clauses = clauses_on(alloc, speech, rivals.as_slice(), pair_rivals.as_slice())?;
    let clauses = some_of(clauses)?;
    Ok(Some(clauses))
}
