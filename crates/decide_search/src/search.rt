//! The search.

ghost use Rattle.std.specs.Prelude.{◌≡◌, ◌≤◌, ◌<◌, ◌++◌, All, Bool, List, [], Contains, IfOk, IfSome, None, length, map};
ghost use Rattle.form_formula.specs.NormalForm.{IsNormal};
ghost use Rattle.form_formula.specs.Nodes.{IsFormula, formula_of};
ghost use Rattle.form_formula.specs.Over.{IsOver};
ghost use Rattle.form_formula.specs.Trees.{Formula};
ghost use Rattle.ground_gates.specs.Clauses.{HaveInputsBelow};
ghost use Rattle.ground_terms.specs.TermLists.{terms_in};
ghost use Rattle.form_tables.specs.Vocabulary.{AreFormed};
ghost use Rattle.form_terms.specs.GroundTerms.{GroundTerm};
ghost use Rattle.form_terms.specs.Passing.{IsSatisfiableOver};
ghost use Rattle.ground_problem.specs.Inputs.{AreFieldsOf, RelateTerms};
ghost use Rattle.ground_problem.specs.Spoken.{IsSpoken};
ghost use Rattle.ground_problem.specs.Words.{IsWords, vocabulary_at};
ghost use Rattle.decide_search.specs.declared.mixture.Mixture.{Mixture as AnyMixture};
ghost use Rattle.decide_search.specs.Problem.{AreBelow, AreSolved, IsNowhere};
ghost use Rattle.decide_search.specs.Sides.{AreBelowEnd};
ghost use Rattle.decide_search.specs.Tabled.{AreBrokenBy, AreListed, AreNewCongruences, HasColumns};
ghost use Rattle.decide_search.specs.Tabled.{HasTable, IsFoundCongruent, IsGroundFor, IsRound};
ghost use Rattle.decide_search.specs.Tabled.{IsTabled};
ghost use Rattle.ground_problem.specs.Facts.{clauses_at};
ghost use Rattle.decide_search.specs.Texts.{StandOnce};

use crate::Mixture;
use crate::joining::joined_classes;
use crate::listing::{add_congruences, first_clauses};
use crate::reading::columns_of;
use crate::round::Round;
use crate::sides::Reader;
use crate::solving::{Ground, solve};
use crate::tabled::Tabled;
use crate::texts::{see_texts, texts_of};
use decide_models::Found;
use decide_reading::{Pairs, Source, broken_congruences, check_facts, found_by};
use form_formula::{Arena, Signature};
use ground_gates::Literal;
use ground_instances::{Instances, instantiate};
use ground_problem::{FactLiteral, GroundClauses, Spoken, ground_clauses, vocabulary_of};
use ground_terms::{Terms, variables_of};
use std::alloc::{AllocError, Global};

/// What was found by values, if the facts are so by it.
fn found_so(
    alloc: Global,
    reader: Reader<'_>,
    ground: Ground<'_>,
    mixture: &Mixture,
    pairs: &Pairs,
) -> Result<Found, AllocError>
    requires words { IsWords reader.terms.now reader.words.now }
    requires pairs { pairs.now ≡ reader.words.now.pairs.items }
    ensures { IfOk result (HasColumns reader.entry.signature.now reader.entry.arena.now
        reader.entry.terms.now reader.entry.words.now ground.entry.facts.now
        mixture.now.values.items) }
{
    let classes = joined_classes(alloc, reader, ground, mixture, pairs)?;
    let own = classes.as_slice();
    let columns = columns_of(alloc, reader, pairs, ground.facts, mixture, own)?;
    let source = Source {
        arena: reader.arena,
        terms: reader.terms,
        pairs,
        columns: &columns,
    };
    check_facts(source, ground.facts, mixture.values.as_slice())?;
    found_by(alloc, reader.terms, pairs, &columns)
}

/// What was found by values, if the facts are so by it and it is congruent; and else clauses of
/// congruence.
fn found_from(
    alloc: Global,
    reader: Reader<'_>,
    ground: Ground<'_>,
    mixture: &Mixture,
) -> Result<Round, AllocError>
    requires { IsWords reader.terms.now reader.words.now }
    ensures { IfOk result (IsRound (λ f. HasColumns reader.entry.signature.now
        reader.entry.arena.now reader.entry.terms.now reader.entry.words.now
        ground.entry.facts.now mixture.now.values.items f × IsFoundCongruent
        reader.entry.terms.now reader.entry.words.now f) (AreBrokenBy reader.entry.signature.now
        reader.entry.arena.now reader.entry.terms.now reader.entry.words.now
        ground.entry.facts.now mixture.now.values.items)) }
{
    let pairs = Pairs::of(alloc, reader.words.pairs.as_slice())?;
    let found = found_so(alloc, reader, ground, mixture, &pairs)?;
    let Reader {
        signature,
        arena,
        terms,
        words,
        texts: _,
    } = reader;
    match broken_congruences(alloc, arena, signature, terms, words, &found)? {
        None => Ok(Round::Table(found)),
        Some(clauses) => Ok(Round::Broken(clauses)),
    }
}

/// What is found by clauses in one round.
fn found_by_clauses(
    alloc: Global,
    reader: Reader<'_>,
    ground: Ground<'_>,
    clauses: Vec<Vec<Literal>>,
    gates: Vec<Vec<Literal>>,
) -> Result<Option<Round>, AllocError>
    requires once { StandOnce reader.texts.now }
    requires facts { length ground.facts.now ≤ ground.vars }
    requires own { All (λ c. AreBelow ground.vars c.items) clauses.items }
    requires others { All (λ c. AreBelow ground.vars c.items) gates.items }
    requires words { IsWords reader.terms.now reader.words.now }
    ensures none { IfOk result (λ found. found ≡ None → IsNowhere reader.entry.signature.now
        reader.entry.arena.now reader.entry.terms.now reader.entry.words.now
        reader.entry.texts.now ground.entry.facts.now (map (λ c. c.items)
        clauses.items ++ map (λ c. c.items) gates.items)) }
    ensures some { IfOk result (λ found. IfSome found (IsRound (λ f. (m : AnyMixture) × AreSolved
        (map (λ c. c.items) clauses.items ++ map (λ c. c.items)
        gates.items) m × (HasColumns reader.entry.signature.now reader.entry.arena.now
        reader.entry.terms.now reader.entry.words.now ground.entry.facts.now
        m.values.items f × IsFoundCongruent reader.entry.terms.now reader.entry.words.now f))
        (λ more. (m : AnyMixture) × AreSolved (map (λ c. c.items) clauses.items ++
        map (λ c. c.items) gates.items) m × AreBrokenBy reader.entry.signature.now
        reader.entry.arena.now reader.entry.terms.now reader.entry.words.now
        ground.entry.facts.now m.values.items more))) }
{
    match solve(alloc, reader, ground, clauses, gates)? {
        None => Ok(None),
        Some(mixture) => {
            let round = found_from(alloc, reader, ground, &mixture)?;
            Ok(Some(round))
        }
    }
}

/// What is found for instances with their vocabulary in one round, by these clauses.
fn found_for(
    alloc: Global,
    arena: &Arena,
    signature: &Signature,
    spoken: &Spoken,
    clauses: GroundClauses,
) -> Result<Option<Round>, AllocError>
    requires words { IsWords spoken.now.made.terms spoken.now.words }
    requires below { AreBelowEnd clauses }
    ensures none { IfOk result (λ found. found ≡ None → (f : Formula) (terms : List GroundTerm)
        (closed : Bool) → IsOver signature.now [] f → IsNormal f → IsSpoken signature.now arena.now
        f terms closed spoken.now → IsGroundFor signature.now arena.now spoken.now clauses →
        IsSatisfiableOver signature.now f (Contains terms) → ⊥) }
    ensures some { IfOk result (λ found. IfSome found (IsRound (λ found. (f : Formula)
        (terms : List GroundTerm) (closed : Bool) → IsOver signature.now [] f → IsNormal f →
        IsSpoken signature.now arena.now f terms closed spoken.now → IsGroundFor signature.now
        arena.now spoken.now clauses → HasTable signature.now f terms spoken.now found)
        (λ more. (is : IsGroundFor signature.now arena.now spoken.now clauses) →
        AreNewCongruences signature.now arena.now spoken.now.made.terms spoken.now.words is.cs
        more))) }
{
    let _nodes = arena.len();
    let _terms = spoken.made.terms.len();
    let GroundClauses {
        facts,
        clauses,
        gates,
        end,
    } = clauses;
    let facts = facts.as_slice();
    let texts = texts_of(alloc, arena, facts)?;
    let own = texts.as_slice();
    see_texts(own);
    let reader = Reader {
        signature,
        arena,
        terms: &spoken.made.terms,
        words: &spoken.words,
        texts: own,
    };
    let ground = Ground { facts, vars: end };
    found_by_clauses(alloc, reader, ground, clauses, gates)
}

/// What is found for instances with their vocabulary in one round, by these clauses on facts.
fn round_by(
    alloc: Global,
    arena: &Arena,
    signature: &Signature,
    spoken: &Spoken,
    facts: &[Vec<FactLiteral>],
) -> Result<Option<Round>, AllocError>
    requires words { IsWords spoken.now.made.terms spoken.now.words }
    requires fields { AreFieldsOf spoken.now.made.terms spoken.now.made.inputs
        spoken.now.fields.items }
    requires terms { RelateTerms spoken.now.made.inputs }
    requires below { HaveInputsBelow (length spoken.now.made.inputs) spoken.now.made.gates }
    requires there { spoken.now.made.root < length spoken.now.made.gates }
    requires listed { AreListed signature.now arena.now spoken.now.made.terms spoken.now.words
        (map (λ c. c.items) facts.now) }
    ensures none { IfOk result (λ found. found ≡ None → (f : Formula) (terms : List GroundTerm)
        (closed : Bool) → IsOver signature.now [] f → IsNormal f → IsSpoken signature.now arena.now
        f terms closed spoken.now → IsSatisfiableOver signature.now f (Contains terms) → ⊥) }
    ensures some { IfOk result (λ found. IfSome found (IsRound (λ found. (f : Formula)
        (terms : List GroundTerm) (closed : Bool) → IsOver signature.now [] f → IsNormal f →
        IsSpoken signature.now arena.now f terms closed spoken.now → HasTable signature.now f terms
        spoken.now found) (AreNewCongruences signature.now arena.now spoken.now.made.terms
        spoken.now.words (clauses_at arena.now spoken.now.made.terms (map (λ c. c.items)
        facts.now))))) }
{
    let clauses = ground_clauses(alloc, arena, spoken, facts)?;
    found_for(alloc, arena, signature, spoken, clauses)
}

/// What is found for instances with their vocabulary. Clauses of congruence are added where what a
/// round found breaks some: these were not there, and there are only so many, so the rounds end.
fn table_for(
    alloc: Global,
    arena: &Arena,
    signature: &Signature,
    spoken: &Spoken,
) -> Result<Option<Found>, AllocError>
    requires words { IsWords spoken.now.made.terms spoken.now.words }
    requires fields { AreFieldsOf spoken.now.made.terms spoken.now.made.inputs
        spoken.now.fields.items }
    requires terms { RelateTerms spoken.now.made.inputs }
    requires below { HaveInputsBelow (length spoken.now.made.inputs) spoken.now.made.gates }
    requires there { spoken.now.made.root < length spoken.now.made.gates }
    ensures none { IfOk result (λ found. found ≡ None → (f : Formula) (terms : List GroundTerm)
        (closed : Bool) → IsOver signature.now [] f → IsNormal f → IsSpoken signature.now arena.now
        f terms closed spoken.now → IsSatisfiableOver signature.now f (Contains terms) → ⊥) }
    ensures some { IfOk result (λ found. IfSome found (λ found. (f : Formula) (terms : List
        GroundTerm) (closed : Bool) → IsOver signature.now [] f → IsNormal f → IsSpoken
        signature.now arena.now f terms closed spoken.now → HasTable signature.now f terms
        spoken.now found)) }
{
    let mut facts = first_clauses(alloc, arena, signature, spoken)?;
    'rounds: loop {
        match round_by(alloc, arena, signature, spoken, facts.as_slice())? {
            None => return Ok(None),
            Some(Round::Table(found)) => return Ok(Some(found)),
            Some(Round::Broken(more)) => add_congruences(more, &mut facts)?,
        }
    }
}

/// The instances of a formula with their vocabulary.
fn spoken_of(
    alloc: Global,
    arena: &Arena,
    id: u32,
    signature: &Signature,
    terms: Terms,
    closed: bool,
) -> Result<Spoken, AllocError>
    requires formula { IsFormula arena.now id }
    requires over { IsOver signature.now [] (formula_of arena.now id) }
    requires formed { AreFormed signature.now (formula_of arena.now id) (terms_in terms) }
    ensures spoken { IfOk result (IsSpoken signature.now arena.now (formula_of arena.now id)
        (terms_in terms) closed) }
    ensures terms { IfOk result (λ spoken. RelateTerms spoken.made.inputs) }
{
    let variables = variables_of(alloc, arena, id)?;
    let made = instantiate(alloc, arena, id, signature, terms)?;
    vocabulary_of(alloc, arena, signature, variables.as_slice(), made, closed)
}

/// What is found, with what it is read by.
fn tabled(spoken: Spoken, found: Found) -> Tabled
    ensures terms { result.terms ≡ spoken.made.terms }
    ensures words { result.words ≡ spoken.words }
    ensures found { result.found ≡ found }
{
    let Spoken {
        made,
        words,
        fields: _,
    } = spoken;
    let Instances {
        terms,
        inputs: _,
        gates: _,
        root: _,
        listed: _,
    } = made;
    Tabled {
        terms,
        words,
        found,
    }
}

/// Searches for a table by which a formula in negation normal form is read over ground terms that
/// are formed of each other; None exactly where no structure passes the formula over them.
///
/// The terms may be said to be closed: then the table names no others.
pub fn find_table(
    alloc: Global,
    arena: &Arena,
    id: u32,
    signature: &Signature,
    terms: Terms,
    closed: bool,
) -> Result<Option<Tabled>, AllocError>
    requires formula { IsFormula arena.now id }
    requires over { IsOver signature.now [] (formula_of arena.now id) }
    requires normal { IsNormal (formula_of arena.now id) }
    requires formed { AreFormed signature.now (formula_of arena.now id) (terms_in terms) }
    ensures none { IfOk result (λ found. found ≡ None → IsSatisfiableOver signature.now (formula_of
        arena.now id) (Contains (terms_in terms)) → ⊥) }
    ensures some { IfOk result (λ found. IfSome found (IsTabled signature.now (formula_of
        arena.now id) (terms_in terms) closed)) }
{
    let spoken = spoken_of(alloc, arena, id, signature, terms, closed)?;
    match table_for(alloc, arena, signature, &spoken)? {
        None => Ok(None),
        Some(found) => Ok(Some(tabled(spoken, found))),
    }
}
