//! The vocabulary of instances.

ghost use Rattle.std.specs.Prelude.{◌≡◌, ◌<◌, ◌⊎◌, [], Contains, IfOk, List, Some, length, map};
ghost use Rattle.std.specs.Prelude.{slice_get, true, ℕ};
ghost use Rattle.form_formula.specs.Over.{IsOver};
ghost use Rattle.form_formula.specs.Trees.{Formula};
ghost use Rattle.form_terms.specs.GroundTerms.{GroundTerm};
ghost use Rattle.form_terms.specs.Universe.{variables_of};
ghost use Rattle.ground_terms.specs.Variables.{variable_at};
ghost use Rattle.form_tables.specs.Vocabulary.{AreFormed};
ghost use Rattle.ground_instances.specs.Made.{AreInstancesOf};
ghost use Rattle.ground_instances.specs.Inputs.{AreInputs};
ghost use Rattle.ground_problem.specs.Inputs.{AreFieldsOf, RelateTerms};
ghost use Rattle.ground_problem.specs.Spoken.{IsSpoken};
ghost use Rattle.ground_problem.specs.Words.{IsWords};
ghost use Rattle.ground_problem.specs.Telling.{AreAllMarked, AreListedMarks};
ghost use Rattle.ground_problem.specs.WordsFound.{AreSpokenBy, AreWordsFor, IsTellingFor};

use crate::checks::Check;
use crate::fields::fields_of;
use crate::pairs::pairs_of;
use crate::telling::{Source, Telling, tell};
use crate::words::{PairNode, Words};
use form_formula::{Arena, Signature};
use ground_instances::{Input, Instances};
use ground_terms::{TermArena, Variable};
use std::alloc::{AllocError, Global};

/// The instances of a formula, and what a table has to tell of for them.
#[derive(Drop)]
pub struct Spoken {
    pub made: Instances,
    pub words: Words,
    /// For each input of a function at a value, the number of that.
    pub fields: Vec<u32>,
}

/// Marks a number, if there is a place for it.
fn mark(marks: &mut Vec<bool>, id: u32)
    ensures only { (k : ℕ) → slice_get marks.new.items k ≡ Some true →
        (k ≡ id) ⊎ (slice_get marks.old.items k ≡ Some true) }
    ensures kept { (k : ℕ) → slice_get marks.old.items k ≡ Some true →
        slice_get marks.new.items k ≡ Some true }
    ensures marked { id < length marks.old.items → slice_get marks.new.items id ≡ Some true }
    ensures length { length marks.new.items ≡ length marks.old.items }
{
    let place = id as usize;
    if place >= marks.len() {
        return;
    }
    marks[place] = true;
}

/// For each number below a count whether it is in a list.
fn marks_of(alloc: Global, count: usize, listed: &[u32]) -> Result<Vec<bool>, AllocError>
    ensures only { IfOk result (λ marks. (id : ℕ) → slice_get marks.items id ≡ Some true →
        Contains listed.now id) }
    ensures each { IfOk result (λ marks. (id : ℕ) → Contains listed.now id → id < count →
        slice_get marks.items id ≡ Some true) }
{
    let mut marks = vec![in alloc; false; count]?;
    for id in listed {
        mark(&mut marks, *id);
    }
    Ok(marks)
}

/// Finds the terms of a vocabulary, and whether the inputs are of it.
fn telling_of(
    alloc: Global,
    arena: &Arena,
    source: Source<'_>,
    inputs: &[Input],
    fields: &[u32],
) -> Result<Telling, AllocError>
    requires marks { AreListedMarks source.terms.now source.listed.now source.marks.now }
    requires all { AreAllMarked source.terms.now source.listed.now source.marks.now }
    requires fields { AreFieldsOf source.terms.now inputs.now fields.now }
    ensures { IfOk result (IsTellingFor source.entry.signature.now arena.now
        source.entry.variables.now source.entry.closed source.entry.terms.now
        source.entry.listed.now inputs.now) }
{
    let telling = tell(alloc, source)?;
    let check = Check {
        arena,
        signature: source.signature,
        terms: source.terms,
        telling: &telling,
    };
    if !check.are_told(inputs, fields) {
        return Err(AllocError);
    }
    Ok(telling)
}

/// The words that were found.
fn finished(telling: Telling, pairs: Vec<PairNode>) -> Words
    ensures named { result.named.items ≡ telling.named.items }
    ensures others { result.others.items ≡ telling.others.items }
    ensures pairs { result.pairs.items ≡ pairs.items }
{
    let Telling {
        standings: _,
        named,
        others,
    } = telling;
    Words {
        named,
        others,
        pairs,
    }
}

/// Finds the words of which inputs speak.
fn words_of(
    alloc: Global,
    arena: &Arena,
    source: Source<'_>,
    inputs: &[Input],
    fields: &[u32],
) -> Result<Words, AllocError>
    requires marks { AreListedMarks source.terms.now source.listed.now source.marks.now }
    requires all { AreAllMarked source.terms.now source.listed.now source.marks.now }
    requires fields { AreFieldsOf source.terms.now inputs.now fields.now }
    ensures { IfOk result (AreWordsFor source.entry.signature.now arena.now
        source.entry.variables.now source.entry.closed source.entry.terms.now
        source.entry.listed.now inputs.now) }
{
    let telling = telling_of(alloc, arena, source, inputs, fields)?;
    let pairs = pairs_of(alloc, inputs)?;
    Ok(finished(telling, pairs))
}

/// Finds the words of which the inputs of instances speak, whose functions at values are added.
fn spoken_words(
    alloc: Global,
    arena: &Arena,
    signature: &Signature,
    variables: &[Variable],
    made: &mut Instances,
    closed: bool,
) -> Result<(Words, Vec<u32>), AllocError>
    requires { AreInputs made.old.terms made.old.inputs }
    ensures { IfOk result (λ found. AreSpokenBy signature.now arena.now variables.now closed
        made.old made.new found.0 found.1.items) }
{
    let fields = fields_of(alloc, &mut made.terms, made.inputs.as_slice())?;
    let marks = marks_of(alloc, made.terms.len(), made.listed.as_slice())?;
    let source = Source {
        signature,
        terms: &made.terms,
        variables,
        listed: made.listed.as_slice(),
        marks: marks.as_slice(),
        closed,
    };
    let words = words_of(
        alloc,
        arena,
        source,
        made.inputs.as_slice(),
        fields.as_slice(),
    )?;
    Ok((words, fields))
}

/// The vocabulary of the instances of a formula: the listed terms, and those of which its inputs
/// speak. Functions at values of which inputs speak are added to the ground terms.
///
/// If the list of terms is closed, only listed terms name elements. The variables are those of the
/// formula. An input that speaks of what is no atom over the signature, of which instances have
/// none, counts as memory that is not there.
pub fn vocabulary_of(
    alloc: Global,
    arena: &Arena,
    signature: &Signature,
    variables: &[Variable],
    made: Instances,
    closed: bool,
) -> Result<Spoken, AllocError>
    requires { AreInputs made.terms made.inputs }
    ensures words { IfOk result (λ spoken. IsWords spoken.made.terms spoken.words) }
    ensures fields { IfOk result (λ spoken. AreFieldsOf spoken.made.terms spoken.made.inputs
        spoken.fields.items) }
    ensures terms { IfOk result (λ spoken. RelateTerms spoken.made.inputs) }
    ensures spoken { IfOk result (λ spoken. (f : Formula) (ts : List GroundTerm) →
        IsOver signature.now [] f → AreFormed signature.now f ts →
        map variable_at variables.now ≡ variables_of signature.now f →
        AreInstancesOf signature.now arena.now f ts made →
        IsSpoken signature.now arena.now f ts closed spoken) }
{
    let mut made = made;
    let (words, fields) = spoken_words(alloc, arena, signature, variables, &mut made, closed)?;
    Ok(Spoken {
        made,
        words,
        fields,
    })
}
