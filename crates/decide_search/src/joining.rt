//! Fewer elements in what was found: classes of terms that nothing keeps apart become one. What
//! comes of it is checked like any other.

ghost use Rattle.ground_problem.specs.Words.{IsWords};

use crate::Mixture;
use crate::reading::columns_of;
use crate::sides::Reader;
use crate::solving::Ground;
use decide_reading::{Columns, Pairs, Source, broken_congruences, check_facts, found_by, range_at};
use form_formula::Range;
use std::alloc::{AllocError, Global};

/// How often two classes are tried as one.
const MOST_TRIALS: usize = 256;

/// How many facts are looked at for it.
const MOST_FACTS: usize = 250_000;

/// What classes are joined over: a search's problem, and what it found.
#[derive(Clone, Copy)]
struct Joining<'a> {
    reader: Reader<'a>,
    ground: Ground<'a>,
    mixture: &'a Mixture,
    pairs: &'a Pairs,
}

/// A term that is a record and is there.
#[derive(Clone, Copy)]
struct Record {
    sort: u32,
    id: usize,
}

/// The terms that are records and are there.
fn records_of(
    alloc: Global,
    reader: Reader<'_>,
    columns: &Columns,
) -> Result<Vec<Record>, AllocError> {
    let mut records = Vec::new(alloc);
    for id in 0..reader.terms.len() {
        let is_there = columns.there.get(id).copied().unwrap_or(false);
        if let Some(Range::Rec(sort)) = range_at(reader.signature, reader.terms, id as u32) {
            if is_there {
                records.push(Record { sort, id })?;
            }
        }
    }
    Ok(records)
}

/// The classes with one in the place of another.
fn with_one_for_another(
    alloc: Global,
    classes: &[u32],
    one: u32,
    another: u32,
) -> Result<Vec<u32>, AllocError> {
    let mut joined = Vec::new(alloc);
    for class in classes {
        joined.push(if *class == another { one } else { *class })?;
    }
    Ok(joined)
}

/// Whether no clause of congruence is broken by columns.
fn is_congruent(
    alloc: Global,
    reader: Reader<'_>,
    columns: &Columns,
    pairs: &Pairs,
) -> Result<bool, AllocError>
    requires { IsWords reader.terms.now reader.words.now }
{
    let Reader {
        signature,
        arena,
        terms,
        words,
        texts: _,
    } = reader;
    let found = found_by(alloc, terms, pairs, columns)?;
    // Columns that are not congruent and break no clause are none to go on with either.
    match broken_congruences(alloc, arena, signature, terms, words, &found) {
        Ok(broken) => Ok(broken.is_none()),
        Err(_) => Ok(false),
    }
}

/// Whether the facts are by these classes as the solver found them, and no clause of congruence is
/// broken.
fn agrees(alloc: Global, joining: Joining<'_>, classes: &[u32]) -> Result<bool, AllocError>
    requires { IsWords joining.reader.terms.now joining.reader.words.now }
{
    let Joining {
        reader,
        ground,
        mixture,
        pairs,
    } = joining;
    let columns = columns_of(alloc, reader, pairs, ground.facts, mixture, classes)?;
    let source = Source {
        arena: reader.arena,
        terms: reader.terms,
        pairs,
        columns: &columns,
    };
    let values = mixture.values.as_slice();
    if check_facts(source, ground.facts, values).is_err() {
        return Ok(false);
    }
    is_congruent(alloc, reader, &columns, pairs)
}

/// The classes where one record has been tried as each of those before it, of which one may be it.
fn join_one(
    alloc: Global,
    joining: Joining<'_>,
    before: &[Record],
    record: Record,
    classes: &mut Vec<u32>,
    trials: &mut usize,
) -> Result<(), AllocError>
    requires { IsWords joining.reader.terms.now joining.reader.words.now }
{
    for other in before {
        let one = classes.get(other.id).copied().unwrap_or(0);
        let another = classes.get(record.id).copied().unwrap_or(0);
        if other.sort != record.sort || one == another {
            continue;
        }
        let Some(left) = trials.checked_sub(1) else {
            return Ok(());
        };
        *trials = left;
        let joined = with_one_for_another(alloc, classes.as_slice(), one, another)?;
        if agrees(alloc, joining, joined.as_slice())? {
            *classes = joined;
            return Ok(());
        }
    }
    Ok(())
}

/// The classes of terms, of which some that no fact keeps apart are one.
pub(crate) fn joined_classes(
    alloc: Global,
    reader: Reader<'_>,
    ground: Ground<'_>,
    mixture: &Mixture,
    pairs: &Pairs,
) -> Result<Vec<u32>, AllocError>
    requires { IsWords reader.terms.now reader.words.now }
{
    let mut classes = Vec::from_slice(alloc, mixture.classes.as_slice())?;
    let own = classes.as_slice();
    let columns = columns_of(alloc, reader, pairs, ground.facts, mixture, own)?;
    if !is_congruent(alloc, reader, &columns, pairs)? {
        return Ok(classes);
    }
    let records = records_of(alloc, reader, &columns)?;
    let mut trials = MOST_TRIALS.min(MOST_FACTS / ground.facts.len().max(1));
    let joining = Joining {
        reader,
        ground,
        mixture,
        pairs,
    };
    for k in 0..records.len() {
        let before = &records.as_slice()[..k];
        let record = records[k];
        join_one(alloc, joining, before, record, &mut classes, &mut trials)?;
    }
    Ok(classes)
}
