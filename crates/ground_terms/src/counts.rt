//! How many terms of each sort arise, counted without listing them.

ghost use Rattle.std.specs.Prelude.{◌≡◌, ℕ, ◌<◌, ◌==◌, [], cond, length, map, IfOk};
ghost use Rattle.form_formula.specs.Over.{IsOver};
ghost use Rattle.form_formula.specs.Trees.{Formula};
ghost use Rattle.form_terms.specs.Counts.{count_after, product_of, sum_of};
ghost use Rattle.ground_terms.specs.Applying.{of_sort_in};
ghost use Rattle.ground_terms.specs.Basis.{IsBasis};
ghost use Rattle.ground_terms.specs.Counting.{AreCounts, AreRaised, IsAlike, count_in};
ghost use Rattle.ground_terms.specs.Counting.{function_count, functions_count, part_count};
ghost use Rattle.ground_terms.specs.Counting.{parts_count, round_count};
ghost use Rattle.ground_terms.specs.Standing.{AreOnes, terms_at};

use crate::TermArena;
use crate::listing::of_sort;
use crate::needed::target_of;
use crate::part::Part;
use crate::round::source_of;
use crate::terms::Basis;
use form_formula::Signature;
use std::alloc::{AllocError, Global};

/// The count of a sort: none where there is no place for it.
pub(crate) fn count_of(counts: &[u64], sort: u32) -> u64
    ensures { result ≡ count_in counts.now sort }
{
    counts.get(sort as usize).copied().unwrap_or(0)
}

/// Adds to the count of a sort, if there is a place for it. A count stays at the last number.
fn raise(counts: &mut [u64], sort: u32, by: u64)
    ensures { AreRaised (λ s. cond (sort == s) by 0) counts.old counts.new }
{
    let place = sort as usize;
    if place < counts.len() {
        counts[place] = counts[place].saturating_add(by);
    }
}

/// Adds what a function gives at the terms of its source.
fn raise_by_function(signature: &Signature, h: u32, counts: &[u64], next: &mut [u64])
    ensures { AreRaised (λ sort. function_count (count_in counts.now) signature.now sort h) next.old
        next.new }
{
    let Some(target) = target_of(signature, h) else {
        return;
    };
    let given = match source_of(signature, h) {
        None => 0,
        Some(source) => count_of(counts, source),
    };
    raise(next, target, given);
}

/// Adds what all functions give.
fn raise_by_functions(signature: &Signature, functions: &[u32], counts: &[u64], next: &mut [u64])
    ensures { AreRaised (functions_count (count_in counts.now) signature.now functions.now) next.old
        next.new }
{
    for h in functions {
        raise_by_function(signature, *h, counts, next);
    }
}

/// How many choices there are of a term for each of some sorts.
fn choices_of(counts: &[u64], sorts: &[u32]) -> u64
    ensures { IsAlike result (product_of (map (count_in counts.now) sorts.now)) }
{
    let mut choices = 1u64;
    for sort in sorts {
        choices = choices.saturating_mul(count_of(counts, *sort));
    }
    choices
}

/// Adds what the variable of an `exists` below a `forall` gives at all choices of arguments.
fn raise_by_part(part: &Part, counts: &[u64], next: &mut [u64])
    ensures { AreRaised (λ sort. part_count (count_in counts.now) sort part.now) next.old next.new }
{
    match part {
        Part::Existential(v) => {
            if !v.above.is_empty() {
                raise(next, v.sort, choices_of(counts, v.above.as_slice()));
            }
        }
        Part::Universal(_) | Part::Named(..) | Part::Dependent(_) | Part::Literal(_) => {}
    }
}

/// Adds what all such variables give.
fn raise_by_parts(parts: &[Part], counts: &[u64], next: &mut [u64])
    ensures { AreRaised (parts_count (count_in counts.now) parts.now) next.old next.new }
{
    for part in parts {
        raise_by_part(part, counts, next);
    }
}

/// Adds what one round of applying gives.
fn raise_by_round(
    signature: &Signature,
    functions: &[u32],
    parts: &[Part],
    counts: &[u64],
    next: &mut [u64],
)
    ensures { AreRaised (round_count (count_in counts.now) signature.now functions.now parts.now)
        next.old next.new }
{
    raise_by_functions(signature, functions, counts, next);
    raise_by_parts(parts, counts, next);
}

/// The counts after one more round, where so many terms stay.
fn next_counts(
    alloc: Global,
    signature: &Signature,
    functions: &[u32],
    parts: &[Part],
    plain: &[u64],
    counts: &[u64],
) -> Result<Vec<u64>, AllocError>
    ensures { IfOk result (λ next. AreRaised (round_count (count_in counts.now) signature.now
        functions.now parts.now) plain.now next.items) }
{
    let mut next = Vec::from_slice(alloc, plain)?;
    raise_by_round(signature, functions, parts, counts, next.as_mut_slice());
    Ok(next)
}

/// For each sort how many of these terms it has.
fn counts_of(
    alloc: Global,
    signature: &Signature,
    terms: &TermArena,
    listed: &[u32],
) -> Result<Vec<u64>, AllocError>
    requires { AreOnes terms.now listed.now }
    ensures { IfOk result (λ counts. AreCounts signature.now.sorts (λ sort. length (of_sort_in
        signature.now (terms_at terms.now listed.now) sort)) counts.items) }
{
    let mut counts = Vec::new(alloc);
    for sort in 0..signature.sorts {
        let found = of_sort(alloc, signature, terms, listed, sort)?;
        counts.push(found.len() as u64)?;
    }
    Ok(counts)
}

/// For each sort how many terms of it arise within so many rounds. Where a round gives what it
/// began with, no later one gives more.
pub(crate) fn counts_within(
    alloc: Global,
    signature: &Signature,
    basis: &Basis,
    rounds: u32,
) -> Result<Vec<u64>, AllocError>
    requires first { AreOnes basis.now.arena basis.now.first.items }
    requires plain { AreOnes basis.now.arena basis.now.plain.items }
    ensures { IfOk result (λ counts. (f : Formula) → IsOver signature.now [] f → IsBasis
        signature.now f basis.now → AreCounts signature.now.sorts (count_after signature.now f
        rounds) counts.items) }
{
    let plain = counts_of(alloc, signature, &basis.arena, basis.plain.as_slice())?;
    let mut counts = counts_of(alloc, signature, &basis.arena, basis.first.as_slice())?;
    'rounds: for round in 0..rounds {
        let next = next_counts(
            alloc,
            signature,
            basis.functions.as_slice(),
            basis.parts.as_slice(),
            plain.as_slice(),
            counts.as_slice(),
        )?;
        if next == counts {
            return Ok(counts);
        }
        counts = next;
    }
    Ok(counts)
}

/// The sum of counts.
pub(crate) fn total(counts: &[u64]) -> u64
    ensures { IsAlike result (sum_of counts.now) }
{
    let mut sum = 0u64;
    for count in counts {
        sum = sum.saturating_add(*count);
    }
    sum
}
