//! The ids of the items of sets.

ghost use Rattle.std.specs.Prelude.{◌≡◌, true, IfOk, IfSome, None};
ghost use Rattle.std.specs.List.Sorted.{IsPermutation};
ghost use Rattle.data_judge.specs.Faults.{items_fault};
ghost use Rattle.data_judge.specs.InOrder as order;
ghost use Rattle.data_judge.specs.InOrder.{IdsRiseFrom, IsNumberedFrom, NumbersRiseFrom};
ghost use Rattle.data_judge.specs.Meaning.{ids_of};

use crate::literals::id_in;
use data_tree::Lit;
use std::alloc::{AllocError, Global};

/// The number above the id of an item, if it is an id and no less than this number.
fn above(least: u64, l: &Lit) -> Option<u64>
    ensures { IfSome result (λ next. IsNumberedFrom least l.now next) }
{
    match id_in(l) {
        Some(id) => {
            if id.number < least {
                None
            } else {
                id.number.checked_add(1)
            }
        }
        None => None,
    }
}

/// Whether the items are ids, each larger than the one before it, as in a text that was printed.
pub(crate) fn ids_rise(items: &[Lit]) -> bool
    ensures { result ≡ true → IdsRiseFrom 0 items.now }
{
    let mut least: u64 = 0;
    for l in items {
        match above(least, l) {
            Some(next) => least = next,
            None => return false,
        }
    }
    true
}

/// The numbers of the items that are ids.
pub(crate) fn numbers_in(alloc: Global, items: &[Lit]) -> Result<Vec<u64>, AllocError>
    ensures { IfOk result (λ numbers. numbers.items ≡ order.numbers_in items.now) }
{
    let mut numbers = Vec::with_capacity(alloc, items.len())?;
    for l in items {
        if let Some(id) = id_in(l) {
            numbers.push(id.number)?;
        }
    }
    Ok(numbers)
}

/// Whether each number is larger than the one before it.
fn rise(numbers: &[u64]) -> bool
    ensures { result ≡ true → NumbersRiseFrom 0 numbers.now }
{
    let mut least: u64 = 0;
    for number in numbers {
        if *number < least {
            return false;
        }
        match number.checked_add(1) {
            Some(next) => least = next,
            None => return false,
        }
    }
    true
}

/// The numbers in rising order.
fn sorted(mut numbers: Vec<u64>) -> Vec<u64>
    ensures { IsPermutation numbers.items result.items }
{
    numbers.sort_unstable();
    numbers
}

/// The set of the ids of items, if each is an id and no two are the same. To sort them takes less
/// time than a tree.
pub(crate) fn distinct_ids(alloc: Global, items: &[Lit]) -> Result<Option<Vec<u64>>, AllocError>
    ensures { IfOk result (λ found. IfSome found (λ ids. (items_fault items.now ≡ None) ×
        (ids.items ≡ ids_of items.now))) }
{
    let numbers = numbers_in(alloc, items)?;
    if numbers.len() < items.len() {
        return Ok(None);
    }
    let numbers = sorted(numbers);
    if rise(numbers.as_slice()) {
        Ok(Some(numbers))
    } else {
        Ok(None)
    }
}
