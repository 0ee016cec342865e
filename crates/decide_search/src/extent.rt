//! Whether the clauses of congruence are few.

use ground_problem::Words;
use ground_terms::{TermArena, TermNode};
use std::alloc::{AllocError, Global};

/// How many clauses of congruence are few: so many are met in one search sooner than in several.
const FEW_CONGRUENCES: u64 = 20_000;

/// A number for what a term is at others: terms of one number are congruent where these are.
fn head_of(terms: &TermArena, id: u32) -> u64 {
    if id as usize >= terms.len() {
        return 3;
    }
    match terms.node(id) {
        TermNode::Constant(sort) => 4 * u64::from(sort),
        TermNode::Skolem(variable, _, _) => 4 * u64::from(variable) + 1,
        TermNode::Field(function, _) => 4 * u64::from(function) + 2,
        TermNode::Empty | TermNode::Cons(_, _) => 3,
    }
}

/// The sum of the squares of how often each number stands in a list that rises.
fn squares(numbers: &[u64]) -> u64 {
    let mut sum: u64 = 0;
    let mut last = 0;
    let mut times: u64 = 0;
    for number in numbers {
        if *number != last {
            sum = sum.saturating_add(times.saturating_mul(times));
            times = 0;
        }
        last = *number;
        times = times.saturating_add(1);
    }
    sum.saturating_add(times.saturating_mul(times))
}

/// How many pairs of these terms are of one function or variable.
fn pairs_of(alloc: Global, terms: &TermArena, ids: &[u32]) -> Result<u64, AllocError> {
    let mut heads = Vec::with_capacity(alloc, ids.len())?;
    for id in ids {
        heads.push(head_of(terms, *id))?;
    }
    heads.sort()?;
    Ok(squares(heads.as_slice()))
}

/// How many pairs of set relations at terms are of one relation.
fn pairs_of_relations(alloc: Global, words: &Words) -> Result<u64, AllocError> {
    let mut relations = Vec::with_capacity(alloc, words.pairs.len())?;
    for pair in words.pairs.as_slice() {
        relations.push(u64::from(pair.relation))?;
    }
    relations.sort()?;
    Ok(squares(relations.as_slice()))
}

/// Whether the clauses of congruence of a table are so few that a search had better begin with all.
pub(crate) fn are_few(alloc: Global, terms: &TermArena, words: &Words) -> Result<bool, AllocError> {
    let named = pairs_of(alloc, terms, words.named.as_slice())?;
    let others = pairs_of(alloc, terms, words.others.as_slice())?;
    let relations = pairs_of_relations(alloc, words)?;
    let count = named.saturating_add(others).saturating_add(relations);
    Ok(count <= FEW_CONGRUENCES)
}
