//! The truth of atoms on a structure.

ghost use Rattle.std.specs.Prelude.{◌≡◌, IfOk, is_some, option_and_then, int_lt};
ghost use Rattle.std.specs.Option.{option_map};
ghost use Rattle.form_formula.specs.Nodes.{IsTerm, term_of};
ghost use Rattle.form_formula.specs.Truth.{value_of, element_of, number_of, element_at, entry_at};
ghost use Rattle.form_formula.specs.Truth.{both_pass, are_equal, relates, is_true_value};
ghost use Rattle.form_formula.specs.Values.{sval_of};

use crate::term::{Reading, value_of};
use crate::value::{Value, entry, relates};
use std::alloc::{AllocError, Global};

/// Whether two terms are one element, one number or one text.
pub(crate) fn are_equal(
    alloc: Global,
    reading: Reading<'_>,
    s: u32,
    t: u32,
) -> Result<bool, AllocError>
    requires left { IsTerm reading.arena.now s }
    requires right { IsTerm reading.arena.now t }
    ensures { IfOk result (λ answer. answer
        ≡ both_pass are_equal
        (value_of reading.entry.structure.now reading.entry.elements.now
        (term_of reading.entry.arena.now s))
        (value_of reading.entry.structure.now reading.entry.elements.now
        (term_of reading.entry.arena.now t))) }
{
    let left = value_of(alloc, reading, s)?;
    let right = value_of(alloc, reading, t)?;
    Ok(are_one(left, right))
}

/// Whether two values are there, and are one.
fn are_one(left: Option<Value<'_>>, right: Option<Value<'_>>) -> bool
    ensures { result
        ≡ both_pass are_equal (option_map sval_of left.entry) (option_map sval_of right.entry) }
{
    match (left, right) {
        (Some(left), Some(right)) => left.equals(right),
        (Some(_) | None, _) => false,
    }
}

/// Whether one number is below another.
pub(crate) fn is_less(
    alloc: Global,
    reading: Reading<'_>,
    s: u32,
    t: u32,
) -> Result<bool, AllocError>
    requires left { IsTerm reading.arena.now s }
    requires right { IsTerm reading.arena.now t }
    ensures { IfOk result (λ answer. answer
        ≡ both_pass int_lt
        (option_and_then number_of
        (value_of reading.entry.structure.now reading.entry.elements.now
        (term_of reading.entry.arena.now s)))
        (option_and_then number_of
        (value_of reading.entry.structure.now reading.entry.elements.now
        (term_of reading.entry.arena.now t)))) }
{
    let left = value_of(alloc, reading, s)?;
    let right = value_of(alloc, reading, t)?;
    Ok(is_below(number(left), number(right)))
}

/// The number that a value is, if it is one.
fn number(value: Option<Value<'_>>) -> Option<i64>
    ensures { result ≡ option_and_then number_of (option_map sval_of value.entry) }
{
    match value {
        Some(value) => value.number(),
        None => None,
    }
}

/// Whether two numbers are there, and the first is below the second.
fn is_below(left: Option<i64>, right: Option<i64>) -> bool
    ensures { result ≡ both_pass int_lt left right }
{
    match (left, right) {
        (Some(left), Some(right)) => left < right,
        (Some(_) | None, _) => false,
    }
}

/// Whether a set relation holds of two terms.
pub(crate) fn has(
    alloc: Global,
    reading: Reading<'_>,
    r: u32,
    s: u32,
    t: u32,
) -> Result<bool, AllocError>
    requires left { IsTerm reading.arena.now s }
    requires right { IsTerm reading.arena.now t }
    ensures { IfOk result (λ answer. answer
        ≡ both_pass (relates reading.entry.structure.now r)
        (element_at reading.entry.structure.now reading.entry.elements.now
        (term_of reading.entry.arena.now s))
        (element_at reading.entry.structure.now reading.entry.elements.now
        (term_of reading.entry.arena.now t))) }
{
    let left = element_at(alloc, reading, s)?;
    let right = element_at(alloc, reading, t)?;
    match (left, right) {
        (Some(left), Some(right)) => Ok(relates(reading.structure, r, left, right)),
        (Some(_) | None, _) => Ok(false),
    }
}

/// The element that a term is, if it is one.
fn element_at(alloc: Global, reading: Reading<'_>, t: u32) -> Result<Option<u32>, AllocError>
    requires { IsTerm reading.arena.now t }
    ensures { IfOk result (λ x. x
        ≡ element_at reading.entry.structure.now reading.entry.elements.now
        (term_of reading.entry.arena.now t)) }
{
    match value_of(alloc, reading, t)? {
        Some(value) => Ok(value.element()),
        None => Ok(None),
    }
}

/// What a function has at a term.
fn entry_at<'a>(
    alloc: Global,
    reading: Reading<'a>,
    f: u32,
    t: u32,
) -> Result<Option<Value<'a>>, AllocError>
    requires { IsTerm reading.arena.now t }
    ensures { IfOk result (λ value. option_map sval_of value
        ≡ entry_at reading.entry.structure.now reading.entry.elements.now f
        (term_of reading.entry.arena.now t)) }
{
    match element_at(alloc, reading, t)? {
        Some(x) => Ok(entry(reading.structure, f, x)),
        None => Ok(None),
    }
}

/// Whether a function to truth values gives true at a term.
pub(crate) fn flag(alloc: Global, reading: Reading<'_>, f: u32, t: u32) -> Result<bool, AllocError>
    requires { IsTerm reading.arena.now t }
    ensures { IfOk result (λ answer. answer
        ≡ is_true_value
        (entry_at reading.entry.structure.now reading.entry.elements.now f
        (term_of reading.entry.arena.now t))) }
{
    match entry_at(alloc, reading, f, t)? {
        Some(value) => Ok(value.is_raised()),
        None => Ok(false),
    }
}

/// Whether a function has a value at a term.
pub(crate) fn is_present(
    alloc: Global,
    reading: Reading<'_>,
    f: u32,
    t: u32,
) -> Result<bool, AllocError>
    requires { IsTerm reading.arena.now t }
    ensures { IfOk result (λ answer. answer
        ≡ is_some (entry_at reading.entry.structure.now reading.entry.elements.now f
        (term_of reading.entry.arena.now t))) }
{
    let value = entry_at(alloc, reading, f, t)?;
    Ok(value.is_some())
}
