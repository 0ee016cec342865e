//! Formulas with more pairs of pairs, or of terms of one function, than clauses of congruence are
//! written out first.

use crate::tests::signatures::{function_to, related_back};
use crate::tests::verdicts::{Kind, kind_of};
use decide_trial::Forms;
use form_formula::Range;
use std::alloc::{AllocError, Global};
use std::test::Fail;

/// How many elements of each sort are named: their pairs have some 2,500,000 pairs.
const NAMED_ELEMENTS: u32 = 40;

/// Each two elements are related or not.
fn every_pair(forms: &mut Forms) -> Result<u32, AllocError> {
    let x = forms.bound(0, 0)?;
    let y = forms.bound(1, 1)?;
    let holds = forms.has(0, y, x)?;
    let fails = forms.not(holds)?;
    let either = forms.or(holds, fails)?;
    let inner = forms.forall(1, either)?;
    forms.forall(0, inner)
}

/// There are so many elements, of which the first two of sort 0 are the same; the first of sort 1
/// is related to one of these, and perhaps not to the other.
fn many(alloc: Global, differ: bool) -> Result<Kind, AllocError> {
    let signature = related_back(alloc)?;
    let mut forms = Forms::new(alloc)?;
    let all = every_pair(&mut forms)?;
    let first = forms.bound(0, 0)?;
    let second = forms.bound(0, 1)?;
    let one = forms.equal(first, second)?;
    let holder = forms.bound(1, NAMED_ELEMENTS)?;
    let holds = forms.has(0, holder, first)?;
    let mut other = forms.has(0, holder, second)?;
    if differ {
        other = forms.not(other)?;
    }
    let whole = forms.and(one, holds)?;
    let mut whole = forms.and(whole, other)?;
    for _ in 0..NAMED_ELEMENTS {
        whole = forms.exists(1, whole)?;
    }
    for _ in 0..NAMED_ELEMENTS {
        whole = forms.exists(0, whole)?;
    }
    let whole = forms.and(all, whole)?;
    let verdict = forms.verdict_on(alloc, &signature, whole)?;
    Ok(kind_of(&verdict))
}

#[test]
fn pairs_of_the_same_elements(rt: HostRuntime) -> Result<(), Fail> {
    assert!(rt; many(rt.alloc(), true)? == Kind::Safe);
    Ok(())
}

#[test]
fn pairs_that_are_related(rt: HostRuntime) -> Result<(), Fail> {
    assert!(rt; many(rt.alloc(), false)? == Kind::Found);
    Ok(())
}

/// How many elements of sort 0 are named: a function and a variable at these have 22,500 pairs
/// each.
const ARGUMENTS: u32 = 150;

/// Each element has a truth value, and there is one of sort 1 for it.
fn every_flag(forms: &mut Forms) -> Result<u32, AllocError> {
    let x = forms.bound(0, 0)?;
    let holds = forms.flag(0, x)?;
    let fails = forms.not(holds)?;
    let either = forms.or(holds, fails)?;
    let inner = forms.exists(1, either)?;
    forms.forall(0, inner)
}

/// There are so many elements, of which the first two are the same; the first is true, and the
/// second is not, or nothing is said of it.
fn many_flags(alloc: Global, differ: bool) -> Result<Kind, AllocError> {
    let signature = function_to(alloc, Range::Flag, false)?;
    let mut forms = Forms::new(alloc)?;
    let all = every_flag(&mut forms)?;
    let first = forms.bound(0, 0)?;
    let second = forms.bound(0, 1)?;
    let one = forms.equal(first, second)?;
    let holds = forms.flag(0, first)?;
    let mut whole = forms.and(one, holds)?;
    if differ {
        let other = forms.flag(0, second)?;
        let fails = forms.not(other)?;
        whole = forms.and(whole, fails)?;
    }
    for _ in 0..ARGUMENTS {
        whole = forms.exists(0, whole)?;
    }
    let whole = forms.and(all, whole)?;
    let verdict = forms.verdict_on(alloc, &signature, whole)?;
    Ok(kind_of(&verdict))
}

#[test]
fn values_of_the_same_elements(rt: HostRuntime) -> Result<(), Fail> {
    assert!(rt; many_flags(rt.alloc(), true)? == Kind::Safe);
    Ok(())
}

#[test]
fn values_that_become_the_same(rt: HostRuntime) -> Result<(), Fail> {
    assert!(rt; many_flags(rt.alloc(), false)? == Kind::Found);
    Ok(())
}
