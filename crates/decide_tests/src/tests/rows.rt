//! Formulas without cycles.

use crate::tests::signatures::{function_to, related_back};
use crate::tests::verdicts::{Kind, kind_of};
use decide_trial::Forms;
use decide_verdict::Verdict;
use form_formula::{Range, SVal};
use std::alloc::{AllocError, Global};
use std::test::Fail;

/// There is an element of sort 0; each is related to one of sort 1; and there is none of sort 1.
#[derive(Clone, Copy)]
struct Parts {
    some: u32,
    each: u32,
    none: u32,
}

fn make_parts(forms: &mut Forms) -> Result<Parts, AllocError> {
    let yes = forms.yes()?;
    let some = forms.exists(0, yes)?;
    let x = forms.bound(0, 0)?;
    let y = forms.bound(1, 1)?;
    let holds = forms.has(0, y, x)?;
    let other = forms.exists(1, holds)?;
    let each = forms.forall(0, other)?;
    let no = forms.no()?;
    let none = forms.forall(1, no)?;
    Ok(Parts { some, each, none })
}

/// All three parts cannot be true, and two of them can.
fn related(alloc: Global, first: bool, last: bool) -> Result<Kind, AllocError> {
    let signature = related_back(alloc)?;
    let mut forms = Forms::new(alloc)?;
    let parts = make_parts(&mut forms)?;
    let mut whole = parts.each;
    if last {
        whole = forms.and(whole, parts.none)?;
    }
    if first {
        whole = forms.and(parts.some, whole)?;
    }
    let verdict = forms.verdict_on(alloc, &signature, whole)?;
    Ok(kind_of(&verdict))
}

#[test]
fn elements_need_others(rt: HostRuntime) -> Result<(), Fail> {
    assert!(rt; related(rt.alloc(), true, true)? == Kind::Safe);
    assert!(rt; related(rt.alloc(), true, false)? == Kind::Found);
    assert!(rt; related(rt.alloc(), false, true)? == Kind::Found);
    Ok(())
}

/// A function has a value, which no term names.
fn unnamed(alloc: Global) -> Result<Kind, AllocError> {
    let signature = function_to(alloc, Range::Rec(1), true)?;
    let mut forms = Forms::new(alloc)?;
    let x = forms.bound(0, 0)?;
    let there = forms.present(0, x)?;
    let whole = forms.exists(0, there)?;
    let verdict = forms.verdict_on(alloc, &signature, whole)?;
    Ok(kind_of(&verdict))
}

#[test]
fn a_value_that_nothing_names(rt: HostRuntime) -> Result<(), Fail> {
    assert!(rt; unnamed(rt.alloc())? == Kind::Found);
    Ok(())
}

/// Some number is above the first, and below the second if there is one.
fn between(alloc: Global, low: i64, high: Option<i64>) -> Result<Verdict, AllocError> {
    let signature = function_to(alloc, Range::Num, false)?;
    let mut forms = Forms::new(alloc)?;
    let x = forms.bound(0, 0)?;
    let number = forms.app(0, x)?;
    let least = forms.num(low)?;
    let mut whole = forms.less(least, number)?;
    if let Some(high) = high {
        let most = forms.num(high)?;
        let below = forms.less(number, most)?;
        whole = forms.and(whole, below)?;
    }
    let some = forms.exists(0, whole)?;
    forms.verdict_on(alloc, &signature, some)
}

/// Whether it was found that the only element has this number.
fn has_number(verdict: &Verdict, number: i64) -> bool {
    let Verdict::Found(structure, _) = verdict else {
        return false;
    };
    let Some(function) = structure.funs.get(0) else {
        return false;
    };
    match function.get(0) {
        Some(Some(SVal::Num(n))) => function.len() == 1 && *n == number,
        _ => false,
    }
}

#[test]
fn numbers_are_whole_and_end(rt: HostRuntime) -> Result<(), Fail> {
    let above = between(rt.alloc(), i64::MAX, None)?;
    assert!(rt; kind_of(&above) == Kind::Safe);
    let four = between(rt.alloc(), 3, Some(5))?;
    assert!(rt; has_number(&four, 4));
    Ok(())
}
