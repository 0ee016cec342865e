//! Formulas whose sort graph has a cycle.

use crate::tests::signatures::{function_to, related_within};
use crate::tests::verdicts::{Kind, kind_of};
use decide_trial::Forms;
use decide_verdict::Verdict;
use form_formula::Range;
use std::alloc::{AllocError, Global};
use std::test::Fail;

/// There is an element, each is related to one, and none is.
fn related_to_none(alloc: Global) -> Result<Kind, AllocError> {
    let signature = related_within(alloc)?;
    let mut forms = Forms::new(alloc)?;
    let yes = forms.yes()?;
    let some = forms.exists(0, yes)?;
    let x = forms.bound(0, 0)?;
    let y = forms.bound(0, 1)?;
    let holds = forms.has(0, x, y)?;
    let other = forms.exists(0, holds)?;
    let each = forms.forall(0, other)?;
    let fails = forms.not(holds)?;
    let fails = forms.forall(0, fails)?;
    let none = forms.forall(0, fails)?;
    let whole = forms.and(each, none)?;
    let whole = forms.and(some, whole)?;
    let verdict = forms.verdict_on(alloc, &signature, whole)?;
    Ok(kind_of(&verdict))
}

/// There is an element, and each has a number below that of another: so there is no last one.
fn rising(alloc: Global) -> Result<Verdict, AllocError> {
    let signature = function_to(alloc, Range::Num, false)?;
    let mut forms = Forms::new(alloc)?;
    let yes = forms.yes()?;
    let some = forms.exists(0, yes)?;
    let x = forms.bound(0, 0)?;
    let y = forms.bound(0, 1)?;
    let low = forms.app(0, x)?;
    let high = forms.app(0, y)?;
    let below = forms.less(low, high)?;
    let other = forms.exists(0, below)?;
    let each = forms.forall(0, other)?;
    let whole = forms.and(some, each)?;
    forms.verdict_on(alloc, &signature, whole)
}

/// Whether it is not known, with this cycle.
fn is_unknown(verdict: &Verdict, cycle: &[u32]) -> bool {
    match verdict {
        Verdict::Unknown(own, Some(_)) => own.as_slice() == cycle,
        Verdict::Unknown(_, None) | Verdict::Safe | Verdict::Found(..) | Verdict::TooLarge(..) =>
            false,
    }
}

#[test]
fn cycles(rt: HostRuntime) -> Result<(), Fail> {
    assert!(rt; related_to_none(rt.alloc())? == Kind::Safe);
    let endless = rising(rt.alloc())?;
    assert!(rt; is_unknown(&endless, &[0, 0]));
    Ok(())
}
