//! Formulas that are decided by what is the same at the same elements.

use crate::tests::signatures::function_to;
use crate::tests::verdicts::{Kind, kind_of};
use decide_trial::Forms;
use form_formula::{Range, Signature};
use std::alloc::{AllocError, Global};
use std::test::Fail;

/// Two elements of which one has a truth value that the other has not, and which may be the same.
fn differ(alloc: Global, same: bool) -> Result<Kind, AllocError> {
    let signature = function_to(alloc, Range::Flag, false)?;
    let mut forms = Forms::new(alloc)?;
    let x = forms.bound(0, 0)?;
    let y = forms.bound(0, 1)?;
    let left = forms.flag(0, x)?;
    let right = forms.flag(0, y)?;
    let fails = forms.not(right)?;
    let mut whole = forms.and(left, fails)?;
    if same {
        let one = forms.equal(x, y)?;
        whole = forms.and(one, whole)?;
    }
    let whole = forms.exists(0, whole)?;
    let whole = forms.exists(0, whole)?;
    let verdict = forms.verdict_on(alloc, &signature, whole)?;
    Ok(kind_of(&verdict))
}

#[test]
fn the_same_elements_have_the_same(rt: HostRuntime) -> Result<(), Fail> {
    assert!(rt; differ(rt.alloc(), true)? == Kind::Safe);
    assert!(rt; differ(rt.alloc(), false)? == Kind::Found);
    Ok(())
}

/// Two elements that are the same, of which it is only asked whether a function gives a record at
/// them: at these two, or at all.
fn give(alloc: Global, signature: &Signature, all: bool) -> Result<Kind, AllocError> {
    let mut forms = Forms::new(alloc)?;
    let x = forms.bound(0, 0)?;
    let y = forms.bound(0, 1)?;
    let z = forms.bound(0, 2)?;
    let one = forms.equal(x, y)?;
    let left = forms.present(0, x)?;
    let right = forms.present(0, y)?;
    let each = forms.present(0, z)?;
    let gives = if all {
        forms.forall(0, each)?
    } else {
        forms.and(left, right)?
    };
    let whole = forms.and(one, gives)?;
    let whole = forms.exists(0, whole)?;
    let whole = forms.exists(0, whole)?;
    let verdict = forms.verdict_on(alloc, signature, whole)?;
    Ok(kind_of(&verdict))
}

#[test]
fn a_record_that_nothing_names(rt: HostRuntime) -> Result<(), Fail> {
    let other = function_to(rt.alloc(), Range::Rec(1), true)?;
    let own = function_to(rt.alloc(), Range::Rec(0), true)?;
    assert!(rt; give(rt.alloc(), &other, false)? == Kind::Found);
    assert!(rt; give(rt.alloc(), &other, true)? == Kind::Found);
    assert!(rt; give(rt.alloc(), &own, true)? == Kind::Found);
    Ok(())
}
