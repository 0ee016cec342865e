//! All pairs of as many terms as there may be: one sort, and a function to truth values.

use crate::problem::{Problem, exist};
use decide_trial::{Forms, signature_of};
use form_formula::{FunSig, Range, Signature};
use sqlite_items::Items;
use std::alloc::{AllocError, Global};

/// Of each two elements that differ the second is true.
fn each_other(forms: &mut Forms) -> Result<u32, AllocError> {
    let left = forms.bound(0, 0)?;
    let right = forms.bound(0, 1)?;
    let same = forms.equal(left, right)?;
    let holds = forms.flag(0, right)?;
    let either = forms.or(same, holds)?;
    let each = forms.forall(0, either)?;
    forms.forall(0, each)
}

/// That there are so many elements, of which the first is not true, and each is true that differs
/// from some; and perhaps that the first and the second differ.
pub fn pairs(alloc: Global, elements: u32, differ: bool) -> Result<Problem, AllocError> {
    let mut forms = Forms::new(alloc)?;
    let first = forms.bound(0, 0)?;
    let holds = forms.flag(0, first)?;
    let mut whole = forms.not(holds)?;
    if differ {
        let second = forms.bound(0, 1)?;
        let same = forms.equal(first, second)?;
        let differs = forms.not(same)?;
        whole = forms.and(whole, differs)?;
    }
    let whole = exist(&mut forms, 0, elements, whole)?;
    let each = each_other(&mut forms)?;
    let formula = forms.and(each, whole)?;
    Ok(Problem {
        signature: signature(alloc)?,
        forms,
        formula,
    })
}

/// One sort with a flag.
fn signature(alloc: Global) -> Result<Signature, AllocError> {
    let flag = FunSig {
        from: 0,
        to: Range::Flag,
        partial: false,
    };
    let funs = Items::from_slice(alloc, &[flag])?;
    signature_of(1, funs, Items::new(alloc))
}
