//! Numbers that differ: one sort, and a function to numbers.

use crate::problem::{Problem, exist};
use decide_trial::{Forms, signature_of};
use form_formula::{FunSig, Range, Signature};
use sqlite_items::Items;
use std::alloc::{AllocError, Global};

/// That the number of a variable is below that of another.
fn is_below(forms: &mut Forms, left: u32, right: u32) -> Result<u32, AllocError> {
    let left = forms.bound(0, left)?;
    let right = forms.bound(0, right)?;
    let low = forms.app(0, left)?;
    let high = forms.app(0, right)?;
    forms.less(low, high)
}

/// Of each two elements that differ one has a number below that of the other.
fn all_differ(forms: &mut Forms) -> Result<u32, AllocError> {
    let left = forms.bound(0, 0)?;
    let right = forms.bound(0, 1)?;
    let same = forms.equal(left, right)?;
    let up = is_below(forms, 0, 1)?;
    let down = is_below(forms, 1, 0)?;
    let either = forms.or(up, down)?;
    let either = forms.or(same, either)?;
    let each = forms.forall(0, either)?;
    forms.forall(0, each)
}

/// That there are so many elements with rising numbers, and that elements with one number are the
/// same; and perhaps that the last has a number below that of the first, which is not so.
pub fn ranks(alloc: Global, elements: u32, is_closed: bool) -> Result<Problem, AllocError> {
    let mut forms = Forms::new(alloc)?;
    let last = elements.saturating_sub(1);
    let mut whole = forms.yes()?;
    if is_closed {
        whole = is_below(&mut forms, last, 0)?;
    }
    for turn in 0..last {
        let rises = is_below(&mut forms, turn, turn.saturating_add(1))?;
        whole = forms.and(whole, rises)?;
    }
    let whole = exist(&mut forms, 0, elements, whole)?;
    let each = all_differ(&mut forms)?;
    let formula = forms.and(each, whole)?;
    Ok(Problem {
        signature: signature(alloc)?,
        forms,
        formula,
    })
}

/// One sort with a number.
fn signature(alloc: Global) -> Result<Signature, AllocError> {
    let number = FunSig {
        from: 0,
        to: Range::Num,
        partial: false,
    };
    let funs = Items::from_slice(alloc, &[number])?;
    signature_of(1, funs, Items::new(alloc))
}
