//! Functions in rows: three sorts, and so many functions from the first to the second as from there
//! to the third.

use crate::problem::Problem;
use decide_trial::{Forms, signature_of};
use form_formula::{FunSig, Range, Signature};
use sqlite_items::Items;
use std::alloc::{AllocError, Global};

/// Three sorts, with so many total functions from each of the first two to the next.
fn signature(alloc: Global, count: u32) -> Result<Signature, AllocError> {
    let mut funs = Items::new(alloc);
    for from in 0..2_u32 {
        for _ in 0..count {
            funs.push(FunSig {
                from,
                to: Range::Rec(from + 1),
                partial: false,
            })?;
        }
    }
    signature_of(3, funs, Items::new(alloc))
}

/// That two functions in a row do not lead from the element of the first sort to that of the third.
fn differs(forms: &mut Forms, count: u32, row: u32) -> Result<u32, AllocError> {
    let start = forms.bound(0, 2)?;
    let middle = forms.app(row, start)?;
    let end = forms.app(count.saturating_add(row), middle)?;
    let other = forms.bound(2, 1)?;
    let same = forms.equal(other, end)?;
    forms.not(same)
}

/// That there is an element of the third sort to which no two functions in a row lead.
pub fn rows(alloc: Global, count: u32) -> Result<Problem, AllocError> {
    let mut forms = Forms::new(alloc)?;
    let mut none = differs(&mut forms, count, 0)?;
    for row in 1..count {
        let other = differs(&mut forms, count, row)?;
        none = forms.and(none, other)?;
    }
    let no = forms.no()?;
    let each = forms.or(no, none)?;
    let each = forms.forall(0, each)?;
    let yes = forms.yes()?;
    let whole = forms.and(yes, each)?;
    let whole = forms.exists(2, whole)?;
    let formula = forms.exists(2, whole)?;
    Ok(Problem {
        signature: signature(alloc, count)?,
        forms,
        formula,
    })
}
