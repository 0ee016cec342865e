//! A transitive relation: one sort, and a set relation between its elements.

use crate::problem::{Problem, exist};
use decide_trial::{Forms, signature_of};
use form_formula::{SetSig, Signature};
use sqlite_items::Items;
use std::alloc::{AllocError, Global};

/// That two variables are related.
fn related(forms: &mut Forms, left: u32, right: u32) -> Result<u32, AllocError> {
    let left = forms.bound(0, left)?;
    let right = forms.bound(0, right)?;
    forms.has(0, left, right)
}

/// That the relation is transitive.
fn transitive(forms: &mut Forms) -> Result<u32, AllocError> {
    let first = related(forms, 0, 1)?;
    let second = related(forms, 1, 2)?;
    let both = related(forms, 0, 2)?;
    let not_first = forms.not(first)?;
    let not_second = forms.not(second)?;
    let fails = forms.or(not_first, not_second)?;
    let mut whole = forms.or(fails, both)?;
    for _ in 0..3_u32 {
        whole = forms.forall(0, whole)?;
    }
    Ok(whole)
}

/// That there are so many elements, each related to the next, and that the last is not related to
/// the first; or the first not to the last, which is not so.
pub fn chain(alloc: Global, elements: u32, is_open: bool) -> Result<Problem, AllocError> {
    let mut forms = Forms::new(alloc)?;
    let last = elements.saturating_sub(1);
    let closes = if is_open {
        related(&mut forms, last, 0)?
    } else {
        related(&mut forms, 0, last)?
    };
    let mut whole = forms.not(closes)?;
    for turn in 0..last {
        let follows = related(&mut forms, turn, turn.saturating_add(1))?;
        whole = forms.and(whole, follows)?;
    }
    let whole = exist(&mut forms, 0, elements, whole)?;
    let all = transitive(&mut forms)?;
    let formula = forms.and(all, whole)?;
    Ok(Problem {
        signature: signature(alloc)?,
        forms,
        formula,
    })
}

/// One sort with a relation on it.
fn signature(alloc: Global) -> Result<Signature, AllocError> {
    let sets = Items::from_slice(alloc, &[SetSig { from: 0, to: 0 }])?;
    signature_of(1, Items::new(alloc), sets)
}
