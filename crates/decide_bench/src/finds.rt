//! Sets of records that are nested in each other: notes have a group, and memberships have a user,
//! a group and a level. The set of a note are the users of the memberships that five steps from the
//! note lead to, from a group to its memberships and from a user to theirs in turn, with some least
//! level.

use crate::problem::{Problem, exist};
use decide_trial::{Forms, signature_of};
use form_formula::{FunSig, Range, Signature};
use sqlite_items::Items;
use std::alloc::{AllocError, Global};

/// The sorts.
const USER: u32 = 0;

const GROUP: u32 = 1;

const MEMBERSHIP: u32 = 2;

const NOTE: u32 = 3;

/// The functions.
const USER_OF: u32 = 0;

const GROUP_OF: u32 = 1;

const LEVEL_OF: u32 = 2;

const GROUP_OF_NOTE: u32 = 3;

/// How many steps lead to the users of a set.
const STEPS: u32 = 5;

/// A user who is in one set and not in another.
#[derive(Clone, Copy)]
pub struct Finds {
    /// How many memberships of the user there are besides.
    pub others: u32,
    /// How many filters on levels the last step has.
    pub filters: u32,
    /// Whether the first set has the lower levels.
    pub loosened: bool,
}

/// A total function.
fn total(from: u32, to: Range) -> FunSig {
    FunSig {
        from,
        to,
        partial: false,
    }
}

/// Users, groups, memberships and notes, by the fields that are read.
fn signature(alloc: Global) -> Result<Signature, AllocError> {
    let funs = [
        total(MEMBERSHIP, Range::Rec(USER)),
        total(MEMBERSHIP, Range::Rec(GROUP)),
        total(MEMBERSHIP, Range::Num),
        total(NOTE, Range::Rec(GROUP)),
    ];
    signature_of(4, Items::from_slice(alloc, &funs)?, Items::new(alloc))
}

/// That a step from the note or from the membership before leads to one of this depth.
fn step(forms: &mut Forms, turn: u32, depth: u32) -> Result<u32, AllocError> {
    let own = forms.bound(MEMBERSHIP, depth)?;
    if turn == 0 {
        let note = forms.bound(NOTE, 0)?;
        let left = forms.app(GROUP_OF, own)?;
        let right = forms.app(GROUP_OF_NOTE, note)?;
        return forms.equal(left, right);
    }
    let before = forms.bound(MEMBERSHIP, depth.saturating_sub(1))?;
    let field = if turn % 2 == 1 { USER_OF } else { GROUP_OF };
    let left = forms.app(field, own)?;
    let right = forms.app(field, before)?;
    forms.equal(left, right)
}

/// That the membership of this depth is the user's, with a level above some numbers.
fn last(forms: &mut Forms, depth: u32, filters: u32, least: i64) -> Result<u32, AllocError> {
    let own = forms.bound(MEMBERSHIP, depth)?;
    let user = forms.bound(USER, 1)?;
    let field = forms.app(USER_OF, own)?;
    let level = forms.app(LEVEL_OF, own)?;
    let mut whole = forms.equal(field, user)?;
    for turn in 0..filters {
        let number = forms.num(least.saturating_sub(i64::from(turn)))?;
        let above = forms.less(number, level)?;
        whole = forms.and(whole, above)?;
    }
    Ok(whole)
}

/// That the user is in the set of the note, below so many quantifiers.
fn is_in(forms: &mut Forms, above: u32, filters: u32, least: i64) -> Result<u32, AllocError> {
    let innermost = above.saturating_add(STEPS - 1);
    let mut whole = last(forms, innermost, filters, least)?;
    for turn in (0..STEPS).rev() {
        let leads = step(forms, turn, above.saturating_add(turn))?;
        let both = forms.and(leads, whole)?;
        whole = forms.exists(MEMBERSHIP, both)?;
    }
    Ok(whole)
}

/// That the memberships besides are the user's.
fn are_theirs(forms: &mut Forms, others: u32) -> Result<u32, AllocError> {
    let user = forms.bound(USER, 1)?;
    let mut whole = forms.yes()?;
    for turn in 0..others {
        let own = forms.bound(MEMBERSHIP, turn.saturating_add(2))?;
        let field = forms.app(USER_OF, own)?;
        let is_theirs = forms.equal(field, user)?;
        whole = forms.and(whole, is_theirs)?;
    }
    Ok(whole)
}

/// That some user is in one set of some note and not in another.
pub fn gain(alloc: Global, finds: Finds) -> Result<Problem, AllocError> {
    let (new, old) = if finds.loosened { (0, 9) } else { (9, 0) };
    let mut forms = Forms::new(alloc)?;
    let above = finds.others.saturating_add(2);
    let before = is_in(&mut forms, above, finds.filters, old)?;
    let not_before = forms.not(before)?;
    let after = is_in(&mut forms, above, finds.filters, new)?;
    let gains = forms.and(after, not_before)?;
    let others = are_theirs(&mut forms, finds.others)?;
    let whole = forms.and(others, gains)?;
    let whole = exist(&mut forms, MEMBERSHIP, finds.others, whole)?;
    let whole = forms.exists(USER, whole)?;
    let formula = forms.exists(NOTE, whole)?;
    Ok(Problem {
        signature: signature(alloc)?,
        forms,
        formula,
    })
}
