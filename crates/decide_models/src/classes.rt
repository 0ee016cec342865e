//! The numbers that the terms of a sort have.

ghost use Rattle.std.specs.Prelude.{◌≡◌, ◌==◌, ◌<◌, [], ◌∷◌, ◌++◌, All, cond, length, slice_get};
ghost use Rattle.std.specs.Prelude.{IfOk, OnOk};
ghost use Rattle.std.specs.List.{flat_map, list_any};
ghost use Rattle.std.specs.Option.{option_to_list};
ghost use Rattle.form_terms.specs.GroundTerms.{target_of};
ghost use Rattle.form_terms.specs.Listing.{unique};
ghost use Rattle.decide_models.specs.Columns.{class_at, class_in_sort, class_lists, classes_at, sort_at};

use crate::found::Found;
use form_formula::{Range, SVal, Signature};
use ground_terms::{TermArena, TermNode};
use sqlite_items::Items;
use std::alloc::{AllocError, Global};

/// The number that a term has as an element.
pub(crate) fn class_at(found: &Found, id: u32) -> Option<u32>
    ensures { result ≡ class_at found.now.values id }
{
    match found.values.get(id as usize)? {
        Some(SVal::Rec(class)) => Some(*class),
        Some(SVal::Flag(_) | SVal::Num(_) | SVal::Str(_)) | None => None,
    }
}

/// The sort whose elements a function gives, if it gives elements.
fn target_of(signature: &Signature, h: u32) -> Option<u32>
    ensures { result ≡ target_of signature.now h }
{
    match signature.funs.get(h as usize)?.to {
        Range::Rec(sort) => Some(sort),
        Range::Flag | Range::Num | Range::Str => None,
    }
}

/// The sort of a term.
pub(crate) fn sort_at(signature: &Signature, terms: &TermArena, id: u32) -> Option<u32>
    requires { id < length terms.now }
    ensures { result ≡ sort_at signature.now terms.now id }
{
    match terms.node(id) {
        TermNode::Constant(sort) | TermNode::Skolem(_, sort, _) => Some(sort),
        TermNode::Field(h, _) => target_of(signature, h),
        TermNode::Empty | TermNode::Cons(..) => None,
    }
}

/// The number that a term has as an element of a sort.
fn class_in_sort(
    signature: &Signature,
    terms: &TermArena,
    found: &Found,
    sort: u32,
    id: u32,
) -> Option<u32>
    requires { id < length terms.now }
    ensures { option_to_list result ≡ class_in_sort signature.now terms.now found.now sort id }
{
    if sort_at(signature, terms, id)? == sort {
        class_at(found, id)
    } else {
        None
    }
}

/// The numbers that terms have as elements of a sort.
fn classes_told(
    alloc: Global,
    signature: &Signature,
    terms: &TermArena,
    found: &Found,
    named: &[u32],
    sort: u32,
) -> Result<Vec<u32>, AllocError>
    requires { All (λ id. id < length terms.now) named.now }
    ensures { IfOk result (λ classes. classes.items ≡ flat_map (class_in_sort signature.now
        terms.now found.now sort) named.now) }
{
    let mut classes = Vec::new(alloc);
    for id in named {
        if let Some(class) = class_in_sort(signature, terms, found, sort, *id) {
            classes.push(class)?;
        }
    }
    Ok(classes)
}

/// Keeps an item that is not there yet.
fn keep(item: u32, kept: &mut Vec<u32>) -> Result<(), AllocError>
    ensures { OnOk result (kept.new.items ≡ cond (list_any (λ k. k == item) kept.old.items)
        kept.old.items (kept.old.items ++ item ∷ [])) }
{
    if !kept.contains(&item) {
        kept.push(item)?;
    }
    Ok(())
}

/// The items of a list, each once, where it stands last.
fn unique(alloc: Global, items: &[u32]) -> Result<Vec<u32>, AllocError>
    ensures { IfOk result (λ kept. kept.items ≡ unique (λ j k. j == k) items.now) }
{
    let mut kept = Vec::new(alloc);
    let mut left = items.len();
    'left: while left > 0 {
        left -= 1;
        keep(items[left], &mut kept)?;
    }
    kept.reverse();
    Ok(kept)
}

/// The numbers of the elements of a sort.
fn classes_at(
    alloc: Global,
    signature: &Signature,
    terms: &TermArena,
    found: &Found,
    named: &[u32],
    sort: u32,
) -> Result<Items<u32>, AllocError>
    requires { All (λ id. id < length terms.now) named.now }
    ensures { IfOk result (λ classes. classes ≡ classes_at signature.now terms.now found.now
        named.now sort) }
{
    let told = classes_told(alloc, signature, terms, found, named, sort)?;
    let classes = unique(alloc, told.as_slice())?;
    Ok(Items::from_vec(classes))
}

/// The numbers of the elements of each sort.
pub(crate) fn class_lists(
    alloc: Global,
    signature: &Signature,
    terms: &TermArena,
    found: &Found,
    named: &[u32],
) -> Result<Items<Items<u32>>, AllocError>
    requires { All (λ id. id < length terms.now) named.now }
    ensures { IfOk result (λ all. all ≡ class_lists signature.now terms.now found.now named.now) }
{
    let mut all = Items::new(alloc);
    for sort in 0..signature.sorts {
        let classes = classes_at(alloc, signature, terms, found, named, sort)?;
        all.push(classes)?;
    }
    Ok(all)
}
