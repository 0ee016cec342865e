//! The elements that terms name.

ghost use Rattle.std.specs.Prelude.{◌≡◌, ◌<◌, length, map, position, slice_get, slice_index_or};
ghost use Rattle.std.specs.Prelude.{None, ◌==◌, IfOk, unwrap_or};
ghost use Rattle.decide_models.specs.Columns.{default_at, default_list, element_at, element_list};
ghost use Rattle.decide_models.specs.Columns.{classes_of, is_constant, place_in, size_list, size_of_sort};
ghost use Rattle.decide_models.specs.Columns.{element_in};

use crate::classes::{class_at, sort_at};
use crate::found::Found;
use form_formula::Signature;
use ground_terms::{TermArena, TermNode};
use sqlite_items::Items;
use std::alloc::{AllocError, Global};

/// A number of 32 bits. A larger one counts as memory that is not there.
pub(crate) fn short(number: usize) -> Result<u32, AllocError>
    ensures { IfOk result (λ short. short ≡ number) }
{
    if number > u32::MAX as usize {
        return Err(AllocError);
    }
    Ok(number as u32)
}

/// The numbers of the elements of a sort.
pub(crate) fn classes_of(all: &Items<Items<u32>>, sort: u32) -> &[u32]
    ensures { result.now ≡ classes_of all.now sort }
{
    match all.get(sort as usize) {
        Some(classes) => classes.as_slice(),
        None => &[],
    }
}

/// The first place of a number.
fn place_of(classes: &[u32], class: u32) -> Option<usize>
    ensures { result ≡ position (λ j. j == class) classes.now }
{
    classes.iter().position(|k| *k == class)
}

/// The place of an element among those of its sort, by its number.
pub(crate) fn place_in(all: &Items<Items<u32>>, sort: u32, class: u32) -> Result<u32, AllocError>
    ensures { IfOk result (λ place. place ≡ place_in all.now sort class) }
{
    match place_of(classes_of(all, sort), class) {
        Some(place) => short(place),
        None => Ok(0),
    }
}

/// The element that a term names.
fn element_at(
    signature: &Signature,
    terms: &TermArena,
    found: &Found,
    all: &Items<Items<u32>>,
    id: u32,
) -> Result<Option<u32>, AllocError>
    requires { id < length terms.now }
    ensures { IfOk result (λ element. element ≡ element_at signature.now terms.now found.now
        all.now id) }
{
    let Some(sort) = sort_at(signature, terms, id) else {
        return Ok(None);
    };
    let Some(class) = class_at(found, id) else {
        return Ok(None);
    };
    let place = place_in(all, sort, class)?;
    Ok(Some(place))
}

/// The element that each term names, by the terms' numbers.
#[tactic(auto, using(crate::proofs::Steps::map_range_more))]
pub(crate) fn element_list(
    alloc: Global,
    signature: &Signature,
    terms: &TermArena,
    found: &Found,
    all: &Items<Items<u32>>,
) -> Result<Items<Option<u32>>, AllocError>
    ensures { IfOk result (λ elements. elements ≡ element_list signature.now terms.now found.now
        all.now) }
{
    let mut elements = Items::new(alloc);
    for id in 0..terms.len() as u32 {
        let element = element_at(signature, terms, found, all, id)?;
        elements.push(element)?;
    }
    Ok(elements)
}

/// Whether a node is the constant of a sort.
fn is_constant(sort: u32, node: TermNode) -> bool
    ensures { result ≡ is_constant sort node }
{
    match node {
        TermNode::Constant(own) => own == sort,
        TermNode::Skolem(..) | TermNode::Field(..) | TermNode::Empty | TermNode::Cons(..) => false,
    }
}

/// The number of the constant of a sort.
fn constant_of(terms: &TermArena, sort: u32) -> Option<u32>
    ensures { result ≡ position (is_constant sort) terms.now }
{
    for id in 0..terms.len() as u32 {
        if is_constant(sort, terms.node(id)) {
            return Some(id);
        }
    }
    None
}

/// The element that a term names, or the first one.
pub(crate) fn element_or_first(elements: &Items<Option<u32>>, id: u32) -> u32
    ensures { result ≡ unwrap_or (element_in elements.now id) 0 }
{
    match elements.get(id as usize) {
        Some(Some(element)) => *element,
        Some(None) | None => 0,
    }
}

/// The element of the constant of a sort, or the first one.
fn default_at(terms: &TermArena, elements: &Items<Option<u32>>, sort: u32) -> u32
    ensures { result ≡ default_at terms.now elements.now sort }
{
    match constant_of(terms, sort) {
        Some(id) => element_or_first(elements, id),
        None => 0,
    }
}

/// The default of each sort.
#[tactic(auto, using(crate::proofs::Steps::map_range_more))]
pub(crate) fn default_list(
    alloc: Global,
    signature: &Signature,
    terms: &TermArena,
    elements: &Items<Option<u32>>,
) -> Result<Items<u32>, AllocError>
    ensures { IfOk result (λ defaults. defaults ≡ default_list signature.now terms.now
        elements.now) }
{
    let mut defaults = Items::new(alloc);
    for sort in 0..signature.sorts {
        defaults.push(default_at(terms, elements, sort))?;
    }
    Ok(defaults)
}

/// How many elements a sort has.
pub(crate) fn size_of_sort(
    found: &Found,
    all: &Items<Items<u32>>,
    sort: u32,
) -> Result<u32, AllocError>
    ensures { IfOk result (λ size. size ≡ size_of_sort found.now.empty all.now sort) }
{
    match found.empty.get(sort as usize) {
        Some(true) => Ok(0),
        Some(false) | None => short(classes_of(all, sort).len().max(1)),
    }
}

/// How many elements each sort has.
#[tactic(auto, using(crate::proofs::Steps::map_range_more))]
pub(crate) fn size_list(
    alloc: Global,
    signature: &Signature,
    found: &Found,
    all: &Items<Items<u32>>,
) -> Result<Items<u32>, AllocError>
    ensures { IfOk result (λ sizes. sizes ≡ size_list signature.now found.now.empty all.now) }
{
    let mut sizes = Items::new(alloc);
    for sort in 0..signature.sorts {
        let size = size_of_sort(found, all, sort)?;
        sizes.push(size)?;
    }
    Ok(sizes)
}
