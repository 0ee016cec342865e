//! The classes of records that no term names.

use crate::sides::Reader;
use decide_reading::range_at;
use form_formula::Range;
use ground_terms::TermNode;
use indexmap::IndexMap;
use std::alloc::{AllocError, Global};

/// A function, and the class of its argument.
#[derive(Clone, Copy, Debug, PartialEq, Eq, Hash)]
struct Call {
    function: u32,
    argument: u32,
}

/// The function at an argument that a term is, if it gives a record and the argument is there.
fn call_of(reader: Reader<'_>, there: &[bool], classes: &[u32], id: u32) -> Option<Call> {
    if id as usize >= reader.terms.len() {
        return None;
    }
    match (
        range_at(reader.signature, reader.terms, id)?,
        reader.terms.node(id),
    ) {
        (Range::Rec(_), TermNode::Field(function, t)) => {
            if !there.get(t as usize).copied()? {
                return None;
            }
            let argument = classes.get(t as usize).copied()?;
            Some(Call { function, argument })
        }
        (Range::Rec(_) | Range::Flag | Range::Num | Range::Str, _) => None,
    }
}

/// The class that was noted first for a call, which is this one if there was none.
fn first_class(
    firsts: &mut IndexMap<Call, u32>,
    call: Call,
    class: u32,
) -> Result<u32, AllocError> {
    if let Some(first) = firsts.get(&call).copied() {
        return Ok(first);
    }
    firsts.insert(call, class)?;
    Ok(class)
}

/// For each call among terms that name records, the class of the first. What has an argument that is
/// not there is not there either, and its class says nothing.
fn named_calls(
    alloc: Global,
    reader: Reader<'_>,
    there: &[bool],
    classes: &[u32],
) -> Result<IndexMap<Call, u32>, AllocError> {
    let mut firsts = IndexMap::new(alloc);
    for id in reader.words.named.as_slice() {
        let class = classes.get(*id as usize).copied();
        if let (Some(call), Some(class)) = (call_of(reader, there, classes, *id), class) {
            first_class(&mut firsts, call, class)?;
        }
    }
    Ok(firsts)
}

/// The classes of terms, where a record of which nothing is said but that it is there is the same
/// as the first that its function gives at the same argument.
pub(crate) fn with_unnamed(
    alloc: Global,
    reader: Reader<'_>,
    there: &[bool],
    classes: &[u32],
) -> Result<Vec<u32>, AllocError> {
    let mut firsts = named_calls(alloc, reader, there, classes)?;
    let mut all = Vec::from_slice(alloc, classes)?;
    for id in reader.words.others.as_slice() {
        let place = *id as usize;
        if let (Some(call), true) = (call_of(reader, there, classes, *id), place < all.len()) {
            all[place] = first_class(&mut firsts, call, all[place])?;
        }
    }
    Ok(all)
}
