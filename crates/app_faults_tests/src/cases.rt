//! A line of the table.

use crate::objects::Object;
use std::alloc::{AllocError, Global};

/// A case: whose calls fail, each or every so many, whether something is stored before, and the words.
#[derive(Drop)]
pub(crate) struct Case<'t> {
    pub(crate) object: Object,
    pub(crate) step: u64,
    pub(crate) is_set: bool,
    pub(crate) words: Vec<&'t str>,
}

/// The object whose call the word is.
fn object_of(word: &str) -> Object {
    match word {
        "fetch" => Object::Shelf,
        "take" => Object::Input,
        "call" => Object::Store,
        "put" => Object::Output,
        _ => Object::Nothing,
    }
}

/// The case that the line is: the call that fails, how far one that is tried is from the next,
/// `set` or `empty`, and the words.
pub(crate) fn case_of<'t>(alloc: Global, line: &'t str) -> Result<Case<'t>, AllocError> {
    let mut parts = line.split(' ');
    let object = object_of(parts.next().unwrap_or(""));
    let step = parts.next().unwrap_or("").parse().unwrap_or(1);
    let is_set = parts.next() == Some("set");
    let mut words = Vec::new(alloc);
    for word in parts {
        words.push(word)?;
    }
    Ok(Case {
        object,
        step,
        is_set,
        words,
    })
}

/// The status of a run in which a call of the object failed.
pub(crate) fn status_of(object: Object) -> Option<u8> {
    match object {
        Object::Nothing => None,
        Object::Shelf | Object::Input => Some(10),
        Object::Output => Some(11),
        Object::Store => Some(12),
    }
}
