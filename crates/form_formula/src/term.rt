//! The values of terms on a structure.

ghost use Rattle.std.specs.Prelude.{◌≡◌, [], slice_get, IfOk, OnErr};
ghost use Rattle.std.specs.Option.{option_map};
ghost use Rattle.form_formula.specs.Nodes.{IsTerm, term_of};
ghost use Rattle.form_formula.specs.Truth.{value_of, element_of, entry_at, element_at};
ghost use Rattle.form_formula.specs.Values.{sval_of, own_value, applied, apply_to};

use crate::arena::Arena;
use crate::node::Node;
use crate::structure::{SVal, Structure};
use crate::value::{Value, entry};
use std::alloc::{AllocError, Global};

/// A structure, an arena, and the elements of the variables above, the outermost first.
#[derive(Clone, Copy)]
pub(crate) struct Reading<'a> {
    pub(crate) structure: &'a Structure,
    pub(crate) arena: &'a Arena,
    pub(crate) elements: &'a [u32],
}

/// The value of a term.
///
/// A term is as deep as it is long, so the functions on the way to its innermost part wait in a
/// list.
pub(crate) fn value_of<'a>(
    alloc: Global,
    reading: Reading<'a>,
    id: u32,
) -> Result<Option<Value<'a>>, AllocError>
    requires { IsTerm reading.arena.now id }
    ensures { IfOk result (λ value. option_map sval_of value
        ≡ value_of reading.entry.structure.now reading.entry.elements.now
        (term_of reading.entry.arena.now id)) }
{
    let mut functions = Vec::new(alloc);
    let mut value = innermost(reading, id, &mut functions)?;
    while let Some(f) = functions.pop() {
        value = applied_to(reading.structure, f, value);
    }
    Ok(value)
}

/// The value of the innermost part of a term, with the functions that are applied to it, the
/// outermost first.
fn innermost<'a>(
    reading: Reading<'a>,
    id: u32,
    functions: &mut Vec<u32>,
) -> Result<Option<Value<'a>>, AllocError>
    requires term { IsTerm reading.arena.now id }
    requires empty { functions.old.items ≡ [] }
    ensures { IfOk result
        (λ value. applied reading.entry.structure.now functions.new.items (option_map sval_of value)
        ≡ value_of reading.entry.structure.now reading.entry.elements.now
        (term_of reading.entry.arena.now id)) }
{
    let mut at = id;
    loop {
        match reading.arena.node(at) {
            Node::App(f, t) => {
                functions.push(*f)?;
                at = *t;
            }
            node => return Ok(own_value(reading.elements, node)),
        }
    }
}

/// The value of a node that has one by itself.
fn own_value<'a>(elements: &[u32], node: &'a Node) -> Option<Value<'a>>
    ensures { option_map sval_of result ≡ own_value elements.now node.now }
{
    match node {
        Node::Bound(_, depth) => element_value(elements, *depth),
        Node::Num(n) => Some(Value::Num(*n)),
        Node::Str(t) => Some(Value::Str(t)),
        Node::App(..)
        | Node::Yes
        | Node::No
        | Node::Eq(..)
        | Node::Less(..)
        | Node::Has(..)
        | Node::Flag(..)
        | Node::Present(..)
        | Node::Not(_)
        | Node::And(..)
        | Node::Or(..)
        | Node::Exists(..)
        | Node::Forall(..) => None,
    }
}

/// The element of the variable that so many quantifiers stand above.
fn element_value<'a>(elements: &[u32], depth: u32) -> Option<Value<'a>>
    ensures { option_map sval_of result
        ≡ option_map (λ x. SVal.Rec x) (slice_get elements.now depth) }
{
    match elements.get(depth as usize) {
        Some(x) => Some(Value::Rec(*x)),
        None => None,
    }
}

/// What a function has at a value.
fn applied_to<'a>(structure: &'a Structure, f: u32, value: Option<Value<'a>>) -> Option<Value<'a>>
    ensures { option_map sval_of result
        ≡ apply_to structure.entry.now f (option_map sval_of value.entry) }
{
    match value?.element() {
        Some(x) => entry(structure, f, x),
        None => None,
    }
}
