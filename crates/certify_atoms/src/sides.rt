//! What values are to the decision procedures.

ghost use Rattle.std.specs.Prelude.{◌≡◌, ◌+◌, ◌++◌, ℕ, Some, true, false, Contains, length, slice_get};
ghost use Rattle.std.specs.Prelude.{IfSome};
ghost use Rattle.std.specs.Option.{IfNone};
ghost use Rattle.ground_terms.specs.Nodes.{IsOne, term_of};
ghost use Rattle.form_tables.specs.Consistent.{range_of};
ghost use Rattle.certify_atoms.specs.Atoms.{IsSide};

use form_formula::{Arena, Node, Range, Signature};
use ground_instances::Value;
use ground_problem::Words;
use ground_terms::{TermArena, TermNode};
use text_ast::Txt;

/// What a value is to the decision procedures.
#[derive(Clone, Copy, Debug)]
pub(crate) enum Side {
    /// An element of a sort, as a term of equality.
    Element(u32, u32),
    /// A text, as a term of equality.
    Text(u32),
    /// A number of differences, and so much.
    Number(u32, i64),
}

/// What values are read by.
#[derive(Clone, Copy)]
pub struct Reader<'a> {
    pub signature: &'a Signature,
    pub arena: &'a Arena,
    pub terms: &'a TermArena,
    pub words: &'a Words,
    /// The formula's texts.
    pub texts: &'a [Txt],
}

/// What a term may have, if the number is that of a term.
fn range_at(signature: &Signature, terms: &TermArena, id: u32) -> Option<Range>
    ensures one { IfSome result (λ _. IsOne terms.now id) }
    ensures range { IfSome result (λ range. range_of signature.now (term_of terms.now id) ≡ Some
        range) }
{
    if id as usize >= terms.len() {
        return None;
    }
    match terms.node(id) {
        TermNode::Constant(sort) | TermNode::Skolem(_, sort, _) => Some(Range::Rec(sort)),
        TermNode::Field(h, _) => {
            let sig = signature.funs.get(h as usize)?;
            Some(sig.to)
        }
        TermNode::Empty | TermNode::Cons(..) => None,
    }
}

/// Whether a number is found in a list without reading it whole; each is that is in one that rises.
fn is_found(ids: &Vec<u32>, id: u32) -> bool
    ensures { result ≡ true → Contains ids.now.items id }
{
    match ids.as_slice().binary_search(&id) {
        Ok(place) => ids.get(place) == Some(&id),
        Err(_) => false,
    }
}

/// Whether a number is in a list.
fn is_in(ids: &Vec<u32>, id: u32) -> bool
    ensures { result ≡ true → Contains ids.now.items id }
{
    ids.contains(&id)
}

/// Whether a number is found as that of a term of which a table tells.
fn is_listed_in_order(words: &Words, id: u32) -> bool
    ensures { result ≡ true → Contains (words.now.named.items ++ words.now.others.items) id }
{
    is_found(&words.named, id) || is_found(&words.others, id)
}

/// Whether a number is that of a term of which a table tells.
fn is_listed_anywhere(words: &Words, id: u32) -> bool
    ensures { result ≡ true → Contains (words.now.named.items ++ words.now.others.items) id }
{
    is_in(&words.named, id) || is_in(&words.others, id)
}

/// Whether a number is that of a term of which a table tells. The numbers stand in their order, so
/// that they are found at once; the lists are read whole for one that is not.
fn is_listed(words: &Words, id: u32) -> bool
    ensures { result ≡ true → Contains (words.now.named.items ++ words.now.others.items) id }
{
    is_listed_in_order(words, id) || is_listed_anywhere(words, id)
}

/// Whether two texts are one.
fn is_same_text(a: &Txt, b: &Txt) -> bool
    ensures yes { result ≡ true → a.now ≡ b.now }
    ensures no { result ≡ false → a.now ≡ b.now → ⊥ }
{
    a == b
}

/// The place of a text.
pub(crate) fn place_of(texts: &[Txt], text: &Txt) -> Option<usize>
    ensures found { IfSome result (λ place. slice_get texts.now place ≡ Some text.now) }
    ensures absent { IfNone result (Contains texts.now text.now → ⊥) }
{
    for place in 0..texts.len() {
        if is_same_text(&texts[place], text) {
            return Some(place);
        }
    }
    None
}

/// What a text of the formula is.
fn text_side(reader: Reader<'_>, text: &Txt) -> Option<Side>
    ensures { IfSome result (λ side. (place : ℕ) × (slice_get reader.entry.texts.now place ≡ Some
        text.now) × (side ≡ Side.Text (length reader.entry.terms.now + place))) }
{
    let place = place_of(reader.texts, text)?;
    let number = reader.terms.len().checked_add(place)?;
    if number > u32::MAX as usize {
        return None;
    }
    Some(Side::Text(number as u32))
}

/// What a value is to the decision procedures, if it is a number, a text or an element.
pub(crate) fn side_of(reader: Reader<'_>, value: Value) -> Option<Side>
    ensures { IfSome result (IsSide reader.entry.signature.now reader.entry.arena.now
        reader.entry.terms.now reader.entry.words.now reader.entry.texts.now value) }
{
    match value {
        Value::Term(id) => term_side(reader, id),
        Value::Literal(id) => literal_side(reader, id),
    }
}

/// What a term is to the decision procedures.
fn term_side(reader: Reader<'_>, id: u32) -> Option<Side>
    ensures { IfSome result (IsSide reader.entry.signature.now reader.entry.arena.now
        reader.entry.terms.now reader.entry.words.now reader.entry.texts.now (Value.Term id)) }
{
    match range_at(reader.signature, reader.terms, id) {
        Some(Range::Rec(sort)) => Some(Side::Element(sort, id)),
        Some(Range::Num) if id < u32::MAX && is_listed(reader.words, id) => {
            Some(Side::Number(id + 1, 0))
        }
        Some(Range::Str) if is_listed(reader.words, id) => Some(Side::Text(id)),
        Some(Range::Num | Range::Str | Range::Flag) | None => None,
    }
}

/// What a number or a text of the formula is to the decision procedures.
fn literal_side(reader: Reader<'_>, id: u32) -> Option<Side>
    ensures { IfSome result (IsSide reader.entry.signature.now reader.entry.arena.now
        reader.entry.terms.now reader.entry.words.now reader.entry.texts.now (Value.Literal id)) }
{
    if id as usize >= reader.arena.len() {
        return None;
    }
    match reader.arena.node(id) {
        Node::Num(n) => Some(Side::Number(0, *n)),
        Node::Str(text) => text_side(reader, text),
        Node::Bound(..)
        | Node::App(..)
        | Node::Yes
        | Node::No
        | Node::Eq(..)
        | Node::Less(..)
        | Node::Has(..)
        | Node::Flag(..)
        | Node::Present(..)
        | Node::Not(_)
        | Node::And(..)
        | Node::Or(..)
        | Node::Exists(..)
        | Node::Forall(..) => None,
    }
}
