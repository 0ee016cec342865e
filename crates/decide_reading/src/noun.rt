//! What may be equal or compared.

ghost use Rattle.std.specs.Prelude.{◌≡◌, ◌<◌, true, length, slice_get, IfOk, int_lt};
ghost use Rattle.form_formula.specs.Truth.{are_equal, both_pass, is_raised, number_of};
ghost use Rattle.ground_terms.specs.Nodes.{IsOne};
ghost use Rattle.decide_reading.specs.Columns.{IsNoun, literal_by, noun_by, sval_of, value_by};

use crate::columns::Columns;
use form_formula::{Arena, Node, SVal};
use ground_instances::Value;
use ground_terms::{TermArena, TermNode};
use std::alloc::AllocError;
use text_ast::Txt;

/// A value, whose text lies in the columns or in a node of the formula.
#[derive(Clone, Copy)]
pub(crate) enum Noun<'a> {
    Rec(u32),
    Flag(bool),
    Num(i64),
    Str(&'a Txt),
}

/// The value that an entry is.
fn as_noun(value: &SVal) -> Noun<'_>
    ensures { sval_of result ≡ value.now }
{
    match value {
        SVal::Rec(x) => Noun::Rec(*x),
        SVal::Flag(flag) => Noun::Flag(*flag),
        SVal::Num(n) => Noun::Num(*n),
        SVal::Str(t) => Noun::Str(t),
    }
}

/// Whether a number is that of a term.
pub(crate) fn is_term(terms: &TermArena, id: u32) -> bool
    ensures { result ≡ true → IsOne terms.now id }
{
    if id as usize >= terms.len() {
        return false;
    }
    match terms.node(id) {
        TermNode::Constant(_) | TermNode::Skolem(..) | TermNode::Field(..) => true,
        TermNode::Empty | TermNode::Cons(..) => false,
    }
}

/// What a term has if it is there.
pub(crate) fn value_by<'a>(columns: &'a Columns, id: u32) -> Noun<'a>
    ensures { sval_of result ≡ value_by columns.entry.now id }
{
    match columns.values.get(id as usize) {
        Some(value) => as_noun(value),
        None => Noun::Flag(false),
    }
}

/// What a number or a text of the formula is.
fn literal_by<'a>(arena: &'a Arena, id: u32) -> Noun<'a>
    requires { id < length arena.now }
    ensures { sval_of result ≡ literal_by (slice_get arena.entry.now id) }
{
    match arena.node(id) {
        Node::Num(n) => Noun::Num(*n),
        Node::Str(t) => Noun::Str(t),
        Node::Bound(..)
        | Node::App(..)
        | Node::Yes
        | Node::No
        | Node::Eq(..)
        | Node::Less(..)
        | Node::Has(..)
        | Node::Flag(..)
        | Node::Present(..)
        | Node::Not(_)
        | Node::And(..)
        | Node::Or(..)
        | Node::Exists(..)
        | Node::Forall(..) => Noun::Num(0),
    }
}

/// What a value is. A number of nothing counts as memory that is not there.
pub(crate) fn noun_by<'a>(
    arena: &'a Arena,
    terms: &TermArena,
    columns: &'a Columns,
    value: Value,
) -> Result<Noun<'a>, AllocError>
    ensures is { IfOk result (λ noun. sval_of noun ≡ noun_by arena.entry.now columns.entry.now
        value) }
    ensures noun { IfOk result (λ _. IsNoun arena.entry.now terms.now value) }
{
    match value {
        Value::Term(id) if is_term(terms, id) => Ok(value_by(columns, id)),
        Value::Literal(id) if (id as usize) < arena.len() => Ok(literal_by(arena, id)),
        Value::Term(_) | Value::Literal(_) => Err(AllocError),
    }
}

impl Noun<'_> {
    /// The number that the value is, if it is one.
    fn number(self) -> Option<i64>
        ensures { result ≡ number_of (sval_of self.entry) }
    {
        match self {
            Noun::Num(n) => Some(n),
            Noun::Rec(_) | Noun::Flag(_) | Noun::Str(_) => None,
        }
    }

    /// Whether the value is true.
    pub(crate) fn is_raised(self) -> bool
        ensures { result ≡ is_raised (sval_of self.entry) }
    {
        match self {
            Noun::Flag(flag) => flag,
            Noun::Rec(_) | Noun::Num(_) | Noun::Str(_) => false,
        }
    }

    /// Whether two values are one element, one number or one text.
    pub(crate) fn equals(self, other: Noun<'_>) -> bool
        ensures { result ≡ are_equal (sval_of self.entry) (sval_of other.entry) }
    {
        match (self, other) {
            (Noun::Rec(x), Noun::Rec(y)) => x == y,
            (Noun::Num(m), Noun::Num(n)) => m == n,
            (Noun::Str(t), Noun::Str(u)) => t == u,
            (Noun::Rec(_) | Noun::Flag(_) | Noun::Num(_) | Noun::Str(_), _) => false,
        }
    }

    /// Whether two values are numbers, and the first is below the second.
    pub(crate) fn is_below(self, other: Noun<'_>) -> bool
        ensures { result ≡ both_pass int_lt (number_of (sval_of self.entry)) (number_of (sval_of
            other.entry)) }
    {
        match (self.number(), other.number()) {
            (Some(left), Some(right)) => left < right,
            (Some(_) | None, _) => false,
        }
    }
}
