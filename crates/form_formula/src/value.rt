//! Values of terms.

ghost use Rattle.std.specs.Prelude.{◌≡◌, ◌==◌, ◌&&◌, None, slice_index_or};
ghost use Rattle.std.specs.List.{list_any};
ghost use Rattle.std.specs.Option.{option_map};
ghost use Rattle.form_formula.specs.Truth.{elements, entry, relates, element_of, number_of};
ghost use Rattle.form_formula.specs.Truth.{are_equal, is_raised, size_of};
ghost use Rattle.form_formula.specs.Values.{sval_of};

use crate::structure::{SVal, Structure};
use sqlite_items::Items;
use text_ast::Txt;

/// What a term is, whose text lies in a structure or in a node.
#[derive(Clone, Copy, Debug)]
pub(crate) enum Value<'a> {
    Rec(u32),
    Flag(bool),
    Num(i64),
    Str(&'a Txt),
}

/// How many elements a sort has.
pub(crate) fn size_of(structure: &Structure, sort: u32) -> u32
    ensures { result ≡ size_of structure.now sort }
{
    match structure.sizes.get(sort as usize) {
        Some(size) => *size,
        None => 0,
    }
}

/// What a function has at an element.
pub(crate) fn entry(structure: &Structure, f: u32, x: u32) -> Option<Value<'_>>
    ensures { option_map sval_of result ≡ entry structure.now f x }
{
    match structure.funs.get(f as usize) {
        Some(table) => entry_in(table, x),
        None => None,
    }
}

/// What a table has for an element.
fn entry_in(table: &Items<Option<SVal>>, x: u32) -> Option<Value<'_>>
    ensures { option_map sval_of result ≡ slice_index_or table.now x None }
{
    match table.get(x as usize) {
        Some(value) => as_entry(value),
        None => None,
    }
}

/// The value that a place of a table holds.
fn as_entry(entry: &Option<SVal>) -> Option<Value<'_>>
    ensures { option_map sval_of result ≡ entry.now }
{
    match entry {
        Some(value) => Some(as_value(value)),
        None => None,
    }
}

/// The value that an entry is.
fn as_value(value: &SVal) -> Value<'_>
    ensures { sval_of result ≡ value.now }
{
    match value {
        SVal::Rec(x) => Value::Rec(*x),
        SVal::Flag(flag) => Value::Flag(*flag),
        SVal::Num(n) => Value::Num(*n),
        SVal::Str(t) => Value::Str(t),
    }
}

/// Whether a set relation holds of two elements.
pub(crate) fn relates(structure: &Structure, r: u32, x: u32, y: u32) -> bool
    ensures { result ≡ relates structure.now r x y }
{
    match structure.sets.get(r as usize) {
        Some(pairs) => has_pair(pairs.as_slice(), x, y),
        None => false,
    }
}

/// Whether the pair is listed.
fn has_pair(pairs: &[(u32, u32)], x: u32, y: u32) -> bool
    ensures { result ≡ list_any (λ pair. (pair.0 == x) && (pair.1 == y)) pairs.now }
{
    pairs.iter().any(|pair| pair.0 == x && pair.1 == y)
}

impl Value<'_> {
    /// The element that the value is, if it is one.
    pub(crate) fn element(self) -> Option<u32>
        ensures { result ≡ element_of (sval_of self.entry) }
    {
        match self {
            Value::Rec(x) => Some(x),
            Value::Flag(_) | Value::Num(_) | Value::Str(_) => None,
        }
    }

    /// The number that the value is, if it is one.
    pub(crate) fn number(self) -> Option<i64>
        ensures { result ≡ number_of (sval_of self.entry) }
    {
        match self {
            Value::Num(n) => Some(n),
            Value::Rec(_) | Value::Flag(_) | Value::Str(_) => None,
        }
    }

    /// Whether the value is true.
    pub(crate) fn is_raised(self) -> bool
        ensures { result ≡ is_raised (sval_of self.entry) }
    {
        match self {
            Value::Flag(flag) => flag,
            Value::Rec(_) | Value::Num(_) | Value::Str(_) => false,
        }
    }

    /// Whether two values are one element, one number or one text.
    pub(crate) fn equals(self, other: Value<'_>) -> bool
        ensures { result ≡ are_equal (sval_of self.entry) (sval_of other.entry) }
    {
        match (self, other) {
            (Value::Rec(x), Value::Rec(y)) => x == y,
            (Value::Num(m), Value::Num(n)) => m == n,
            (Value::Str(t), Value::Str(u)) => t == u,
            (Value::Rec(_) | Value::Flag(_) | Value::Num(_) | Value::Str(_), _) => false,
        }
    }
}
