//! Parts of values, and how values compare.

ghost use Rattle.std.specs.Prelude.{◌≡◌};
ghost use Rattle.data_records.specs.Views.{value_data};
ghost use Rattle.data_meaning.specs.Meaning as meaning;

use data_records::Value;
use text_tree::{CmpOp, FilterOp};

/// The truth value that a value is; false of one of another type.
pub(crate) fn truth(v: &Value) -> bool
    ensures { result ≡ meaning.truth_of (value_data v.now) }
{
    match v {
        Value::Flag(b) => *b,
        Value::Num(_)
        | Value::Str(_)
        | Value::Id(_)
        | Value::Ids(_)
        | Value::Nothing
        | Value::Just(_) => false,
    }
}

/// The number that a value is; 0 of one of another type.
fn number(v: &Value) -> i64
    ensures { result ≡ meaning.number_of (value_data v.now) }
{
    match v {
        Value::Num(n) => *n,
        Value::Flag(_)
        | Value::Str(_)
        | Value::Id(_)
        | Value::Ids(_)
        | Value::Nothing
        | Value::Just(_) => 0,
    }
}

/// The text that a value is; empty of one of another type.
fn text(v: &Value) -> &[u8]
    ensures { result.now ≡ meaning.text_of (value_data v.now) }
{
    match v {
        Value::Str(text) => text.bytes(),
        Value::Flag(_)
        | Value::Num(_)
        | Value::Id(_)
        | Value::Ids(_)
        | Value::Nothing
        | Value::Just(_) => &[],
    }
}

/// The id that a value is; 0 of one of another type.
pub(crate) fn id(v: &Value) -> u64
    ensures { result ≡ meaning.id_of (value_data v.now) }
{
    match v {
        Value::Id(id) => *id,
        Value::Flag(_)
        | Value::Num(_)
        | Value::Str(_)
        | Value::Ids(_)
        | Value::Nothing
        | Value::Just(_) => 0,
    }
}

/// The ids that a value is; none of one of another type.
pub(crate) fn ids(v: &Value) -> &[u64]
    ensures { result.now ≡ meaning.set_of (value_data v.now) }
{
    match v {
        Value::Ids(ids) => ids.as_slice(),
        Value::Flag(_)
        | Value::Num(_)
        | Value::Str(_)
        | Value::Id(_)
        | Value::Nothing
        | Value::Just(_) => &[],
    }
}

/// Whether two truth values, numbers, texts or ids are equal.
pub fn are_equal(v: &Value, w: &Value) -> bool
    ensures { result ≡ meaning.are_equal (value_data v.now) (value_data w.now) }
{
    match v {
        Value::Flag(b) => same_truth(*b, truth(w)),
        Value::Num(n) => *n == number(w),
        Value::Str(bytes) => bytes.bytes() == text(w),
        Value::Id(this) => *this == id(w),
        Value::Ids(_) | Value::Nothing | Value::Just(_) => false,
    }
}

/// Whether two truth values are the same.
pub(crate) fn same_truth(a: bool, b: bool) -> bool
    ensures { result ≡ meaning.same_truth a b }
{
    if a { b } else { !b }
}

/// Whether the first number is below the second.
pub(crate) fn is_less(v: &Value, w: &Value) -> bool
    ensures { result ≡ meaning.is_less (value_data v.now) (value_data w.now) }
{
    number(v) < number(w)
}

/// Whether two values compare so.
fn compares(op: CmpOp, v: &Value, w: &Value) -> bool
    ensures { result ≡ meaning.compares op (value_data v.now) (value_data w.now) }
{
    match op {
        CmpOp::Eq => are_equal(v, w),
        CmpOp::Ne => !are_equal(v, w),
        CmpOp::Lt => is_less(v, w),
        CmpOp::Le => !is_less(w, v),
        CmpOp::Gt => is_less(w, v),
        CmpOp::Ge => !is_less(v, w),
    }
}

/// Whether what a field holds passes the test of a filter with this value.
pub fn passes(op: FilterOp, held: &Value, v: &Value) -> bool
    ensures { result ≡ meaning.passes op (value_data held.now) (value_data v.now) }
{
    match op {
        FilterOp::Cmp(op) => compares(op, held, v),
        FilterOp::Has => ids(held).contains(&id(v)),
    }
}
