//! How what a field holds compares with the value of a condition.

ghost use Rattle.std.specs.Prelude.{◌≡◌};
ghost use Rattle.data_records.specs.Views.{value_data};
ghost use Rattle.door_meaning.specs.Conditions as spec;

use data_members::{are_equal, passes};
use data_records::Value;
use text_tree::{CmpOp, FilterOp};

/// Whether two values are equal; options are equal where both are nothing, or hold equal values.
fn same_value(held: &Value, v: &Value) -> bool
    ensures { result ≡ spec.same_value (value_data held.now) (value_data v.now) }
{
    match held {
        Value::Nothing => matches!(v, Value::Nothing),
        Value::Just(inner) => match v {
            Value::Just(sought) => are_equal(inner.get(), sought.get()),
            Value::Flag(_)
            | Value::Num(_)
            | Value::Str(_)
            | Value::Id(_)
            | Value::Ids(_)
            | Value::Nothing => false,
        },
        Value::Flag(_) | Value::Num(_) | Value::Str(_) | Value::Id(_) | Value::Ids(_) => {
            are_equal(held, v)
        }
    }
}

/// Whether what a field holds is as a condition with this value asks.
pub(crate) fn meets(op: FilterOp, held: &Value, v: &Value) -> bool
    ensures { result ≡ spec.meets op (value_data held.now) (value_data v.now) }
{
    match op {
        FilterOp::Cmp(CmpOp::Eq) => same_value(held, v),
        FilterOp::Cmp(CmpOp::Ne) => !same_value(held, v),
        FilterOp::Cmp(CmpOp::Lt | CmpOp::Le | CmpOp::Gt | CmpOp::Ge) | FilterOp::Has => {
            passes(op, held, v)
        }
    }
}
