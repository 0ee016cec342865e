//! The values after a search.
ghost use Rattle.std.specs.Prelude.{◌≡◌, ◌≢◌, ℕ, ◌-◌, ◌^◌, ◌<◌, ◌≤◌, length, pos, neg_ℤ, ◌+ℤ◌};
ghost use Rattle.std.specs.Prelude.{◌-ℤ◌, ◌≤ℤ◌, slice_index};
ghost use Rattle.solve_order.specs.Lowering.{CanMove, Moves};
ghost use Rattle.solve_order.specs.Reach.{unreached, reach_of};

use crate::frontier::Reach;
use crate::permutation::Permutation;

/// The value of a vertex after it is lowered and all are raised.
fn moved(value: i64, reach: Reach, rise: i128) -> i64
    requires lowered_low { pos 0 ≤ℤ reach.lowered }
    requires lowered_high { reach.lowered ≤ℤ pos (2 ^ 67) }
    requires rise_low { pos 0 ≤ℤ rise }
    requires rise_high { rise ≤ℤ pos (2 ^ 67) }
    requires low { neg_ℤ (pos (2 ^ 63)) ≤ℤ (value -ℤ reach.lowered +ℤ rise) }
    requires high { (value -ℤ reach.lowered +ℤ rise) ≤ℤ pos (2 ^ 63 - 1) }
    ensures { result ≡ value -ℤ reach.lowered +ℤ rise }
{
    (i128::from(value) - reach.lowered + rise) as i64
}

/// Lowers the first `touched` vertices in order, where the others are not lowered.
pub fn move_reached(values: &mut Vec<i64>, reached: &[Reach], order: &Permutation, touched: usize)
    requires as_long { length order.now.items.items ≡ length values.old.items }
    requires touched_below { touched ≤ length order.now.items.items }
    requires can_move { CanMove values.old.items reached.now (pos 0) }
    requires others { (v : ℕ) → v < length values.old.items →
        touched ≤ slice_index order.now.places.items v → (reach_of reached.now v).lowered ≡ pos 0 }
    ensures { Moves values.old.items values.new.items reached.now (pos 0) }
{
    for place in 0..touched {
        let v = order.items[place] as usize;
        values[v] = moved(values[v], reached[v], 0);
    }
}

/// Lowers all vertices, and raises all by `rise`.
pub fn move_all(values: &mut Vec<i64>, reached: &[Reach], rise: i128)
    requires { CanMove values.old.items reached.now rise }
    ensures { Moves values.old.items values.new.items reached.now rise }
{
    for v in 0..values.len() {
        values[v] = moved(values[v], reached[v], rise);
    }
}
