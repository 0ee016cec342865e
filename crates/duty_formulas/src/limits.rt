//! How large a formula may be.

ghost use Rattle.std.specs.Prelude.{◌≡◌};
ghost use Rattle.duty_formulas.specs.Limits.{largest_formula};

/// How large a formula may be: many times what the limits on the sizes of policies and initialisers
/// let three of them be.
pub const LARGEST_FORMULA: u64 = 500_000;

/// The limits, as numbers.
pub fn limits_are()
    ensures formulas { largest_formula ≡ 500000 }
{}
