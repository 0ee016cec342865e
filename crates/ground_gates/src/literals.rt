//! Variables with signs.

ghost use Rattle.std.specs.Prelude.{◌≡◌};
ghost use Rattle.ground_gates.specs.Literals.{is_false, is_true};

use crate::Literal;

/// The literal that a variable is true.
pub(crate) fn on(var: u32) -> Literal
    ensures { result ≡ is_true var }
{
    Literal { var, plus: true }
}

/// The literal that a variable is false.
pub(crate) fn off(var: u32) -> Literal
    ensures { result ≡ is_false var }
{
    Literal { var, plus: false }
}
