//! How far sizes are counted.

ghost use Rattle.std.specs.Prelude.{◌≡◌};
ghost use Rattle.duty_meaning.specs.Sizes.{largest_size};

/// The size at which sizes stay.
pub const LARGEST_SIZE: u64 = 1_000_000;

/// The limits, as numbers.
pub fn limits_are()
    ensures sizes { largest_size ≡ 1000000 }
{}
