//! How large policies and initialisers are.

ghost use Rattle.std.specs.Prelude.{◌≡◌};
ghost use Rattle.type_specs.specs.Sizes.{most_size};

/// How large a formula a policy or an initialiser becomes at most.
pub const MOST_POLICY_SIZE: u32 = 20_000;

/// The limits, as numbers.
pub fn limits_are()
    ensures sizes { most_size ≡ 20000 }
{}
