//! The limits of what is stored.

ghost use Rattle.std.specs.Prelude.{◌≡◌};
ghost use Rattle.store_keeper.specs.Stored.{last_version};

/// The last version. A store that has it is migrated no more.
pub const LAST_VERSION: u64 = 9_223_372_036_854_775_807;

/// The limits, as numbers.
pub fn limits_are()
    ensures versions { last_version ≡ 9223372036854775807 }
{}
