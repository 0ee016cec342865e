//! The limits of databases.

ghost use Rattle.std.specs.Prelude.{◌≡◌};
ghost use Rattle.data_meaning.specs.Values.{last_id};

/// The last id of a record.
pub const LAST_ID: u64 = 9_223_372_036_854_775_806;

/// The limits, as numbers.
pub fn limits_are()
    ensures ids { last_id ≡ 9223372036854775806 }
{}
