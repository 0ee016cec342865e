//! How much a database holds.

ghost use Rattle.std.specs.Prelude.{◌≡◌};
ghost use Rattle.data_records.specs.Room.{most_records, most_weight};

/// How many records a database holds at most.
pub const MOST_RECORDS: usize = 20_000;

/// How much a database weighs at most.
pub const MOST_WEIGHT: u64 = 33_554_432;

/// The limits, as numbers.
pub fn limits_are()
    ensures records { most_records ≡ 20000 }
    ensures weight { most_weight ≡ 33554432 }
{}
