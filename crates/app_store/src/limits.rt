//! The limit of the data of `init`.

ghost use Rattle.std.specs.Prelude.{◌≡◌};
ghost use Rattle.app_store.specs.declared.limits.TheConstants as limit;

/// How many bytes the data of `init` have at most.
pub const MOST_DATA_BYTES: usize = 33_554_432;

/// The limit, as a number.
pub fn data_limit_is()
    ensures { limit.MOST_DATA_BYTES ≡ 33554432 }
{}
