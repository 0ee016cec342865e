//! The limits of an arena.

ghost use Rattle.std.specs.Prelude.{◌≡◌};
ghost use Rattle.form_formula.specs.declared.limits.TheConstants as limit;

/// How many nodes there are at most.
pub const MOST_ARENA_NODES: usize = 4_000_000;

/// The limits, as numbers.
pub fn limits_are()
    ensures nodes { limit.MOST_ARENA_NODES ≡ 4000000 }
{}
