//! How large an instantiation may be.

ghost use Rattle.std.specs.Prelude.{◌≡◌};
ghost use Rattle.form_terms.specs.Limits.{most_terms, most_nodes, most_counted};

/// The terms at most.
pub const MOST_TERMS: u64 = 400;

/// The nodes of the formula with each `forall` written out over its terms, at most.
pub const MOST_GROUND_NODES: u64 = 1_000_000;

/// The limits, as numbers.
pub fn limits_are()
    ensures terms { most_terms ≡ 400 }
    ensures nodes { most_nodes ≡ 1000000 }
    ensures counted { most_counted ≡ 18446744073709551615 }
{}
