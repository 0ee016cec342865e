//! The limit of a certificate.

ghost use Rattle.std.specs.Prelude.{◌≡◌};
ghost use Rattle.app_certify.specs.declared.limits.TheConstants as limit;

/// How many bytes a certificate has at most.
pub const MOST_CERTIFICATE_BYTES: usize = 268_435_456;

/// The limit, as a number.
pub fn certificate_limit_is()
    ensures { limit.MOST_CERTIFICATE_BYTES ≡ 268435456 }
{}
