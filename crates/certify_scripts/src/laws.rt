//! What a certificate shows.

ghost use Rattle.certify_scripts.specs.Sound.{CertifiedAreSecure};

/// Whatever the bytes, a script that has a certificate is secure, at each step and as a whole, and
/// none of its obligations fails. This rests on the clauses of the obligations and on lawful trees,
/// and on no search.
pub fn certified_are_secure()
    ensures { CertifiedAreSecure }
{}
