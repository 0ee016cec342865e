//! Numbers that look random.

/// The next number of a sequence that looks random.
pub fn next(random: &mut u32) -> u32 {
    *random = random.wrapping_mul(1_664_525).wrapping_add(1_013_904_223);
    *random / 65536
}
