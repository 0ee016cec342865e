//! The limits of one token.

ghost use Rattle.std.specs.Prelude.{◌≡◌};
ghost use Rattle.text_lexer.specs.declared.limits.TheConstants as limit;

/// The bytes of the longest word.
pub const MOST_NAME_BYTES: usize = 64;

/// The most bytes that a literal stands for.
pub const MOST_TEXT_BYTES: usize = 4096;

/// The largest number, 2^63: with a sign before it, it is the least integer of 64 bits.
pub const LARGEST_NUMBER: u64 = 9_223_372_036_854_775_808;

/// The limits, as numbers.
pub fn limits_are()
    ensures names { limit.MOST_NAME_BYTES ≡ 64 }
    ensures texts { limit.MOST_TEXT_BYTES ≡ 4096 }
    ensures numbers { limit.LARGEST_NUMBER ≡ 9223372036854775808 }
{}
