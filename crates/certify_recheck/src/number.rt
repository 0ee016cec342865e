//! Numbers.

ghost use Rattle.std.specs.Char.{is_ascii_digit};
ghost use Rattle.std.specs.List.{list_all};
ghost use Rattle.std.specs.Prelude.{None, Some, nat_lt, cond, ◌&&◌, ◌≡◌};
ghost use Rattle.std.specs.Str.Parse.{digits_value};
ghost use Rattle.certify_recheck.specs.Numbers.{has_needless_zero, number_of};

/// No number of a certificate is as large.
pub(crate) const NUMBERS_END: u64 = 2_000_000_000;

/// The number that bytes write, where each is a digit and the number is not too large.
fn value_of(digits: &[u8]) -> Option<u32>
    ensures { result ≡ cond (list_all is_ascii_digit digits.now
        && nat_lt (digits_value 10 digits.now) 2000000000) (Some (digits_value 10 digits.now)) None }
{
    let mut value = 0;
    for digit in digits {
        if !digit.is_ascii_digit() {
            return None;
        }
        value = 10 * value + u64::from(*digit - b'0');
        if value >= NUMBERS_END {
            return None;
        }
    }
    Some(value as u32)
}

/// Whether a 0 stands before further digits.
fn has_needless_zero(digits: &[u8]) -> bool
    ensures { result ≡ has_needless_zero digits.now }
{
    matches!(digits, [b'0', _, ..])
}

/// The number that the bytes write.
pub(crate) fn number_of(digits: &[u8]) -> Option<u32>
    ensures { result ≡ number_of digits.now }
{
    if digits.is_empty() || has_needless_zero(digits) {
        return None;
    }
    value_of(digits)
}
